// Units and texts in lent bytes, little-endian, at any offset: the byte forms of names and paths.
ghost use Rattle.std.specs.Prelude.{◌≡◌, ◌+◌, ◌*◌, ◌≤◌, ◌<◌, length, get_or};
ghost use Rattle.laws.specs.Lists.{pasted, roomed};
ghost use Rattle.unc.specs.names.Names.{same_name, good_name};
ghost use Rattle.unc.specs.names.Paths.{matches};
ghost use Rattle.reply_bytes.specs.texts.Bytes.{u16_at, u32_at, text_from};
ghost use Rattle.reply_bytes.specs.texts.Code.{spanned, Inside, part_of, text_end};

use unc::text::{self, Name, Text};

// Units in bytes: where they start, and how many.
#[derive(Clone, Copy)]
pub struct Span {
    pub from: usize,
    pub units: usize,
}

#[tactic(auto, unfolding(crate::specs::texts::Bytes::u16_at))]
pub fn unit_at(r: &[u8], at: usize) -> u16
    requires { at + 1 < length r.now }
    ensures { result ≡ u16_at r.now at }
{
    u16::from_le_bytes([r[at], r[at + 1]])
}

#[tactic(auto, unfolding(crate::specs::texts::Bytes::u16_at, crate::specs::texts::Bytes::u32_at))]
pub fn word_at(r: &[u8], at: usize) -> u32
    requires { at + 3 < length r.now }
    ensures { result ≡ u32_at r.now at }
{
    u32::from_le_bytes([r[at], r[at + 1], r[at + 2], r[at + 3]])
}

// The text that starts at a byte: it ends with a unit 0 inside the bytes, or there is none.
#[tactic(auto, using(crate::proofs::texts::UnitLaws::text_cases))]
pub fn read_text(r: &[u8], at: usize) -> Option<Span>
    ensures { result ≡ text_end at 0 (text_from r.now at) }
{
    let most = r.len().saturating_sub(at) / 2;
    for n in 0..most {
        if unit_at(r, at + 2 * n) == 0 {
            return Some(Span { from: at, units: n });
        }
    }
    None
}

// Unit k of a span.
#[tactic(auto, using(crate::proofs::texts::UnitLaws::unit_spanned))]
pub fn unit_of(r: &[u8], s: Span, k: usize) -> u16
    requires { Inside r.now s × (k < s.units) }
    ensures { result ≡ get_or (spanned r.now s) k 0 }
{
    unit_at(r, s.from + 2 * k)
}

// A part of a span: the units from place a up to place e.
pub fn part(s: Span, a: usize, e: usize) -> Span
    requires { (a ≤ e) × ((e ≤ s.units) × (s.from + 2 * s.units < 18446744073709551616)) }
    ensures { result ≡ part_of s a e }
{
    Span {
        from: s.from + 2 * a,
        units: e - a,
    }
}

// A text in bytes: the bytes, and a span that lies inside them.
#[derive(Clone, Copy)]
pub struct ByteText<'a> {
    pub bytes: &'a [u8],
    pub span: Span,
    ghost inside: { Inside bytes.now span },
}

#[tactic(auto, using(crate::proofs::texts::UnitLaws::length_spanned))]
impl Text for ByteText<'_> {
    ghost units = { λ t. spanned t.bytes.now t.span };

    fn len(self) -> usize {
        self.span.units
    }

    fn unit(self, k: usize) -> u16 {
        unit_of(self.bytes, self.span, k)
    }

    #[tactic(auto, using(crate::proofs::texts::UnitLaws::part_spanned, crate::proofs::texts::UnitLaws::length_spanned))]
    fn part(self, from: usize, to: usize) -> Self {
        ByteText {
            bytes: self.bytes,
            span: part(self.span, from, to),
        }
    }
}

impl Name for ByteText<'_> {
    fn equals(self, name: &[u16]) -> bool {
        text::same_name(name, self)
    }
}

// Equal names, both in the bytes.
pub fn same_spans(r: &[u8], a: Span, b: Span) -> bool
    requires { Inside r.now a × Inside r.now b }
    ensures { result ≡ same_name (spanned r.now a) (spanned r.now b) }
{
    text::same_name(
        ByteText { bytes: r, span: a },
        ByteText { bytes: r, span: b },
    )
}

// Equal names, one in the bytes.
pub fn same_span(r: &[u8], s: Span, name: &[u16]) -> bool
    requires { Inside r.now s }
    ensures { result ≡ same_name (spanned r.now s) name.now }
{
    text::same_name(ByteText { bytes: r, span: s }, name)
}

// Whether a prefix in the bytes matches a path.
pub fn span_matches(r: &[u8], s: Span, path: &[u16]) -> bool
    requires { Inside r.now s }
    ensures { result ≡ matches (spanned r.now s) path.now }
{
    text::matches(ByteText { bytes: r, span: s }, path)
}

// A name that is no path: one good component of at most 255 units.
pub fn good_name(r: &[u8], s: Span) -> bool
    requires { Inside r.now s }
    ensures { result ≡ good_name (spanned r.now s) }
{
    text::good_name(ByteText { bytes: r, span: s })
}

// A span's units into lent memory.
#[tactic(auto, using(crate::proofs::texts::UnitLaws::copied))]
fn copy_span(r: &[u8], s: Span, dst: &mut [u16], at: usize)
    requires { Inside r.now s × (at + s.units ≤ length dst.old) }
    ensures { dst.new ≡ pasted dst.old at (spanned r.now s) }
{
    for i in 0..s.units {
        dst[at + i] = unit_of(r, s, i);
    }
}

// A span's units into the room of `room` units at `at`, with zeros after them.
#[tactic(auto, using(crate::proofs::texts::UnitLaws::room_spanned))]
pub fn put_span(r: &[u8], s: Span, dst: &mut [u16], at: usize, room: usize)
    requires { Inside r.now s × ((s.units ≤ room) × (at + room ≤ length dst.old)) }
    ensures { dst.new ≡ pasted dst.old at (roomed room (spanned r.now s)) }
{
    copy_span(r, s, dst, at);
    memory::clear_units(dst, at + s.units, room - s.units);
}
