// The bytes of a line as they come, and hex digits in either case: document 01, "Examples to hold it to".
ghost use Rattle.std.specs.Prelude.{◌≡◌, true, ◌+◌, ◌*◌, ◌≤◌, ◌<◌, length, take, get_or};
ghost use Rattle.laws.specs.Lists.{every, pasted};
ghost use Rattle.script_lines.specs.line_bytes.Hexes.{upper, is_hex, hex_value, hex_number, hex_bytes};
ghost use Rattle.script_lines.specs.line_bytes.Held.{next_rest, rest_from, held_after, line_after};

// What is known of the bytes of a line that are not kept: there are none, or an even or an odd number of hex digits, or others.
#[derive(Clone, Copy)]
pub enum Rest {
    None,
    Even,
    Odd,
    Other,
}

// The part of a line that has come: how many bytes are kept, and the rest.
#[derive(Clone, Copy)]
pub struct Held {
    pub kept: usize,
    pub rest: Rest,
}

// a to f as A to F.
#[tactic(auto, unfolding(crate::specs::line_bytes::Hexes::upper, laws::specs::Choice::choose))]
fn upper(u: u16) -> u16
    ensures { result ≡ upper u }
{
    match u {
        97..=102 => u - 32,
        _ => u,
    }
}

// Whether a unit is a hex digit.
#[tactic(auto, unfolding(crate::specs::line_bytes::Hexes::is_hex, listing_spelling::specs::unspell::Reading::hex_digit))]
pub fn is_hex(u: u16) -> bool
    ensures { result ≡ is_hex u }
{
    matches!(upper(u), 48..=57 | 65..=70)
}

#[tactic(auto, unfolding(crate::specs::line_bytes::Hexes::is_hex, crate::specs::line_bytes::Hexes::hex_value, listing_spelling::specs::unspell::Reading::hex_digit, listing_spelling::specs::unspell::Reading::digit_of, laws::specs::Choice::choose))]
fn value(u: u16) -> u8
    requires { is_hex u ≡ true }
    ensures digit { result ≡ hex_value u }
    ensures small { result < 16 }
{
    let d = upper(u) as u8;
    if d < 58 { d - 48 } else { d - 55 }
}

// Whether a text has hex digits alone.
pub fn all_hex(s: &[u16]) -> bool
    ensures { result ≡ every is_hex s.now }
{
    s.iter().all(|u| is_hex(*u))
}

#[tactic(auto, using(laws::proofs::Every::every_at))]
fn byte_at(s: &[u16], i: usize) -> u8
    requires { (every is_hex s.now ≡ true) × (i + 2 ≤ length s.now) }
    ensures byte { result ≡ 16 * hex_value (get_or s.now i 0) + hex_value (get_or s.now (i + 1) 0) }
    ensures small { result < 256 }
{
    16 * value(s[i]) + value(s[i + 1])
}

// The number of eight digits.
pub fn number(s: &[u16]) -> u32
    requires { (every is_hex s.now ≡ true) × (length s.now ≡ 8) }
    ensures { result ≡ hex_number s.now }
{
    u32::from_be_bytes([byte_at(s, 0), byte_at(s, 2), byte_at(s, 4), byte_at(s, 6)])
}

// The bytes that pairs of digits say, as many as the buffer holds; answers how many.
pub fn put_bytes(s: &[u16], out: &mut [u8]) -> usize
    requires { every is_hex s.now ≡ true }
    ensures count { result ≡ length (take (length out.old) (hex_bytes s.now)) }
    ensures bytes { out.new ≡ pasted out.old 0 (take (length out.old) (hex_bytes s.now)) }
{
    let n = out.len().min(s.len() / 2);
    for (i, byte) in out[..n].iter_mut().enumerate() {
        *byte = byte_at(s, 2 * i);
    }
    n
}

#[tactic(auto, unfolding(crate::specs::line_bytes::Held::next_rest, crate::specs::line_bytes::Held::one_more, laws::specs::Choice::choose))]
fn next_rest(rest: Rest, u: u16) -> Rest
    ensures { result ≡ next_rest rest u }
{
    match rest {
        Rest::None | Rest::Even if is_hex(u) => Rest::Odd,
        Rest::Odd if is_hex(u) => Rest::Even,
        _ => Rest::Other,
    }
}

fn rest_with(rest: Rest, s: &[u16]) -> Rest
    ensures { result ≡ rest_from rest s.now }
{
    s.iter().fold(rest, |r, u| next_rest(r, *u))
}

// Bytes as units, as many as the buffer holds; answers how many.
pub fn widen(src: &[u8], out: &mut [u16]) -> usize
    ensures count { result ≡ length (take (length out.old) src.now) }
    ensures units { out.new ≡ pasted out.old 0 (take (length out.old) src.now) }
{
    let n = out.len().min(src.len());
    for (i, byte) in src[..n].iter().enumerate() {
        out[i] = u16::from(*byte);
    }
    n
}

// Further bytes of the line that is held: as many as there is room for are kept.
pub fn hold(part: &[u16], line: &mut [u16], held: Held) -> Held
    ensures held { result ≡ held_after (length line.old) held part.now }
    ensures line { line.new ≡ line_after line.old held part.now }
{
    if line.len() <= held.kept {
        return Held {
            rest: rest_with(held.rest, part),
            ..held
        };
    }
    let n = part.len().min(line.len() - held.kept);
    memory::copy_units(line, held.kept, &part[..n]);
    Held {
        kept: held.kept + n,
        rest: rest_with(held.rest, &part[n..]),
    }
}
