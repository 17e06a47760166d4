// DC and domain replies on lent bytes: document 01, "Layouts".
ghost use Rattle.std.specs.Prelude.{◌≡◌, true, map, ◌+◌, ◌≤◌, ◌<◌, min, length, take, IfOk, Some};
ghost use Rattle.laws.specs.Lists.{every};
ghost use Rattle.reply_bytes.specs.texts.Bytes.{terminated, text_from};
ghost use Rattle.reply_bytes.specs.texts.Code.{spanned, Inside};
ghost use Rattle.reply_read.specs.referral.Replies.{referral_count, is_read, all_read, entries};
ghost use Rattle.reply_read.specs.referral.Code.{is_inside, text_shown, text_inside, units_read, denoted};
ghost use Rattle.reply_read.specs.name_lists.NameLists.{bare, dc_of, domain_said, bytes_past, texts_at, dc_names, good_dcs, read_dcs, domain_at, good_domain_name, read_domains};
ghost use Rattle.reply_read.specs.name_lists.Code.{dc_shown, dc_placed, dcs_shown, DcsInside, answer_of};

use crate::referral::Unread;
use reply_bytes::texts::Span;
use unc::names::BACKSLASH;

// A DC reply: the first `count` places of `kept` are the DC names, as spans of the reply.
// An array and a count: memory is fixed, no heap.
#[derive(Drop)]
pub struct DcsFound {
    pub kept: [Span; 8],
    pub count: usize,
}

// A name without a leading backslash.
// Here and in `dc_span` and `domain_span` the reply and a span of it, since a span of the reply is handed on: of a `ByteText` each clause would say
// `text.entry.bytes.now` for `r.now`.
fn bare(r: &[u8], s: Span) -> Span
    requires { Inside r.now s }
    ensures name { spanned r.now result ≡ bare (spanned r.now s) }
    ensures inside { Inside r.now result }
{
    if s.units != 0 && reply_bytes::texts::unit_of(r, s, 0) == BACKSLASH {
        reply_bytes::texts::part(s, 1, s.units)
    } else {
        s
    }
}

// The DC name in a text.
#[tactic(auto, using(crate::proofs::referral::TargetLaws::inside_test), unfolding(crate::specs::referral::Code::text_inside))]
fn dc_span(r: &[u8], s: Span) -> Option<Span>
    requires { Inside r.now s }
    ensures name { text_shown r.now result ≡ dc_of (terminated (spanned r.now s)) }
    ensures inside { text_inside r.now result ≡ true }
{
    let b = bare(r, s);
    reply_bytes::texts::good_name(r, b).then_some(b)
}

// The domain name in a text "\domain".
#[tactic(auto, using(crate::proofs::referral::TargetLaws::inside_test), unfolding(crate::specs::referral::Code::text_inside))]
fn domain_span(r: &[u8], s: Span) -> Option<Span>
    requires { Inside r.now s }
    ensures name { text_shown r.now result ≡ domain_said (terminated (spanned r.now s)) }
    ensures inside { text_inside r.now result ≡ true }
{
    if s.units == 0 || reply_bytes::texts::unit_of(r, s, 0) != BACKSLASH {
        return None;
    }
    let b = reply_bytes::texts::part(s, 1, s.units);
    reply_bytes::texts::good_name(r, b).then_some(b)
}

// The domain name of the entry at e.
pub fn domain_at(r: &[u8], e: usize) -> Option<Span>
    requires { (e + 13 < length r.now) × (length r.now < 4294967296) }
    ensures name { text_shown r.now result ≡ domain_at r.now e }
    ensures inside { text_inside r.now result ≡ true }
{
    let o = reply_bytes::reader::read_unit(r, e + 12) as usize;
    let Some(s) = reply_bytes::reader::read_text(r, e + o) else {
        return None;
    };
    domain_span(r, s)
}

// A DC name, and where the text after it starts.
#[derive(Clone, Copy)]
struct NextDc {
    name: Span,
    next: usize,
}

// The DC name at a byte.
fn dc_at(r: &[u8], at: usize) -> Option<NextDc>
    ensures name { dc_shown r.now result ≡ dc_of (text_from r.now at) }
    ensures placed { dc_placed r.now (at + bytes_past (text_from r.now at)) result ≡ true }
{
    let Some(s) = reply_bytes::reader::read_text(r, at) else {
        return None;
    };
    let Some(name) = dc_span(r, s) else {
        return None;
    };
    Some(NextDc {
        name,
        next: at + 2 * (s.units + 1),
    })
}

// Whether the n texts from a byte on are DC names.
fn good_names(r: &[u8], n: usize, from: usize) -> bool
    ensures { result ≡ every is_read (map dc_of (texts_at n from r.now)) }
{
    let mut at = from;
    for _i in 0..n {
        let Some(dc) = dc_at(r, at) else {
            return false;
        };
        at = dc.next;
    }
    true
}

// The first 8 of the n DC names from a byte on, all of them good.
fn names(r: &[u8], n: usize, from: usize) -> [Span; 8]
    requires { every is_read (map dc_of (texts_at n from r.now)) ≡ true }
    ensures names { map (spanned r.now) (take (min n 8) result) ≡ map units_read (take 8 (map dc_of (texts_at n from r.now))) }
    ensures inside { every (is_inside r.now) result ≡ true }
{
    let m = crate::referral::kept_of(n);
    let mut kept = [Span { from: 0, units: 0 }; 8];
    let mut at = from;
    for i in 0..m {
        // none of the names is bad
        let Some(dc) = dc_at(r, at) else {
            return kept;
        };
        kept[i] = dc.name;
        at = dc.next;
    }
    kept
}

// The first entry of a DC reply: its version, its flag, and all its DC names.
#[tactic(auto, using(crate::proofs::referral::EntryLaws::fits_room), unfolding(crate::specs::name_lists::NameLists::good_dcs, crate::specs::name_lists::NameLists::dc_names, crate::specs::referral::Replies::version_at, crate::specs::referral::Replies::entry_flag))]
fn good_dcs(r: &[u8]) -> bool
    requires { 8 ≤ length r.now }
    ensures { result ≡ good_dcs r.now }
{
    if !crate::referral::entry_fits(r, 8, 18) {
        return false;
    }
    let v = reply_bytes::reader::read_start(r, 8).version;
    let m = reply_bytes::reader::read_marks(r, 8);
    let f = reply_bytes::reader::read_offsets(r, 8);
    crate::referral::is_readable(v)
        && crate::referral::has_flag(2, m.flags as u32)
        && f.second != 0
        && good_names(r, f.second as usize, 8 + f.third as usize)
}

// What a good DC reply says.
fn dcs_in(r: &[u8]) -> DcsFound
    requires { good_dcs r.now ≡ true }
    ensures found { all_read (take 8 (dc_names r.now)) ≡ Some (dcs_shown r.now result) }
    ensures within { DcsInside r.now result }
{
    let f = reply_bytes::reader::read_offsets(r, 8);
    let n = f.second as usize;
    DcsFound {
        kept: names(r, n, 8 + f.third as usize),
        count: crate::referral::kept_of(n),
    }
}

// A DC reply, with the size asked for.
pub fn read_dcs(r: &[u8], size: u32) -> Result<DcsFound, Unread>
    ensures found { denoted (dcs_shown r.now) result ≡ read_dcs size r.now }
    ensures within { IfOk result (DcsInside r.now) }
{
    crate::referral::entry_count(r, size)?;
    if !good_dcs(r) {
        return Err(Unread::Malformed);
    }
    Ok(dcs_in(r))
}

// The entry at e of a domain reply.
#[tactic(auto, using(crate::proofs::referral::EntryLaws::fits_room), unfolding(crate::specs::name_lists::NameLists::good_domain_name, crate::specs::referral::Replies::version_at, crate::specs::referral::Replies::entry_flag, crate::specs::referral::Replies::is_read, crate::specs::referral::Code::text_shown))]
fn good_domain(r: &[u8], e: usize) -> bool
    requires { (e ≤ length r.now) × (length r.now < 4294967296) }
    ensures { result ≡ good_domain_name r.now e }
{
    crate::referral::entry_fits(r, e, 18)
        && reply_bytes::reader::read_start(r, e).version == 3
        && crate::referral::has_flag(2, reply_bytes::reader::read_marks(r, e).flags as u32)
        && domain_at(r, e).is_some()
}

// All n entries of a domain reply.
// Apart from `reply_read::referral::good_entries`: a loop that takes the test would have to ask of it that an entry that passes ends inside the reply, in more
// lines than this loop.
fn good_domains(r: &[u8], n: usize) -> bool
    requires { (8 ≤ length r.now) × ((length r.now < 4294967296) × (n ≡ referral_count r.now)) }
    ensures { result ≡ every (good_domain_name r.now) (entries r.now) }
{
    let mut e = 8;
    for _i in 0..n {
        if !good_domain(r, e) {
            return false;
        }
        e = crate::referral::next_entry(r, e);
    }
    true
}

// A domain reply, with the size asked for. Of one that says something the names are read one by one: `domain_at` of the entry at 8, then
// of each that `reply_read::referral::next_entry` gives.
pub fn read_domains(r: &[u8], size: u32) -> Result<(), Unread>
    ensures { result ≡ answer_of (read_domains size r.now) }
{
    let n = crate::referral::entry_count(r, size)?;
    if !good_domains(r, n as usize) {
        return Err(Unread::Malformed);
    }
    Ok(())
}
