// Referral requests and replies on lent bytes: document 01, "Layouts".
ghost use Rattle.std.specs.Prelude.{◌≡◌, true, ◌&&◌, eqb, map, ◌+◌, ◌≤◌, ◌<◌, min, length, take, IfOk, IfSome, IsNone, false, Some};
ghost use Rattle.laws.specs.Lists.{every};
ghost use Rattle.reply_bytes.specs.texts.Bytes.{flag, terminated, text_from};
ghost use Rattle.reply_bytes.specs.texts.Code.{spanned, Inside};
ghost use Rattle.reply_read.specs.referral.Replies.{path_of};
ghost use Rattle.reply_read.specs.referral.Replies.{referral_count, size_at, entries, fits, readable};
ghost use Rattle.reply_read.specs.referral.Replies.{good_fields, good_entry, prefix_at, target_at, referral_in, read_referral};
ghost use Rattle.reply_read.specs.referral.Code.{text_shown, text_inside, FirstEntry, GoodReply, ReferralInside, opens_at, kept_from, kept_inside, target_shown, referral_shown, denoted, entry_count, asked};

use reply_bytes::texts::{ByteText, Span};
use unc::path_form::PATH_UNITS;
use unc::text;

// Why a reply says nothing.
#[derive(Clone, Copy, Debug, PartialEq, Eq)]
pub enum Unread {
    Malformed,
    // it has no entry
    Nothing,
}

// A kept target, and whether a target set opens before it.
#[derive(Clone, Copy)]
pub struct Kept {
    pub path: Span,
    pub opens: bool,
}

// A reply to a root, link or SYSVOL request: its texts are spans of the reply. The first `targets` places of `kept` are the targets.
// An array and a count: memory is fixed, no heap.
#[derive(Clone, Copy)]
pub struct ReferralFound {
    pub version: u16,
    pub root: bool,
    pub servers: bool,
    pub storage: bool,
    pub failback: bool,
    pub count: u16,
    pub ttl: u32,
    pub prefix: Span,
    pub kept: [Kept; 8],
    pub targets: usize,
}

// What the first entry fixes for all of them: their version, their ServerType and their DFSPath.
#[derive(Clone, Copy)]
struct First {
    version: u16,
    kind: u16,
    prefix: Span,
}

// Whether the flag m, a power of two, is set.
pub fn has_flag(m: u32, f: u32) -> bool
    requires { 0 < m }
    ensures { result ≡ flag m f }
{
    f / m % 2 == 1
}

// The path in a text, normalised; bad too where it has less than 2 components.
// The reply and a span of it, since a span of the reply is handed on: of a `ByteText` each clause would say `text.entry.bytes.now` for `r.now`.
#[tactic(auto, using(crate::proofs::referral::TargetLaws::inside_test), unfolding(crate::specs::referral::Code::text_inside))]
fn path_span(r: &[u8], s: Span) -> Option<Span>
    requires { Inside r.now s }
    ensures path { text_shown r.now result ≡ path_of (terminated (spanned r.now s)) }
    ensures inside { text_inside r.now result ≡ true }
{
    let text = ByteText { bytes: r, span: s };
    let form = text::form_within(text, PATH_UNITS).ok()?;
    if form.components < 2 {
        return None;
    }
    let from = text::lead(text) - 1;
    Some(reply_bytes::texts::part(s, from, from + form.units))
}

// The path at a byte. Document 01 names `let .. else` where a string is read.
fn path_at(r: &[u8], at: usize) -> Option<Span>
    ensures path { text_shown r.now result ≡ path_of (text_from r.now at) }
    ensures inside { text_inside r.now result ≡ true }
{
    let Some(s) = reply_bytes::reader::read_text(r, at) else {
        return None;
    };
    path_span(r, s)
}

// The DFSPath of the entry at e.
// Apart from `target_of`: with the offset's field as a parameter, the clause would choose between `prefix_at` and `target_at`.
#[tactic(auto, unfolding(crate::specs::referral::Replies::prefix_at, crate::specs::referral::Replies::text_of))]
fn prefix_of(r: &[u8], e: usize) -> Option<Span>
    requires { (e + 17 < length r.now) × (length r.now < 4294967296) }
    ensures path { text_shown r.now result ≡ prefix_at r.now e }
    ensures inside { text_inside r.now result ≡ true }
{
    let o = reply_bytes::reader::read_offsets(r, e);
    path_at(r, e + o.first as usize)
}

// The target of the entry at e.
// Apart from `prefix_of`: see there.
#[tactic(auto, unfolding(crate::specs::referral::Replies::target_at, crate::specs::referral::Replies::text_of))]
fn target_of(r: &[u8], e: usize) -> Option<Span>
    requires { (e + 17 < length r.now) × (length r.now < 4294967296) }
    ensures path { text_shown r.now result ≡ target_at r.now e }
    ensures inside { text_inside r.now result ≡ true }
{
    let o = reply_bytes::reader::read_offsets(r, e);
    path_at(r, e + o.third as usize)
}

// Where the entry after the one at e starts.
#[tactic(auto, unfolding(crate::specs::referral::Replies::size_at))]
pub fn next_entry(r: &[u8], e: usize) -> usize
    requires { (e + 3 < length r.now) × (length r.now < 4294967296) }
    ensures { result ≡ e + size_at r.now e }
{
    e + reply_bytes::reader::read_start(r, e).size as usize
}

// Size is at least the fixed length and the entry lies inside the reply.
#[tactic(auto, unfolding(crate::specs::referral::Replies::fits, crate::specs::referral::Replies::size_at))]
pub fn entry_fits(r: &[u8], e: usize, fixed: usize) -> bool
    requires { (4 ≤ fixed) × (e ≤ length r.now) }
    ensures { result ≡ fits fixed r.now e }
{
    if r.len() - e < fixed {
        return false;
    }
    let size = reply_bytes::reader::read_start(r, e).size as usize;
    fixed <= size && size <= r.len() - e
}

// Versions 3 and 4 are read.
#[tactic(auto, unfolding(crate::specs::referral::Replies::readable))]
pub fn is_readable(v: u16) -> bool
    ensures { result ≡ readable v }
{
    v == 3 || v == 4
}

// The numbers of the entry at e, held to those of the first one.
#[tactic(auto, using(crate::proofs::referral::EntryLaws::fits_room), unfolding(crate::specs::referral::Replies::good_fields, crate::specs::referral::Replies::version_at, crate::specs::referral::Replies::entry_flag, crate::specs::referral::Replies::server_type_at, crate::specs::referral::Replies::fixed_length))]
fn good_fields(r: &[u8], e: usize, first: First) -> bool
    requires { (e ≤ length r.now) × FirstEntry r.now first }
    ensures { result ≡ good_fields r.now e }
{
    if !entry_fits(r, e, 34) {
        return false;
    }
    let v = reply_bytes::reader::read_start(r, e).version;
    let m = reply_bytes::reader::read_marks(r, e);
    v == first.version
        && is_readable(v)
        && !has_flag(2, m.flags as u32)
        && m.kind <= 1
        && m.kind == first.kind
}

// The entry at e, held to the first one.
#[tactic(auto, using(crate::proofs::referral::TextLaws::text_inside_lem), unfolding(crate::specs::referral::Replies::good_entry, crate::specs::referral::Replies::same_read, crate::specs::referral::Replies::is_read, crate::specs::referral::Code::text_shown))]
fn good_entry(r: &[u8], e: usize, first: First) -> bool
    requires { FirstEntry r.now first × ((e ≤ length r.now) × (length r.now < 4294967296)) }
    ensures { result ≡ good_entry r.now e }
{
    good_fields(r, e, first)
        && prefix_of(r, e).is_some_and(|p| reply_bytes::texts::same_spans(r, p, first.prefix))
        && target_of(r, e).is_some()
}

// What the first entry says, if it can be a good one.
fn first_entry(r: &[u8]) -> Option<First>
    requires { (8 ≤ length r.now) × (length r.now < 4294967296) }
    ensures read { IfSome result (FirstEntry r.now) }
    ensures none { IsNone result → good_entry r.now 8 ≡ false }
{
    if r.len() < 42 {
        return None;
    }
    let prefix = prefix_of(r, 8)?;
    Some(First {
        version: reply_bytes::reader::read_start(r, 8).version,
        kind: reply_bytes::reader::read_marks(r, 8).kind,
        prefix,
    })
}

// All n entries of a reply.
// Apart from `good_domains`: a loop that takes the test would have to ask of it that an entry that passes ends inside the reply, in more lines than this loop.
fn good_entries(r: &[u8], n: usize, first: First) -> bool
    requires { FirstEntry r.now first × ((8 ≤ length r.now) × ((length r.now < 4294967296) × (n ≡ referral_count r.now))) }
    ensures { result ≡ every (good_entry r.now) (entries r.now) }
{
    let mut e = 8;
    for _i in 0..n {
        if !good_entry(r, e, first) {
            return false;
        }
        e = next_entry(r, e);
    }
    true
}

// Whether a target set opens before the target of the entry at e, i entries being before it.
#[tactic(auto, unfolding(crate::specs::referral::Code::opens_at, crate::specs::referral::Replies::version_at, crate::specs::referral::Replies::entry_flag))]
fn opens_at(r: &[u8], e: usize, i: usize) -> bool
    requires { e + 11 < length r.now }
    ensures { result ≡ opens_at i r.now e }
{
    i != 0
        && reply_bytes::reader::read_start(r, e).version == 4
        && has_flag(4, reply_bytes::reader::read_marks(r, e).flags as u32)
}

// How many of n are kept.
pub fn kept_of(n: usize) -> usize
    ensures { result ≡ min n 8 }
{
    n.min(8)
}

// The first 8 targets of a reply whose n entries are good.
fn targets(r: &[u8], n: usize) -> [Kept; 8]
    requires { (length r.now < 4294967296) × ((n ≡ referral_count r.now) × (every (good_entry r.now) (entries r.now) ≡ true)) }
    ensures targets { map (target_shown r.now) (take (min (referral_count r.now) 8) result) ≡ kept_from 0 r.now (take 8 (entries r.now)) }
    ensures inside { every (kept_inside r.now) result ≡ true }
{
    let m = kept_of(n);
    let mut kept = [Kept {
        path: Span { from: 0, units: 0 },
        opens: false,
    }; 8];
    let mut e = 8;
    for i in 0..m {
        // the entries are good: none is without a target
        let Some(path) = target_of(r, e) else {
            return kept;
        };
        let opens = opens_at(r, e, i);
        kept[i] = Kept { path, opens };
        e = next_entry(r, e);
    }
    kept
}

// TargetFailback: the header's flag 4 in version 4, else 0.
fn failback_in(version: u16, flags: u32) -> bool
    ensures { result ≡ (eqb version 4 && flag 4 flags) }
{
    version == 4 && has_flag(4, flags)
}

// What a reply says whose n entries are good.
fn referral_in(r: &[u8], n: u16, first: First) -> ReferralFound
    requires { GoodReply r.now first × (n ≡ referral_count r.now) }
    ensures found { referral_in r.now ≡ Some (referral_shown r.now result) }
    ensures within { ReferralInside r.now result }
{
    let flags = reply_bytes::reader::read_header(r).flags;
    ReferralFound {
        version: first.version,
        root: first.kind == 1,
        servers: has_flag(1, flags),
        storage: has_flag(2, flags),
        failback: failback_in(first.version, flags),
        count: n,
        ttl: reply_bytes::reader::read_marks(r, 8).ttl,
        prefix: first.prefix,
        kept: targets(r, n as usize),
        targets: kept_of(n as usize),
    }
}

// The number of entries of a reply, with the size asked for: what is tested first of every reply.
pub(crate) fn entry_count(r: &[u8], size: u32) -> Result<u16, Unread>
    ensures { result ≡ entry_count size r.now }
{
    if r.len() < 8 || (size as usize) < r.len() {
        return Err(Unread::Malformed);
    }
    let count = reply_bytes::reader::read_header(r).count;
    if count == 0 {
        return Err(Unread::Nothing);
    }
    Ok(count)
}

// A reply to a root, link or SYSVOL request for the name asked, with the size asked for.
pub fn read_referral(r: &[u8], size: u32, asked: &[u16]) -> Result<ReferralFound, Unread>
    ensures found { denoted (referral_shown r.now) result ≡ read_referral size asked.now r.now }
    ensures within { IfOk result (ReferralInside r.now) }
{
    let n = entry_count(r, size)?;
    let first = first_entry(r).ok_or(Unread::Malformed)?;
    if good_entries(r, n as usize, first)
        && reply_bytes::texts::span_matches(r, first.prefix, asked)
    {
        Ok(referral_in(r, n, first))
    } else {
        Err(Unread::Malformed)
    }
}
