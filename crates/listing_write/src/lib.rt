// The referral cache as text: document 01, "The listing".
#![tactic(auto)]

ghost use Rattle.std.specs.Prelude.{◌≡◌, [], ◌∷◌, ◌++◌, ◌+◌, ◌≤◌, ◌<◌, length, Err};
ghost use Rattle.cache.specs.places.Layout.{place_count, place_at, flag_at, flag_unit, room_units, place_units};
ghost use Rattle.cache.specs.order.Memory.{referral_of, most_places};
ghost use Rattle.listing_spelling.specs.spell.Spelling.{spelled, decimal, Put};
ghost use Rattle.listing_write.specs.Form.{kind_key, kind_word, path_line, number_line, ended, lines_text, target_lines, setting_lines, count_lines, entry_text};
ghost use Rattle.listing_write.specs.Listed.{listed_text, list_refusal, list_answer, buffer_after};
ghost use Rattle.listing_write.specs.Code.{list_number};

use cache::places::PLACE;

// A key or a line, letter by letter: it is 16-bit units, which a byte string is not.
#[macro_export]
macro_rules! units {
    ($($letter:literal)*) => { [$($letter as u16),*] };
}

pub const LINE_END: u16 = b'\n' as u16;

pub const PREFIX: [u16; 7] = units![b'p' b'r' b'e' b'f' b'i' b'x' b'='];

pub const INTERLINK: [u16; 10] = units![b'i' b'n' b't' b'e' b'r' b'l' b'i' b'n' b'k' b'='];

pub const FAILBACK: [u16; 9] = units![b'f' b'a' b'i' b'l' b'b' b'a' b'c' b'k' b'='];

pub const TTL: [u16; 4] = units![b't' b't' b'l' b'='];

pub const TAKEN: [u16; 6] = units![b't' b'a' b'k' b'e' b'n' b'='];

pub const HINT: [u16; 5] = units![b'h' b'i' b'n' b't' b'='];

pub const TARGET: [u16; 7] = units![b't' b'a' b'r' b'g' b'e' b't' b'='];

pub const KIND_ROOT: [u16; 9] = units![b'k' b'i' b'n' b'd' b'=' b'r' b'o' b'o' b't'];

pub const KIND_LINK: [u16; 9] = units![b'k' b'i' b'n' b'd' b'=' b'l' b'i' b'n' b'k'];

// Keys that lines of the input of `walk` and lines that it prints both have.
pub const PATH: [u16; 5] = units![b'p' b'a' b't' b'h' b'='];

pub const SIZE: [u16; 5] = units![b's' b'i' b'z' b'e' b'='];

pub const STATUS: [u16; 7] = units![b's' b't' b'a' b't' b'u' b's' b'='];

// Why a cache is not listed.
#[derive(Clone, Copy, Debug, PartialEq, Eq)]
pub enum ListError {
    NotInOrder,
    TooShort,
}

impl From<ListError> for u32 {
    ghost from_gives = { λ error n. n ≡ list_refusal (Err error) };

    fn from(error: ListError) -> u32 {
        match error {
            ListError::NotInOrder => 4,
            ListError::TooShort => 10,
        }
    }
}

// The units of a line of a key and a text.
fn path_units(key: usize, s: &[u16]) -> usize
    requires { (key ≤ 16) × (length s.now ≤ room_units) }
    ensures { result ≡ key + length (spelled s.now) + 1 }
{
    key + listing_spelling::spell::spelled_units(s) + 1
}

// The same for a number; a trait of the values would be longer than the two functions.
fn number_units(key: usize, n: u32) -> usize
    requires { key ≤ 16 }
    ensures { result ≡ key + length (decimal n) + 1 }
{
    key + listing_spelling::spell::decimal_units(n) + 1
}

// The units of the lines before the targets. The lines of kind, interlink and failback have 10, 12 and 11 whatever they say.
fn head_units(cache: &[u16], i: usize) -> usize
    requires { i < place_count cache.now }
    ensures { result ≡ length (lines_text (setting_lines (referral_of (place_at i cache.now)) ++ count_lines (referral_of (place_at i cache.now)))) }
{
    let prefix = path_units(PREFIX.len(), cache::places::text(cache, i, 0));
    let ttl = number_units(TTL.len(), cache::places::wide(cache, i, cache::places::TTL));
    let taken = number_units(
        TAKEN.len(),
        cache::places::wide(cache, i, cache::places::TAKEN),
    );
    let hint = number_units(
        HINT.len(),
        cache::places::unit(cache, i, cache::places::HINT) as u32,
    );
    prefix + 33 + ttl + taken + hint
}

fn targets_units(cache: &[u16], i: usize) -> usize
    requires { i < place_count cache.now }
    ensures units { result ≡ length (lines_text (target_lines (referral_of (place_at i cache.now)).targets)) }
    ensures few { result ≤ 10304 }
{
    let mut n = 0;
    for j in 0..cache::places::list_count(cache, i) {
        n += path_units(TARGET.len(), cache::places::text(cache, i, 1 + j));
    }
    n
}

// How many units the listing has.
fn listing_units(cache: &[u16]) -> usize
    requires { place_count cache.now ≤ most_places }
    ensures { result ≡ length (listed_text cache.now) }
{
    let mut n = 0;
    for i in 0..cache.len() / PLACE {
        if cache::places::unit(cache, i, 0) != 0 {
            n += head_units(cache, i) + targets_units(cache, i);
        }
    }
    n
}

// The end of a line; answers where the next begins.
fn end_line(out: &mut [u16], at: usize) -> usize
    requires { at < length out.old }
    ensures { Put out.old at (LINE_END ∷ []) out.new result }
{
    memory::put_unit(out, at, LINE_END);
    at + 1
}

// A line of a key and a text spelled, into a lent buffer from `at` on; answers where it ends.
pub fn put_path(out: &mut [u16], at: usize, key: &[u16], s: &[u16]) -> usize
    requires { at + length (ended (path_line key.now s.now)) ≤ length out.old }
    ensures { Put out.old at (ended (path_line key.now s.now)) out.new result }
{
    memory::copy_units(out, at, key);
    let end = listing_spelling::spell::put_spelled(out, at + key.len(), s);
    end_line(out, end)
}

// A line of a key and a number in decimal; a trait of the values would be longer than the two functions.
pub fn put_number(out: &mut [u16], at: usize, key: &[u16], n: u32) -> usize
    requires { at + length (ended (number_line key.now n)) ≤ length out.old }
    ensures { Put out.old at (ended (number_line key.now n)) out.new result }
{
    memory::copy_units(out, at, key);
    let end = listing_spelling::spell::put_decimal(out, at + key.len(), n);
    end_line(out, end)
}

// A line as it is given.
pub fn put_line(out: &mut [u16], at: usize, line: &[u16]) -> usize
    requires { at + length (ended line.now) ≤ length out.old }
    ensures { Put out.old at (ended line.now) out.new result }
{
    memory::copy_units(out, at, line);
    end_line(out, at + line.len())
}

fn put_kind(out: &mut [u16], at: usize, root: bool) -> usize
    requires { at + length (ended (kind_key ++ kind_word root)) ≤ length out.old }
    ensures { Put out.old at (ended (kind_key ++ kind_word root)) out.new result }
{
    put_line(out, at, if root { &KIND_ROOT } else { &KIND_LINK })
}

// Whether flag j of place i is set.
fn flag(cache: &[u16], i: usize, j: usize) -> bool
    requires { (i < place_count cache.now) × (j < place_units) }
    ensures { result ≡ flag_at j (place_at i cache.now) }
{
    cache::places::unit(cache, i, j) == 1
}

fn put_flag(out: &mut [u16], at: usize, key: &[u16], set: bool) -> usize
    requires { at + length (ended (number_line key.now (flag_unit set))) ≤ length out.old }
    ensures { Put out.old at (ended (number_line key.now (flag_unit set))) out.new result }
{
    put_number(out, at, key, u32::from(set))
}

fn put_settings(cache: &[u16], i: usize, out: &mut [u16], at: usize) -> usize
    requires { (i < place_count cache.now) × (at + length (lines_text (setting_lines (referral_of (place_at i cache.now)))) ≤ length out.old) }
    ensures { Put out.old at (lines_text (setting_lines (referral_of (place_at i cache.now)))) out.new result }
{
    let a = put_path(out, at, &PREFIX, cache::places::text(cache, i, 0));
    let b = put_kind(out, a, flag(cache, i, cache::places::ROOT));
    let c = put_flag(out, b, &INTERLINK, flag(cache, i, cache::places::INTERLINK));
    put_flag(out, c, &FAILBACK, flag(cache, i, cache::places::FAILBACK))
}

fn put_counts(cache: &[u16], i: usize, out: &mut [u16], at: usize) -> usize
    requires { (i < place_count cache.now) × (at + length (lines_text (count_lines (referral_of (place_at i cache.now)))) ≤ length out.old) }
    ensures { Put out.old at (lines_text (count_lines (referral_of (place_at i cache.now)))) out.new result }
{
    let a = put_number(
        out,
        at,
        &TTL,
        cache::places::wide(cache, i, cache::places::TTL),
    );
    let b = put_number(
        out,
        a,
        &TAKEN,
        cache::places::wide(cache, i, cache::places::TAKEN),
    );
    put_number(
        out,
        b,
        &HINT,
        cache::places::unit(cache, i, cache::places::HINT) as u32,
    )
}

fn put_targets(cache: &[u16], i: usize, out: &mut [u16], at: usize) -> usize
    requires { (i < place_count cache.now) × (at + length (lines_text (target_lines (referral_of (place_at i cache.now)).targets)) ≤ length out.old) }
    ensures { Put out.old at (lines_text (target_lines (referral_of (place_at i cache.now)).targets)) out.new result }
{
    let mut end = at;
    for j in 0..cache::places::list_count(cache, i) {
        end = put_path(out, end, &TARGET, cache::places::text(cache, i, 1 + j));
    }
    end
}

fn put_entry(cache: &[u16], i: usize, out: &mut [u16], at: usize) -> usize
    requires { (i < place_count cache.now) × (at + length (entry_text (referral_of (place_at i cache.now))) ≤ length out.old) }
    ensures { Put out.old at (entry_text (referral_of (place_at i cache.now))) out.new result }
{
    let a = put_settings(cache, i, out, at);
    let b = put_counts(cache, i, out, a);
    put_targets(cache, i, out, b)
}

fn put_listing(cache: &[u16], out: &mut [u16]) -> usize
    requires { length (listed_text cache.now) ≤ length out.old }
    ensures { Put out.old 0 (listed_text cache.now) out.new result }
{
    let mut end = 0;
    for i in 0..cache.len() / PLACE {
        if cache::places::unit(cache, i, 0) != 0 {
            end = put_entry(cache, i, out, end);
        }
    }
    end
}

// The referral cache as text into a lent buffer; answers how many units were written. A refusal changes nothing.
pub fn list(referrals: &[u16], out: &mut [u16]) -> Result<usize, ListError>
    ensures number { list_refusal result ≡ list_number referrals.now (length out.old) }
    ensures answer { result ≡ list_answer referrals.now (length out.old) }
    ensures buffer { out.new ≡ buffer_after referrals.now out.old }
{
    if !cache::order::referrals_in_order(referrals) {
        return Err(ListError::NotInOrder);
    }
    if out.len() < listing_units(referrals) {
        return Err(ListError::TooShort);
    }
    Ok(put_listing(referrals, out))
}
