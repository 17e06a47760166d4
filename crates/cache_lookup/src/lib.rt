// Looking up in the two lent caches: the longest match, an equal key, ages, the place of a new entry, its fields and hints.
#![tactic(auto)]

ghost use Rattle.std.specs.Prelude.{◌≡◌, ◌+◌, ◌<◌, ◌≤◌, true, false, length, MatchOption};
ghost use Rattle.cache.specs.places.Layout.{place_count, place_at, room_units};
ghost use Rattle.cache.specs.order.Memory.{referrals, domains, place_of, decode, encode, in_order};
ghost use Rattle.cache_lookup.specs.Lookup.{longer_match, longest_match, with_key, age, expired, first_free_from, place_age, oldest, new_place, target_path, dc_name, target_hinted, dc_hinted};
ghost use Rattle.cache_lookup.specs.Code.{entry_at, target_opens, key_is, LowBits, Passed};

use cache::places::{PLACE, ROOM};
use unc::text::Name;

// The five low bits of each of four units, which equal units have in common.
const LOW_BITS: u64 = 8725857424048159;

// Units that a prefix is told apart by.
const END: usize = 4;

// Places that are looked at in one turn of the search. It is a constant so that the compiler writes a turn out.
const TURN: usize = 4;

// Four units from k on as one number, so that they are compared at once.
fn four_units(s: &[u16], k: usize) -> u64
    requires { k + 3 < length s.now }
    ensures { LowBits s.now k result }
{
    s[k] as u64
        + 65536 * s[k + 1] as u64
        + 4294967296 * s[k + 2] as u64
        + 281474976710656 * s[k + 3] as u64
}

// Whether the prefix of place i may match by its last four units. Paths of one namespace begin alike, so that their ends tell most of them apart. A prefix that
// is longer than the path is compared where the path ends: it does not match anyway, and a test for it would often be guessed wrong.
fn may_match(cache: &[u16], i: usize, path: &[u16]) -> bool
    requires { (i < place_count cache.now) × ((4 ≤ length path.now) × (length path.now ≤ room_units)) }
    ensures { result ≡ false → longer_match path.now 0 (place_of referrals (place_at i cache.now)) ≡ false }
{
    let units = cache::places::unit(cache, i, 0) as usize;
    if units < END {
        return 0 < units;
    }
    let start = units.min(path.len()) - END;
    let room = cache::places::room(cache, i, 0);
    (four_units(room, start) ^ four_units(path, start)) & LOW_BITS == 0
}

// Of the places of a turn, from i on, how many come before the first whose prefix may match.
fn passed(cache: &[u16], i: usize, path: &[u16]) -> usize
    requires { (i + 4 ≤ place_count cache.now) × ((4 ≤ length path.now) × (length path.now ≤ room_units)) }
    ensures { (result ≤ 4) × Passed cache.now path.now i (i + result) }
{
    // over i..i + TURN the turn would not be written out
    for k in 0..TURN {
        if may_match(cache, i + k, path) {
            return k;
        }
    }
    TURN
}

// The first place from `from` on whose prefix may match. A path of less than four units, or longer than any prefix, is not tested.
fn next_candidate(cache: &[u16], from: usize, path: &[u16]) -> Option<usize>
    requires { from ≤ place_count cache.now }
    ensures { MatchOption result (Passed cache.now path.now from (place_count cache.now)) (λ i. (from ≤ i) × ((i < place_count cache.now) × Passed cache.now path.now from i)) }
{
    let count = cache.len() / PLACE;
    if path.len() < END || ROOM < path.len() {
        return if from < count { Some(from) } else { None };
    }
    let turns = (count - from) / TURN;
    for t in 0..turns {
        let i = from + t * TURN;
        let k = passed(cache, i, path);
        if k < TURN {
            return Some(i + k);
        }
    }
    for i in from + turns * TURN..count {
        if may_match(cache, i, path) {
            return Some(i);
        }
    }
    None
}

// Whether the prefix of place i has more units than `units` and matches the path.
fn longer_match(cache: &[u16], i: usize, path: &[u16], units: usize) -> bool
    requires { i < place_count cache.now }
    ensures { result ≡ longer_match path.now units (place_of referrals (place_at i cache.now)) }
{
    let prefix = cache::places::text(cache, i, 0);
    // not unc::prefix::matches: where it ends is tested before its length, and its units last (docs/DECISIONS.md, 94)
    if !unc::text::ends_component(prefix, path) {
        return false;
    }
    units < prefix.len() && unc::names::same_likely(prefix, &path[..prefix.len()])
}

// The place of the entry whose prefix is the longest that matches the path.
pub fn find(cache: &[u16], path: &[u16]) -> Option<usize>
    ensures { result ≡ longest_match path.now (decode referrals cache.now) }
{
    let mut best = None;
    let mut units = 0;
    let mut from = 0;
    while let Some(i) = next_candidate(cache, from, path) {
        if longer_match(cache, i, path, units) {
            best = Some(i);
            units = cache::places::text(cache, i, 0).len();
            // none is longer than the path
            if units == path.len() {
                return best;
            }
        }
        from = i + 1;
    }
    best
}

// Whether place i is used and its key is an equal name.
#[tactic(auto, unfolding(crate::specs::Code::key_is))]
fn key_is<N: Name>(cache: &[u16], i: usize, name: N) -> bool
    requires { i < place_count cache.now }
    ensures { result ≡ key_is (N.units name) (place_at i cache.now) }
{
    cache::places::unit(cache, i, 0) != 0 && name.equals(cache::places::text(cache, i, 0))
}

// The place of the entry whose key, a prefix or the name of a domain, is an equal name.
pub fn find_key<N: Name>(cache: &[u16], name: N) -> Option<usize>
    ensures referral { result ≡ with_key referrals (N.units name) (decode referrals cache.now) }
    ensures domain { result ≡ with_key domains (N.units name) (decode domains cache.now) }
{
    for i in 0..cache.len() / PLACE {
        if key_is(cache, i, name) {
            return Some(i);
        }
    }
    None
}

// The place of the referral entry with an equal prefix.
pub fn find_prefix(cache: &[u16], prefix: &[u16]) -> Option<usize>
    ensures { result ≡ with_key referrals prefix.now (decode referrals cache.now) }
{
    find_key(cache, prefix)
}

// The place of the domain entry with an equal name.
pub fn find_domain(cache: &[u16], name: &[u16]) -> Option<usize>
    ensures { result ≡ with_key domains name.now (decode domains cache.now) }
{
    find_key(cache, name)
}

// Seconds since an entry was taken, on a clock that rolls over.
pub fn age(clock: u32, taken: u32) -> u32
    ensures { result ≡ age clock taken }
{
    std::num::wrapping_sub_u32(clock, taken)
}

pub fn ttl(cache: &[u16], i: usize) -> u32
    requires { i < place_count cache.now }
    ensures { result ≡ (entry_at referrals i cache.now).settings.ttl }
{
    cache::places::wide(cache, i, cache::places::TTL)
}

pub fn taken(cache: &[u16], i: usize) -> u32
    requires { i < place_count cache.now }
    ensures { result ≡ (entry_at referrals i cache.now).settings.taken }
{
    cache::places::wide(cache, i, cache::places::TAKEN)
}

pub fn is_expired(cache: &[u16], i: usize, clock: u32) -> bool
    requires { i < place_count cache.now }
    ensures { result ≡ expired clock (entry_at referrals i cache.now) }
{
    ttl(cache, i) <= age(clock, taken(cache, i))
}

// The age of what a place holds; 0 where it is free.
fn place_age(cache: &[u16], i: usize, clock: u32) -> u32
    requires { i < place_count cache.now }
    ensures { result ≡ place_age clock (place_of referrals (place_at i cache.now)) }
{
    if cache::places::unit(cache, i, 0) == 0 {
        0
    } else {
        age(clock, taken(cache, i))
    }
}

fn first_free(cache: &[u16]) -> Option<usize>
    ensures { result ≡ first_free_from 0 (decode referrals cache.now) }
{
    for i in 0..cache.len() / PLACE {
        if cache::places::unit(cache, i, 0) == 0 {
            return Some(i);
        }
    }
    None
}

// The lowest place of greatest age.
fn oldest_place(cache: &[u16], clock: u32) -> usize
    ensures { result ≡ oldest clock (decode referrals cache.now) }
{
    let mut oldest = 0;
    let mut most = 0;
    for i in 0..cache.len() / PLACE {
        let seconds = place_age(cache, i, clock);
        if most < seconds {
            oldest = i;
            most = seconds;
        }
    }
    oldest
}

// The place that a new entry takes.
#[tactic(auto, unfolding(crate::specs::Lookup::new_place, crate::specs::Lookup::found_or))]
pub fn new_place(cache: &[u16], clock: u32) -> usize
    ensures { result ≡ new_place clock (decode referrals cache.now) }
{
    first_free(cache).unwrap_or_else(|| oldest_place(cache, clock))
}

pub fn prefix(cache: &[u16], i: usize) -> &[u16]
    requires { i < place_count cache.now }
    ensures { result.now ≡ (entry_at referrals i cache.now).prefix }
{
    cache::places::text(cache, i, 0)
}

pub fn is_root(cache: &[u16], i: usize) -> bool
    requires { i < place_count cache.now }
    ensures { result ≡ (entry_at referrals i cache.now).settings.root }
{
    cache::places::unit(cache, i, cache::places::ROOT) == 1
}

pub fn is_interlink(cache: &[u16], i: usize) -> bool
    requires { i < place_count cache.now }
    ensures { result ≡ (entry_at referrals i cache.now).settings.interlink }
{
    cache::places::unit(cache, i, cache::places::INTERLINK) == 1
}

pub fn target_count(cache: &[u16], i: usize) -> usize
    requires { i < place_count cache.now }
    ensures { result ≡ length (entry_at referrals i cache.now).targets }
{
    cache::places::list_count(cache, i)
}

pub fn target_hint(cache: &[u16], i: usize) -> u16
    requires { i < place_count cache.now }
    ensures { result ≡ (entry_at referrals i cache.now).hint }
{
    cache::places::unit(cache, i, cache::places::HINT)
}

// Target j of the entry at place i, as it lies in the cache.
pub fn target(cache: &[u16], i: usize, j: usize) -> &[u16]
    requires { (i < place_count cache.now) × (j < length (entry_at referrals i cache.now).targets) }
    ensures { result.now ≡ target_path j (entry_at referrals i cache.now) }
{
    cache::places::text(cache, i, 1 + j)
}

// Whether a set opens before target j.
pub fn target_opens(cache: &[u16], i: usize, j: usize) -> bool
    requires { (i < place_count cache.now) × (j < length (entry_at referrals i cache.now).targets) }
    ensures { result ≡ target_opens j (entry_at referrals i cache.now) }
{
    cache::places::unit(cache, i, cache::places::MARKS + j) == 1
}

// The fields of a DC entry lie where those of a referral entry do and are read by the same calls. They have functions of their own, since a contract names one
// kind of entry.
pub fn dc_count(cache: &[u16], i: usize) -> usize
    requires { i < place_count cache.now }
    ensures { result ≡ length (entry_at domains i cache.now).dcs }
{
    cache::places::list_count(cache, i)
}

pub fn dc_hint(cache: &[u16], i: usize) -> u16
    requires { i < place_count cache.now }
    ensures { result ≡ (entry_at domains i cache.now).hint }
{
    cache::places::unit(cache, i, cache::places::HINT)
}

// DC j of the entry at place i, as it lies in the cache.
pub fn dc(cache: &[u16], i: usize, j: usize) -> &[u16]
    requires { (i < place_count cache.now) × (j < length (entry_at domains i cache.now).dcs) }
    ensures { result.now ≡ dc_name j (entry_at domains i cache.now) }
{
    cache::places::text(cache, i, 1 + j)
}

// TargetHint of the entry at place i.
pub fn set_target_hint(cache: &mut [u16], i: usize, target: u16)
    requires { (in_order referrals cache.old ≡ true) × ((i < place_count cache.old) × (target < length (entry_at referrals i cache.old).targets)) }
    ensures { cache.new ≡ encode referrals (target_hinted i target (decode referrals cache.old)) }
{
    cache::places::put_unit(cache, i, cache::places::HINT, target);
}

// DCHint of the entry at place i.
pub fn set_dc_hint(cache: &mut [u16], i: usize, dc: u16)
    requires { (in_order domains cache.old ≡ true) × ((i < place_count cache.old) × (dc < length (entry_at domains i cache.old).dcs)) }
    ensures { cache.new ≡ encode domains (dc_hinted i dc (decode domains cache.old)) }
{
    cache::places::put_unit(cache, i, cache::places::HINT, dc);
}
