// Whether the targets that an entry holds and those of a reply are equivalent (source document 001).
ghost use Rattle.std.specs.Prelude.{◌≡◌, true, map, length, ◌-◌, ◌≤◌, ◌<◌};
ghost use Rattle.laws.specs.Lists.{every, part};
ghost use Rattle.reply_read.specs.referral.Code.{kept_inside, target_shown};
ghost use Rattle.cache.specs.places.Layout.{place_count, place_at, list_count};
ghost use Rattle.cache_entry.specs.equivalent_targets.Equivalence.{same_targets, paths, sets, same_sets, equivalent};
ghost use Rattle.cache_entry.specs.equivalent_targets.Code.{matched, unmarked, first_place, marks_in};
ghost use Rattle.cache_entry.specs.equivalent_targets.Code.{held_targets, given_path, boundaries, given_boundaries, set_end};

use reply_read::referral::Kept;

// The version whose replies have target sets.
const SETS: u16 = 4;

// The marks of the reply's targets are the bits of one number, the lowest that of the first target compared: 0 where it is taken.
const UNMARKED: u32 = 255;

// The place of the first of the given targets that is not marked and equal to x, else how many they are.
fn first_unmarked(x: &[u16], reply: &[u8], given: &[Kept], marks: u32) -> usize
    requires { every (kept_inside reply.now) given.now ≡ true }
    ensures within { result ≤ length given.now }
    ensures first { result ≡ first_place 0 x.now (marks_in (length given.now) marks) (map (given_path reply.now) given.now) }
{
    let mut left = marks;
    for (j, target) in given.iter().enumerate() {
        if left % 2 != 0 && reply_bytes::texts::same_span(reply, target.path, x) {
            return j;
        }
        left /= 2;
    }
    given.len()
}

// Whether each of the entry's targets t..end is equal to one of the given ones that is not marked, each of these taken once: the one found is marked.
// The recursive comparison that document 01 names.
#[tactic(auto, using(crate::proofs::equivalent_targets::ComparisonLaws::matched_end))]
fn matched_from(
    cache: &[u16],
    i: usize,
    t: usize,
    end: usize,
    reply: &[u8],
    given: &[Kept],
    marks: u32,
) -> bool
    requires { (i < place_count cache.now) × ((end ≤ list_count (place_at i cache.now)) × ((length given.now ≤ 8) × (every (kept_inside reply.now) given.now ≡ true))) }
    ensures { result ≡ matched (part t (end - t) (paths (held_targets i cache.now))) (unmarked (marks_in (length given.now) marks) (map (given_path reply.now) given.now)) }
{
    if end <= t {
        return true;
    }
    let held = cache::places::text(cache, i, 1 + t);
    let j = first_unmarked(held, reply, given, marks);
    if j == given.len() {
        return false;
    }
    matched_from(cache, i, t + 1, end, reply, given, marks - (1 << j))
}

// Whether the entry's targets start..end and the given ones are the same: as many, and each of the entry's is equal to one that no other took.
fn same_set(cache: &[u16], i: usize, start: usize, end: usize, reply: &[u8], given: &[Kept]) -> bool
    requires { (i < place_count cache.now) × ((start ≤ end) × ((end ≤ list_count (place_at i cache.now)) × ((length given.now ≤ 8) × (every (kept_inside reply.now) given.now ≡ true)))) }
    ensures { result ≡ same_targets (part start (end - start) (paths (held_targets i cache.now))) (map (given_path reply.now) given.now) }
{
    if end - start != given.len() {
        return false;
    }
    matched_from(cache, i, start, end, reply, given, UNMARKED)
}

// Where the set that starts at the entry's target a ends, before place n.
fn held_end(cache: &[u16], i: usize, a: usize, n: usize) -> usize
    requires { (i < place_count cache.now) × ((n ≡ list_count (place_at i cache.now)) × (a < n)) }
    ensures within { (a < result) × (result ≤ n) }
    ensures ends { result ≡ set_end a (boundaries (held_targets i cache.now)) }
{
    for e in a + 1..n {
        if cache::places::unit(cache, i, cache::places::MARKS + e) == 1 {
            return e;
        }
    }
    n
}

// Where the set that starts at the given target b ends.
fn given_end(given: &[Kept], b: usize) -> usize
    requires { b < length given.now }
    ensures within { (b < result) × (result ≤ length given.now) }
    ensures ends { result ≡ set_end b (given_boundaries given.now) }
{
    for e in b + 1..given.len() {
        if given[e].opens {
            return e;
        }
    }
    given.len()
}

// Whether the entry's n targets and the given ones are in as many sets, and each holds the same targets.
fn same_sets(cache: &[u16], i: usize, n: usize, reply: &[u8], given: &[Kept]) -> bool
    requires { (i < place_count cache.now) × ((n ≡ list_count (place_at i cache.now)) × ((length given.now ≤ 8) × (every (kept_inside reply.now) given.now ≡ true))) }
    ensures { result ≡ same_sets (sets (held_targets i cache.now)) (sets (map (target_shown reply.now) given.now)) }
{
    let mut a = 0;
    let mut b = 0;
    // a and b go on by a set, whose length no range knows
    while a < n {
        if given.len() <= b {
            return false;
        }
        let end = held_end(cache, i, a, n);
        let to = given_end(given, b);
        if !same_set(cache, i, a, end, reply, &given[b..to]) {
            return false;
        }
        a = end;
        b = to;
    }
    given.len() <= b
}

// Whether the targets of the entry at place i and the given ones, of a reply of this version, are equivalent.
pub fn equivalent(cache: &[u16], i: usize, reply: &[u8], given: &[Kept], version: u16) -> bool
    requires { (i < place_count cache.now) × ((length given.now ≤ 8) × (every (kept_inside reply.now) given.now ≡ true)) }
    ensures { result ≡ equivalent version (held_targets i cache.now) (map (target_shown reply.now) given.now) }
{
    let n = cache::places::list_count(cache, i);
    if version == SETS {
        same_sets(cache, i, n, reply, given)
    } else {
        same_set(cache, i, 0, n, reply, given)
    }
}
