// The steps that call each other: lookup, domain, link and interlink. Moves left and step rank fall. They hand on a point of the steps as
// one number (specs/cycle/Code.antt), and the rest is made of the last one.
ghost use Rattle.std.specs.Prelude.{◌≡◌, Bool, true, false, List, ℕ, ◌≤◌, ◌<◌, length, take, Some};
ghost use Rattle.unc.specs.names.Code.{written_within};
ghost use Rattle.unc.specs.names.Paths.{is_sysvol, replaced};
ghost use Rattle.walk_steps.specs.walk_texts.Code.{Standing, with_tried};
ghost use Rattle.cache.specs.places.Layout.{place_count};
ghost use Rattle.cache.specs.order.Order.{good_prefix};
ghost use Rattle.cache.specs.order.Memory.{referrals, domains, decode};
ghost use Rattle.cache_lookup.specs.Lookup.{target_path};
ghost use Rattle.cache_lookup.specs.Code.{entry_at};
ghost use Rattle.walk_steps.specs.steps.Steps.{Caches, asks, asking, step3, step5, step8, from_step2, goes, turned};
ghost use Rattle.walk_steps.specs.steps.Held.{caches_of, core_of, asking_of};
ghost use Rattle.walk_steps.specs.steps.Code.{core_at};
ghost use Rattle.walk_steps.specs.cycle.Code.{rested_with, packed, called_after, Ready, Usable};
ghost use Rattle.walk_steps.specs.cycle.Code.{due2, due5, due9, due7, due11, ask_link, nowhere, what_of, place_in, hit_in, units_of, left_of, Parts, kind_of_case, question_of_case};
ghost use Rattle.walk_steps.specs.cycle.Code.{FoundAt, DcAt, Sought, after_match, Matched, replaced_at, moved_to, steps_at, Point, Halted, SameSteps, SameRest};

use crate::steps::{Asking, End, Kind, Next, Progress, Rested};

// The prefix of the path replaced by a target's path, put as the path tried.
fn put_target(refs: &[u16], texts: &mut [u16], len: usize, i: usize, party: u16) -> Option<usize>
    requires { Standing len texts.old × (Usable refs.now (take len texts.old) i × (party < length (entry_at referrals i refs.now).targets)) }
    ensures answer { result ≡ written_within 256 (replaced (target_path party (entry_at referrals i refs.now)) (length (entry_at referrals i refs.now).prefix) (take len texts.old)) }
    ensures texts { texts.new ≡ with_tried (replaced (target_path party (entry_at referrals i refs.now)) (length (entry_at referrals i refs.now).prefix) (take len texts.old)) texts.old }
{
    let k = cache_lookup::prefix(refs, i).len();
    let target = cache_lookup::target(refs, i, party as usize);
    crate::walk_texts::put_tried(texts, len, k, target)
}

// Steps 3 and 8: the I/O try at target `party` of the entry at place i.
fn step8(
    refs: &[u16],
    texts: &mut [u16],
    len: usize,
    left: u16,
    hit: bool,
    i: usize,
    party: u16,
    began: u16,
) -> Rested
    requires { Standing len texts.old × (Usable refs.now (take len texts.old) i × (party < length (entry_at referrals i refs.now).targets)) }
    ensures { (size : ℕ) → rested_with result texts.new ≡ packed (asking left (core_of (take len texts.old) size hit) (step8 (core_of (take len texts.old) size hit) (entry_at referrals i refs.now) party began)) }
{
    if left == 0 {
        return crate::steps::end_at(End::LimitReached, 0, len, left, hit);
    }
    let Some(n) = put_target(refs, texts, len, i, party) else {
        return crate::steps::end_at(End::TooLong, 0, len, left, hit);
    };
    let k = cache_lookup::prefix(refs, i).len();
    let q = Asking {
        kind: Kind::Io,
        entry: k as u16,
        party,
        began,
        size: 0,
        uncovered: false,
    };
    Rested {
        next: Next::Asks(q),
        path: len as u16,
        tried: n as u16,
        left: left - 1,
        hit,
    }
}

// Step 3: the try at the target hinted at.
fn step3(refs: &[u16], texts: &mut [u16], len: usize, left: u16, hit: bool, i: usize) -> Rested
    requires { Standing len texts.old × Usable refs.now (take len texts.old) i }
    ensures { (size : ℕ) → rested_with result texts.new ≡ packed (asking left (core_of (take len texts.old) size hit) (step3 (core_of (take len texts.old) size hit) (entry_at referrals i refs.now))) }
{
    let hint = cache_lookup::target_hint(refs, i);
    step8(refs, texts, len, left, hit, i, hint, hint)
}

// A point of the steps as one number: the case, the place of its entry or the place of its DC, whether there was a hit, the units of the
// path, the moves left. One number and no struct, since the stack is bounded: a move has a frame of 128 bytes (docs/DECISIONS.md 74).
const PLACE: u64 = 16;

const HIT: u64 = 1048576;

const UNITS: u64 = 2097152;

const LEFT: u64 = 1073741824;

// The step that is due.
const DUE2: u64 = 0;

const DUE5: u64 = 1;

const DUE9: u64 = 2;

const DUE7: u64 = 3;

// Step 11 is due, and the steps rest there if no move is left.
const DUE11: u64 = 4;

// Where the steps rest: step 3's try; step 9's request to a root's target; step 5.2's for DCs; step 6's or 10's to a DC; step 6's to a
// host; the end at a new path that is too long.
const TRY: u64 = 5;

const ASK_LINK: u64 = 6;

const ASK_DC: u64 = 7;

const ASK_DOMAIN: u64 = 8;

const ASK_HOST: u64 = 9;

const TOO_LONG: u64 = 10;

fn point(what: u64, i: usize, hit: bool, len: usize, left: u64) -> u64
    requires { (what < 16) × ((i < 65536) × ((len ≤ 256) × (left < 65536))) }
    ensures { Parts what i hit len left result }
{
    what + PLACE * (i as u64) + HIT * u64::from(hit) + UNITS * (len as u64) + LEFT * left
}

// Another case at this path.
fn case_at(n: u64, what: u64, i: usize) -> u64
    requires { (what < 16) × ((i < 65536) × (left_of n < 65536)) }
    ensures { Parts what i (hit_in n) (units_of n) (left_of n) result }
{
    n / HIT * HIT + PLACE * (i as u64) + what
}

// The same after a cache hit.
fn case_hit(n: u64, what: u64, i: usize) -> u64
    requires { (what < 16) × ((i < 65536) × (left_of n < 65536)) }
    ensures { Parts what i true (units_of n) (left_of n) result }
{
    n / UNITS * UNITS + HIT + PLACE * (i as u64) + what
}

fn place(n: u64) -> usize
    ensures { result ≡ place_in n }
{
    (n / PLACE % 65536) as usize
}

fn units(n: u64) -> usize
    ensures { result ≡ units_of n }
{
    (n / UNITS % 512) as usize
}

fn had_hit(n: u64) -> bool
    ensures { result ≡ hit_in n }
{
    n / HIT % 2 == 1
}

fn for_sysvol(texts: &[u16], n: u64) -> bool
    requires { Standing (units_of n) texts.now }
    ensures { result ≡ is_sysvol (take (units_of n) texts.now) }
{
    let len = units(n);
    unc::prefix::is_sysvol(&texts[..len])
}

// Where a look-up found nothing, and where step 5 found a domain without a DC: more than any place.
const NOWHERE: u64 = 65536;

const NO_DC: u64 = 65537;

fn number(found: Option<usize>) -> u64
    requires { (i : ℕ) → found ≡ Some i → i < 65536 }
    ensures { FoundAt found result }
{
    found.map_or(NOWHERE, |i| i as u64)
}

// Step 5: the DC hinted at by the domain of the first component.
fn dc_sought(doms: &[u16], path: &[u16]) -> u64
    requires { good_prefix path.now ≡ true }
    ensures { DcAt doms.now path.now result }
{
    let Some(i) = cache_lookup::find_domain(doms, crate::steps::host(path)) else {
        return NOWHERE;
    };
    if cache_lookup::dc_count(doms, i) == 0 {
        NO_DC
    } else {
        cache_lookup::dc_hint(doms, i) as u64
    }
}

// What the step that is due looks up: step 2 the longest match, step 9 the root entry of the first two components, step 5 a DC.
// One function that three steps call, so that the compiler leaves it out of the frame of a move.
fn sought(refs: &[u16], doms: &[u16], texts: &[u16], n: u64) -> u64
    requires { Ready refs.now texts.now (units_of n) }
    ensures { Sought refs.now doms.now (take (units_of n) texts.now) (what_of n) result }
{
    let path = &texts[..units(n)];
    match n % PLACE {
        DUE2 => number(cache_lookup::find(refs, path)),
        DUE9 => number(crate::steps::root_entry(refs, path)),
        _ => dc_sought(doms, path),
    }
}

// The step that is due after a match: step 7 at a fresh entry, step 5 at an expired root, step 9 at an expired link.
fn after_match(refs: &[u16], i: usize, clock: u32) -> u64
    requires { i < place_count refs.now }
    ensures { result ≡ after_match clock (entry_at referrals i refs.now) }
{
    if !cache_lookup::is_expired(refs, i, clock) {
        DUE7
    } else if cache_lookup::is_root(refs, i) {
        DUE5
    } else {
        DUE9
    }
}

// Step 2 by what it found; without a match step 5.
fn matched(refs: &[u16], n: u64, found: u64, clock: u32) -> u64
    requires { (left_of n < 65536) × ((found ≡ nowhere → ⊥) → (found < place_count refs.now) × (found < 65536)) }
    ensures { Matched refs.now clock n found result }
{
    if found == NOWHERE {
        return case_at(n, DUE5, 0);
    }
    let i = found as usize;
    case_hit(n, after_match(refs, i, clock), i)
}

// Step 5: a request to a DC of the domain, or for its DCs; without a domain one to a host.
fn step5(refs: &[u16], doms: &[u16], texts: &[u16], n: u64) -> u64
    requires { Point refs.now texts.now n × (what_of n ≡ due5) }
    ensures { ((clock : ℕ) → SameSteps refs.now doms.now clock texts.now n result) × (due11 < what_of result) }
{
    match sought(refs, doms, texts, n) {
        NOWHERE => case_at(n, ASK_HOST, 0),
        NO_DC => case_at(n, ASK_DC, 0),
        dc => case_at(n, ASK_DOMAIN, dc as usize),
    }
}

// Step 9's root entry: a request to its target, or step 5 is due.
fn root_asked(refs: &[u16], doms: &[u16], texts: &[u16], n: u64) -> u64
    requires { Point refs.now texts.now n × (what_of n ≡ due9) }
    ensures { ((clock : ℕ) → SameSteps refs.now doms.now clock texts.now n result) × ((what_of result ≡ ask_link → ⊥) → what_of result ≡ due5) }
{
    match sought(refs, doms, texts, n) {
        NOWHERE => case_at(n, DUE5, 0),
        root => case_at(n, ASK_LINK, root as usize),
    }
}

// Step 9: a request to the root entry's target; without a root entry step 5. The two are called one after the other, and not the second
// from the first, so that what they lend shares its room in the frame of a move.
fn step9(refs: &[u16], doms: &[u16], texts: &[u16], n: u64) -> u64
    requires { Point refs.now texts.now n × (what_of n ≡ due9) }
    ensures { ((clock : ℕ) → SameSteps refs.now doms.now clock texts.now n result) × (due11 < what_of result) }
{
    let m = root_asked(refs, doms, texts, n);
    if m % PLACE == ASK_LINK {
        m
    } else {
        step5(refs, doms, texts, m)
    }
}

// Step 11: the prefix of the path replaced by the target hinted at.
fn step11(refs: &[u16], texts: &mut [u16], n: u64) -> Option<usize>
    requires { Point refs.now texts.old n × (what_of n ≡ due11) }
    ensures answer { result ≡ written_within 256 (replaced_at refs.now texts.old n) }
    ensures texts { texts.new ≡ moved_to (replaced_at refs.now texts.old n) texts.old }
{
    let i = place(n);
    let hint = cache_lookup::target_hint(refs, i);
    let Some(len) = put_target(refs, texts, units(n), i, hint) else {
        return None;
    };
    crate::walk_texts::take_tried(texts);
    Some(len)
}

// The four members. The compiler makes one frame of them, 128 bytes a move (docs/DECISIONS.md 74): so they hand on a number that each
// takes apart again, and look up through `sought`.

// Step 2, and on by what it found.
#[cycle(domain_interlink_link_lookup)]
fn lookup(refs: &[u16], doms: &[u16], texts: &mut [u16], n: u64, clock: u32) -> u64
    requires { Point refs.now texts.old n × (what_of n ≡ due2) }
    ensures { SameRest refs.now doms.now clock n texts.old result texts.new }
{
    let found = sought(refs, doms, texts, n);
    domain(refs, doms, texts, matched(refs, n, found, clock), clock)
}

// Step 5; step 7, where a root's targets go to step 3.
#[cycle(domain_interlink_link_lookup)]
fn domain(refs: &[u16], doms: &[u16], texts: &mut [u16], n: u64, clock: u32) -> u64
    requires { Point refs.now texts.old n × ((due2 < what_of n) × (what_of n ≤ due7)) }
    ensures { SameRest refs.now doms.now clock n texts.old result texts.new }
{
    if n % PLACE == DUE5 {
        return step5(refs, doms, texts, n);
    }
    if n % PLACE == DUE7 && cache_lookup::is_root(refs, place(n)) {
        return case_at(n, TRY, place(n));
    }
    link(refs, doms, texts, n, clock)
}

// Step 9; step 4, where SYSVOL, NETLOGON and a link without Interlink go to step 3.
#[cycle(domain_interlink_link_lookup)]
fn link(refs: &[u16], doms: &[u16], texts: &mut [u16], n: u64, clock: u32) -> u64
    requires { Point refs.now texts.old n × ((due5 < what_of n) × ((what_of n ≤ due7) × (what_of n ≡ due7 → (entry_at referrals (place_in n) refs.now).settings.root ≡ false))) }
    ensures { SameRest refs.now doms.now clock n texts.old result texts.new }
{
    if n % PLACE == DUE9 {
        return step9(refs, doms, texts, n);
    }
    if for_sysvol(texts, n) || !cache_lookup::is_interlink(refs, place(n)) {
        return case_at(n, TRY, place(n));
    }
    interlink(refs, doms, texts, case_at(n, DUE11, place(n)), clock)
}

// Step 11, and on from step 2. The limit is tested, then the length of the new path.
#[cycle(domain_interlink_link_lookup)]
fn interlink(refs: &[u16], doms: &[u16], texts: &mut [u16], n: u64, clock: u32) -> u64
    requires { Point refs.now texts.old n × (what_of n ≡ due11) }
    ensures { SameRest refs.now doms.now clock n texts.old result texts.new }
{
    if n / LEFT == 0 {
        return n;
    }
    let Some(len) = step11(refs, texts, n) else {
        return case_at(n, TOO_LONG, 0);
    };
    lookup(
        refs,
        doms,
        texts,
        point(DUE2, 0, had_hit(n), len, n / LEFT - 1),
        clock,
    )
}

// The kind of a request that names the domain.
fn kind(what: u64, path: &[u16]) -> Kind
    ensures { result ≡ kind_of_case what path.now }
{
    if what == ASK_DC {
        Kind::Dc
    } else if unc::prefix::is_sysvol(path) {
        Kind::Sysvol
    } else {
        Kind::Root
    }
}

// The question at which the steps rest, if it tries no path.
fn question(refs: &[u16], path: &[u16], what: u64, i: usize, size: u32) -> Asking
    requires { (length path.now ≤ 256) × ((i < 65536) × (what ≡ ask_link → i < place_count refs.now)) }
    ensures { (hit : Bool) → result ≡ asking_of (question_of_case refs.now (core_of path.now size hit) i what) }
{
    match what {
        ASK_LINK => {
            let n = cache_lookup::prefix(refs, i).len();
            let hint = cache_lookup::target_hint(refs, i);
            Asking {
                kind: Kind::Link,
                entry: n as u16,
                party: hint,
                began: hint,
                size,
                uncovered: false,
            }
        }
        ASK_HOST => Asking {
            kind: Kind::Root,
            entry: 0,
            party: 0,
            began: 0,
            size,
            uncovered: false,
        },
        _ => crate::steps::domain_asking(kind(what, path), path, i as u16, size),
    }
}

// The rest at a point from which no move is made.
fn rest_at(refs: &[u16], texts: &mut [u16], n: u64, size: u32) -> Rested
    requires { Halted refs.now texts.old n }
    ensures { (doms : List ℕ) (clock : ℕ) → rested_with result texts.new ≡ steps_at refs.now doms size clock n texts.old }
{
    let what = n % PLACE;
    let left = (n / LEFT) as u16;
    let len = units(n);
    let hit = had_hit(n);
    match what {
        TRY => step3(refs, texts, len, left, hit, place(n)),
        DUE11 => crate::steps::end_at(End::LimitReached, 0, len, left, hit),
        TOO_LONG => crate::steps::end_at(End::TooLong, 0, len, left, hit),
        _ => {
            let q = question(refs, &texts[..len], what, place(n), size);
            crate::steps::ask(q, len, left, hit)
        }
    }
}

// From step 2.
pub fn from_lookup(refs: &[u16], doms: &[u16], texts: &mut [u16], g: Progress) -> Rested
    requires { Ready refs.now texts.old g.len }
    ensures { rested_with result texts.new ≡ packed (turned g.left g.clock (from_step2 (caches_of refs.now doms.now) (core_at g texts.old) g.clock)) }
{
    let n = point(DUE2, 0, g.hit, g.len, g.left as u64);
    let r = lookup(refs, doms, texts, n, g.clock);
    rest_at(refs, texts, r, g.size)
}

// From step 5.
pub fn from_domain(refs: &[u16], doms: &[u16], texts: &mut [u16], g: Progress) -> Rested
    requires { Ready refs.now texts.old g.len }
    ensures { rested_with result texts.new ≡ packed (goes g.left (caches_of refs.now doms.now) g.clock (core_at g texts.old) (asks (step5 (decode domains doms.now) (core_at g texts.old)))) }
{
    let n = point(DUE5, 0, g.hit, g.len, g.left as u64);
    let r = domain(refs, doms, texts, n, g.clock);
    rest_at(refs, texts, r, g.size)
}

// From the entry at a place, which has just been stored: SYSVOL goes to step 3, any other to step 7.
pub fn from_stored(
    refs: &[u16],
    doms: &[u16],
    texts: &mut [u16],
    g: Progress,
    i: usize,
    sysvol: bool,
) -> Rested
    requires { Ready refs.now texts.old g.len × (Usable refs.now (take g.len texts.old) i × (g.hit ≡ true)) }
    ensures { rested_with result texts.new ≡ packed (goes g.left (caches_of refs.now doms.now) g.clock (core_at g texts.old) (called_after sysvol (core_at g texts.old) (entry_at referrals i refs.now))) }
{
    if sysvol {
        return step3(refs, texts, g.len, g.left, g.hit, i);
    }
    let n = point(DUE7, i, g.hit, g.len, g.left as u64);
    let r = domain(refs, doms, texts, n, g.clock);
    rest_at(refs, texts, r, g.size)
}

// Step 8: the try at a target of the entry at place i, in a round that began at `began`.
pub fn try_target(
    refs: &[u16],
    texts: &mut [u16],
    g: Progress,
    i: usize,
    party: u16,
    began: u16,
) -> Rested
    requires { Standing g.len texts.old × (Usable refs.now (take g.len texts.old) i × (party < length (entry_at referrals i refs.now).targets)) }
    ensures { (c : Caches) → rested_with result texts.new ≡ packed (goes g.left c g.clock (core_at g texts.old) (asks (step8 (core_at g texts.old) (entry_at referrals i refs.now) party began))) }
{
    step8(refs, texts, g.len, g.left, g.hit, i, party, began)
}
