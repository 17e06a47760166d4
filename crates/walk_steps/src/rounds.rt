// Rounds over DCs and targets: whether the entry in use still has its parties, and what comes after a failure.
#![tactic(auto, unfolding(crate::specs::rounds::Code::in_round, crate::specs::rounds::Code::again, crate::specs::rounds::Code::failed_dc, crate::specs::rounds::Code::failed_link, crate::specs::steps::Steps::next_place, crate::specs::steps::Steps::doubled, crate::specs::steps::Steps::failed_host, crate::specs::steps::Steps::failed, crate::specs::steps::Steps::referral_fails, crate::specs::steps::Steps::onward, crate::specs::steps::Steps::step6, crate::specs::steps::Steps::link_request, crate::specs::steps::Code::called_of, crate::specs::steps::Held::question_of, laws::specs::Choice::choose))]

ghost use Rattle.std.specs.Prelude.{◌≡◌, Bool, true, ◌||◌, List, [], ℕ, ◌≤◌, ◌<◌, ◌*◌, min, length, get_or, take, eqb};
ghost use Rattle.unc.specs.names.Paths.{components};
ghost use Rattle.cache.specs.order.Memory.{domains, decode};
ghost use Rattle.cache.specs.order.Order.{good_prefix};
ghost use Rattle.cache_lookup.specs.Lookup.{with_key};
ghost use Rattle.walk_steps.specs.steps.Steps.{asks, is_in_use, next_place, doubled, failed_host, failed, referral_fails, is_one_of, next_target_statuses};
ghost use Rattle.walk_steps.specs.steps.Held.{caches_of, core_of, question_of};
ghost use Rattle.walk_steps.specs.steps.Code.{called_of};
ghost use Rattle.walk_steps.specs.rounds.Code.{domain_there, dcs_named, targets_under, in_round, again, failed_dc, failed_root, failed_link};

use crate::steps::{Asking, End, Kind, Next, Progress};

const OVERFLOW: u32 = 0x80000005;

const NOT_FOUND: u32 = 0xC000003A;

const MOST: u32 = 57344;

// The statuses on which an I/O goes on to the next target.
const NEXT: [u32; 6] = [
    0xC00000B5, 0xC00000BE, 0xC00000C9, 0xC00000CC, 0xC0000236, 0xC000023D,
];

// The place of the domain of the path's first component.
fn domain_place(doms: &[u16], path: &[u16]) -> Option<usize>
    requires { good_prefix path.now ≡ true }
    ensures { result ≡ with_key domains (get_or (components path.now) 0 []) (decode domains doms.now) }
{
    cache_lookup::find_domain(doms, crate::steps::host(path))
}

fn domain_there(doms: &[u16], path: &[u16]) -> bool
    requires { good_prefix path.now ≡ true }
    ensures { result ≡ domain_there path.now doms.now }
{
    domain_place(doms, path).is_some()
}

// The parties of a round: 0 where their entry is gone.
fn dcs(doms: &[u16], path: &[u16]) -> usize
    requires { good_prefix path.now ≡ true }
    ensures { result ≡ dcs_named path.now doms.now }
{
    let Some(i) = domain_place(doms, path) else {
        return 0;
    };
    cache_lookup::dc_count(doms, i)
}

fn targets(refs: &[u16], prefix: &[u16]) -> usize
    ensures { result ≡ targets_under prefix.now refs.now }
{
    let Some(i) = cache_lookup::find_prefix(refs, prefix) else {
        return 0;
    };
    cache_lookup::target_count(refs, i)
}

fn in_round(n: usize, party: u16, began: u16) -> bool
    ensures { result ≡ in_round n party began }
{
    (party as usize) < n && (began as usize) < n
}

// A root request to a host has no round.
fn root_round(doms: &[u16], path: &[u16], entry: u16, party: u16, began: u16) -> bool
    requires { good_prefix path.now ≡ true }
    ensures { result ≡ (eqb entry 0 || in_round (dcs_named path.now doms.now) party began) }
{
    entry == 0 || in_round(dcs(doms, path), party, began)
}

// Whether the entry in use is there, with the party asked and the one with which the round began.
pub fn in_use(refs: &[u16], doms: &[u16], path: &[u16], q: Asking) -> bool
    requires { (good_prefix path.now ≡ true) × (q.entry ≤ length path.now) }
    ensures { result ≡ is_in_use (caches_of refs.now doms.now) (core_of path.now 0 true) (question_of q []) }
{
    match q.kind {
        Kind::Dc => domain_there(doms, path),
        Kind::Root => root_round(doms, path, q.entry, q.party, q.began),
        Kind::Sysvol => in_round(dcs(doms, path), q.party, q.began),
        Kind::Link | Kind::Io => {
            let prefix = &path[..q.entry as usize];
            in_round(targets(refs, prefix), q.party, q.began)
        }
    }
}

// The place after, round past the last.
pub fn next_place(n: usize, place: u16) -> u16
    requires { n ≤ 65536 }
    ensures { result ≡ next_place n place }
{
    let next = place as usize + 1;
    if next < n { next as u16 } else { 0 }
}

fn asks_again(status: u32, size: u32) -> bool
    ensures { result ≡ again status size }
{
    status == OVERFLOW && size < MOST
}

fn doubled(size: u32) -> u32
    requires { size < 57344 }
    ensures { result ≡ min (2 * size) 57344 }
{
    MOST.min(2 * size)
}

// The same party again, with the size doubled.
fn ask_again(q: Asking) -> Next
    requires { q.size < 57344 }
    ensures { called_of result ≡ asks (doubled (question_of q [])) }
{
    Next::Asks(Asking {
        size: doubled(q.size),
        ..q
    })
}

// A root request to a host has one party.
fn failed_host(hit: bool, status: u32) -> Next
    ensures { (path : List ℕ) (size : ℕ) → called_of result ≡ failed_host (core_of path size hit) status }
{
    if hit {
        Next::Ends(End::Failed, status)
    } else {
        Next::Ends(End::NotDfs, 0)
    }
}

// The next DC, from the given size.
fn failed_dc(doms: &[u16], path: &[u16], size: u32, q: Asking) -> Next
    requires { good_prefix path.now ≡ true }
    ensures { (hit : Bool) → called_of result ≡ failed_dc (dcs_named path.now doms.now) (core_of path.now size hit) (question_of q []) }
{
    let dc = next_place(dcs(doms, path), q.party);
    if dc == q.began {
        return Next::Ends(End::NoDc, NOT_FOUND);
    }
    let entry = unc::prefix::first_end(path, 1) as u16;
    Next::Asks(Asking {
        kind: Kind::Root,
        entry,
        party: dc,
        began: q.began,
        size,
        uncovered: false,
    })
}

#[tactic(auto, unfolding(crate::specs::rounds::Code::failed_root, crate::specs::steps::Held::question_of, laws::specs::Choice::choose))]
fn failed_root(doms: &[u16], path: &[u16], g: Progress, q: Asking, status: u32) -> Next
    requires { good_prefix path.now ≡ true }
    ensures { called_of result ≡ failed_root (dcs_named path.now doms.now) (core_of path.now g.size g.hit) (question_of q []) status }
{
    if q.entry == 0 {
        failed_host(g.hit, status)
    } else {
        failed_dc(doms, path, g.size, q)
    }
}

// The next target, from the given size.
fn failed_link(refs: &[u16], path: &[u16], size: u32, q: Asking, status: u32) -> Next
    requires { q.entry ≤ length path.now }
    ensures { (hit : Bool) → called_of result ≡ failed_link (targets_under (take q.entry path.now) refs.now) (core_of path.now size hit) (question_of q []) status }
{
    let prefix = &path[..q.entry as usize];
    let target = next_place(targets(refs, prefix), q.party);
    if target == q.began {
        return Next::Ends(End::Failed, status);
    }
    Next::Asks(Asking {
        kind: Kind::Link,
        party: target,
        size,
        ..q
    })
}

// What comes after the party, by the kind of the question.
fn failed(refs: &[u16], doms: &[u16], path: &[u16], g: Progress, q: Asking, status: u32) -> Next
    requires { (good_prefix path.now ≡ true) × (q.entry ≤ length path.now) }
    ensures { called_of result ≡ failed (caches_of refs.now doms.now) (core_of path.now g.size g.hit) (question_of q []) status }
{
    match q.kind {
        Kind::Dc | Kind::Sysvol => Next::Ends(End::NoDc, status),
        Kind::Root => failed_root(doms, path, g, q, status),
        Kind::Link => failed_link(refs, path, g.size, q, status),
        Kind::Io => Next::Ends(End::Failed, status),
    }
}

// What a referral request that failed, with severity 2 or 3, calls for.
pub fn referral_fails(
    refs: &[u16],
    doms: &[u16],
    path: &[u16],
    g: Progress,
    q: Asking,
    status: u32,
) -> Next
    requires { (good_prefix path.now ≡ true) × (q.entry ≤ length path.now) }
    ensures { called_of result ≡ referral_fails (caches_of refs.now doms.now) (core_of path.now g.size g.hit) (question_of q []) status }
{
    if asks_again(status, q.size) {
        ask_again(q)
    } else {
        failed(refs, doms, path, g, q, status)
    }
}

// Whether an I/O that fails with this status goes on to the next target.
pub fn is_next(status: u32) -> bool
    ensures { result ≡ is_one_of status next_target_statuses }
{
    NEXT.contains(&status)
}
