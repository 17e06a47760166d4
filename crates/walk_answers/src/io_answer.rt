// The answer to an I/O try: done, a link request, the next target, or an end.
ghost use Rattle.std.specs.Prelude.{◌≡◌, true, List, ℕ, ◌<◌, length};
ghost use Rattle.cache.specs.places.Layout.{place_count};
ghost use Rattle.cache.specs.order.Order.{good_referral};
ghost use Rattle.cache.specs.order.Memory.{referrals};
ghost use Rattle.cache_lookup.specs.Code.{entry_at};
ghost use Rattle.walk_steps.specs.steps.Steps.{Caches, Core, goes, io_answered, io_fails};
ghost use Rattle.walk_steps.specs.steps.Held.{caches_of, core_of, question_of};
ghost use Rattle.walk_steps.specs.steps.Code.{core_at, called_of};
ghost use Rattle.walk_steps.specs.cycle.Code.{rested_with, packed};
ghost use Rattle.walk_store.specs.after_reply.Code.{left_by, leaves};
ghost use Rattle.walk_answers.specs.io_answer.Code.{tried_room, Trying, Failing, place_in_use, not_covered, next_target, failure_calls};
ghost use Rattle.walk_answers.specs.declared.io_answer.Failure.TheVariants.{Tries};

use crate::referral_answer::SEVERITY;
use cache::places::ROOM;
use walk_steps::steps::{Asking, End, Kind, Next, Progress, Rested};
use walk_store::reply_taken::PATH_NOT_COVERED;

const ERROR: u32 = 3;

// What a failed try calls for: an end or a question, or the try at another target of its entry.
#[derive(Clone, Copy)]
pub enum Failure {
    Calls(Next),
    Tries(u16),
}

// The place of the entry of this prefix, if it has both targets.
#[tactic(auto, unfolding(crate::specs::io_answer::Code::place_in_use, crate::specs::io_answer::Code::with_parties, walk_steps::specs::rounds::Code::in_round, laws::specs::Choice::choose))]
fn place(refs: &[u16], prefix: &[u16], party: u16, began: u16) -> Option<usize>
    ensures { result ≡ place_in_use prefix.now refs.now party began }
{
    let i = cache_lookup::find_prefix(refs, prefix)?;
    let n = cache_lookup::target_count(refs, i);
    if (party as usize) < n && (began as usize) < n {
        Some(i)
    } else {
        None
    }
}

// PATH_NOT_COVERED: a root's target is asked for the link, the one just tried first.
#[tactic(auto, unfolding(crate::specs::io_answer::Code::not_covered, walk_steps::specs::steps::Steps::link_request, walk_steps::specs::steps::Held::core_of, walk_steps::specs::steps::Code::called_of, walk_steps::specs::steps::Held::question_of, laws::specs::Choice::choose))]
fn not_covered(refs: &[u16], g: Progress, q: Asking, status: u32, i: usize) -> Next
    requires { i < place_count refs.now }
    ensures { (path tried : List ℕ) → called_of result ≡ not_covered (core_of path g.size g.hit) (question_of q tried) status (entry_at referrals i refs.now) }
{
    if cache_lookup::is_root(refs, i) {
        Next::Asks(Asking {
            kind: Kind::Link,
            began: q.party,
            size: g.size,
            uncovered: true,
            ..q
        })
    } else {
        Next::Ends(End::Failed, status)
    }
}

// The try at the next target, or the round is exhausted.
fn next_target(refs: &[u16], q: Asking, status: u32, i: usize) -> Failure
    requires { (i < place_count refs.now) × (good_referral (entry_at referrals i refs.now) ≡ true) }
    ensures called { (w : Core) (tried : List ℕ) → failure_calls w (entry_at referrals i refs.now) q.began result ≡ next_target w (question_of q tried) status (entry_at referrals i refs.now) }
    ensures inside { (place : ℕ) → result ≡ Tries place → place < length (entry_at referrals i refs.now).targets }
{
    let target = walk_steps::rounds::next_place(cache_lookup::target_count(refs, i), q.party);
    if target == q.began {
        Failure::Calls(Next::Ends(End::Failed, status))
    } else {
        Failure::Tries(target)
    }
}

// By the status.
fn after_failure(refs: &[u16], g: Progress, q: Asking, status: u32, i: usize) -> Failure
    requires { (i < place_count refs.now) × (good_referral (entry_at referrals i refs.now) ≡ true) }
    ensures called { (path tried : List ℕ) → failure_calls (core_of path g.size g.hit) (entry_at referrals i refs.now) q.began result ≡ io_fails (core_of path g.size g.hit) (question_of q tried) status (entry_at referrals i refs.now) }
    ensures inside { (place : ℕ) → result ≡ Tries place → place < length (entry_at referrals i refs.now).targets }
{
    if status == PATH_NOT_COVERED {
        Failure::Calls(not_covered(refs, g, q, status, i))
    } else if walk_steps::rounds::is_next(status) {
        next_target(refs, q, status, i)
    } else {
        Failure::Calls(Next::Ends(End::Failed, status))
    }
}

// A try that failed at the entry at place i. The caches play no part.
fn io_fails(
    refs: &[u16],
    rooms: &mut [u16],
    g: Progress,
    q: Asking,
    status: u32,
    i: usize,
) -> Rested
    requires { Failing refs.now rooms.old g.len i }
    ensures { (c : Caches) (tried : List ℕ) → rested_with result rooms.new ≡ packed (goes g.left c g.clock (core_at g rooms.old) (io_fails (core_at g rooms.old) (question_of q tried) status (entry_at referrals i refs.now))) }
{
    match after_failure(refs, g, q, status, i) {
        Failure::Calls(next) => walk_steps::steps::rest(next, g),
        Failure::Tries(target) => {
            walk_steps::cycle::try_target(refs, rooms, g, i, target, q.began)
        }
    }
}

// The answer to the I/O try q. `rooms` are those of the path and of the path tried.
pub fn io_answer(
    refs: &mut [u16],
    doms: &[u16],
    rooms: &mut [u16],
    g: Progress,
    q: Asking,
    tried: usize,
    status: u32,
) -> Rested
    requires { Trying refs.old doms.now rooms.old g q tried }
    ensures { left_by result rooms.new refs.new doms.now ≡ leaves g refs.old doms.now (io_answered (caches_of refs.old doms.now) (core_at g rooms.old) (question_of q (tried_room tried rooms.old)) status) }
{
    let Some(i) = place(refs, &rooms[..q.entry as usize], q.party, q.began) else {
        memory::clear_units(rooms, ROOM, ROOM);
        return walk_steps::steps::rest(Next::Ends(End::Gone, 0), g);
    };
    if status / SEVERITY != ERROR {
        cache_lookup::set_target_hint(refs, i, q.party);
        return Rested {
            next: Next::Ends(End::Done, status),
            path: g.len as u16,
            tried: tried as u16,
            left: g.left,
            hit: g.hit,
        };
    }
    memory::clear_units(rooms, ROOM, ROOM);
    io_fails(refs, rooms, g, q, status, i)
}
