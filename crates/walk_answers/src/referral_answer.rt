// The answer to a referral request: 27 first, then the status, then the reply.
ghost use Rattle.std.specs.Prelude.{◌≡◌, [], ◌≤◌, ◌<◌};
ghost use Rattle.walk_steps.specs.steps.Steps.{referral_succeeds, referral_answered};
ghost use Rattle.walk_steps.specs.steps.Held.{caches_of, question_of};
ghost use Rattle.walk_steps.specs.steps.Code.{core_at};
ghost use Rattle.walk_store.specs.after_reply.Code.{left_by, leaves};
ghost use Rattle.walk_answers.specs.referral_answer.Code.{Awaiting, Succeeding};

use walk_steps::steps::{Asking, End, Next, Progress, Rested};
use walk_store::after_reply::LONGEST;

// Severity is the top two bits of a status; 2 and 3 fail a referral.
pub const SEVERITY: u32 = 0x40000000;

const WARNING: u32 = 2;

// A referral that succeeded, with a buffer that holds every request: the reply is taken, and the steps go on. Nothing is saved.
fn reply_kept(
    refs: &mut [u16],
    doms: &mut [u16],
    rooms: &mut [u16],
    g: Progress,
    q: Asking,
    reply: &[u8],
) -> Rested
    requires { Succeeding refs.old doms.old rooms.old g q × (516 ≤ g.room) }
    ensures { left_by result rooms.new refs.new doms.new ≡ leaves g refs.old doms.old (referral_succeeds (caches_of refs.old doms.old) (core_at g rooms.old) (question_of q []) reply.now g.clock) }
{
    let mut none = [0; 1];
    let taken = walk_store::reply_taken::take_reply(
        refs,
        doms,
        &rooms[..g.len],
        g,
        q,
        reply,
        &mut none,
    );
    walk_store::after_reply::rest_after(refs, doms, rooms, g, q, taken)
}

// The same with a shorter buffer: both caches are put back where the request that then waits does not fit. It calls itself where that cannot
// come, so that the compiler leaves it a function of its own: the saved place then stands in no other frame.
fn reply_saved(
    refs: &mut [u16],
    doms: &mut [u16],
    rooms: &mut [u16],
    g: Progress,
    q: Asking,
    reply: &[u8],
) -> Rested
    requires { Succeeding refs.old doms.old rooms.old g q × (g.room < 516) }
    ensures { left_by result rooms.new refs.new doms.new ≡ leaves g refs.old doms.old (referral_succeeds (caches_of refs.old doms.old) (core_at g rooms.old) (question_of q []) reply.now g.clock) }
{
    if LONGEST <= g.room {
        return reply_saved(refs, doms, rooms, g, q, reply);
    }
    let mut saved = [0; 2336];
    let taken = walk_store::reply_taken::take_reply(
        refs,
        doms,
        &rooms[..g.len],
        g,
        q,
        reply,
        &mut saved,
    );
    let r = walk_store::after_reply::rest_after(refs, doms, rooms, g, q, taken);
    if !walk_store::after_reply::rest_fits(r, rooms, g.room) {
        walk_store::after_reply::put_back(refs, doms, taken, &saved);
    }
    r
}

// By the buffer.
fn succeeded(
    refs: &mut [u16],
    doms: &mut [u16],
    rooms: &mut [u16],
    g: Progress,
    q: Asking,
    reply: &[u8],
) -> Rested
    requires { Succeeding refs.old doms.old rooms.old g q }
    ensures { left_by result rooms.new refs.new doms.new ≡ leaves g refs.old doms.old (referral_succeeds (caches_of refs.old doms.old) (core_at g rooms.old) (question_of q []) reply.now g.clock) }
{
    if LONGEST <= g.room {
        reply_kept(refs, doms, rooms, g, q, reply)
    } else {
        reply_saved(refs, doms, rooms, g, q, reply)
    }
}

// The answer to the referral request q. `rooms` are those of the path and of the path tried.
#[tactic(auto, using(crate::proofs::referral_answer::AnswerLaws::gone_left))]
pub fn referral_answer(
    refs: &mut [u16],
    doms: &mut [u16],
    rooms: &mut [u16],
    g: Progress,
    q: Asking,
    status: u32,
    reply: &[u8],
) -> Rested
    requires { Awaiting refs.old doms.old rooms.old g q }
    ensures { left_by result rooms.new refs.new doms.new ≡ leaves g refs.old doms.old (referral_answered (caches_of refs.old doms.old) (core_at g rooms.old) (question_of q []) status reply.now g.clock) }
{
    if !walk_steps::rounds::in_use(refs, doms, &rooms[..g.len], q) {
        return walk_steps::steps::rest(Next::Ends(End::Gone, 0), g);
    }
    if WARNING <= status / SEVERITY {
        let next = walk_steps::rounds::referral_fails(refs, doms, &rooms[..g.len], g, q, status);
        return walk_steps::steps::rest(next, g);
    }
    succeeded(refs, doms, rooms, g, q, reply)
}
