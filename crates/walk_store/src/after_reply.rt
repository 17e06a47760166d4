// After a reply was taken: on with the steps, and both caches put back where the request that then waits does not fit the buffer.
ghost use Rattle.std.specs.Prelude.{◌≡◌, ◌≤◌, length, take};
ghost use Rattle.walk_steps.specs.steps.Steps.{turned};
ghost use Rattle.walk_steps.specs.steps.Code.{core_at};
ghost use Rattle.walk_steps.specs.question_request.Questions.{name_fits};
ghost use Rattle.walk_steps.specs.question_request.Code.{next_units, named};
ghost use Rattle.walk_steps.specs.cycle.Code.{rested_with, packed};
ghost use Rattle.walk_store.specs.party_hint.Code.{lent_caches};
ghost use Rattle.walk_store.specs.reply_taken.Code.{taken_turn, put_back, CanPutBack};
ghost use Rattle.walk_store.specs.after_reply.Code.{is_for_sysvol, GoingOn};

use crate::reply_taken::Taken;
use walk_steps::steps::{Asking, Kind, Next, Progress, Rested};

// The bytes of the longest request.
pub const LONGEST: usize = 516;

// Whether the request of a rest fits a buffer of `room` bytes.
pub fn rest_fits(r: Rested, rooms: &[u16], room: usize) -> bool
    requires { (r.path ≤ 256) × (256 ≤ length rooms.now) }
    ensures { result ≡ name_fits room (named (next_units r.next (take r.path rooms.now)) (take r.path rooms.now)) }
{
    walk_steps::question_request::fits(r.next, &rooms[..r.path as usize], room)
}

#[tactic(auto, unfolding(crate::specs::after_reply::Code::is_for_sysvol))]
fn is_for_sysvol(kind: Kind) -> bool
    ensures { result ≡ is_for_sysvol kind }
{
    matches!(kind, Kind::Sysvol)
}

// On from what was taken of the reply to the question q: the end, step 5 after DCs, or the entry just stored.
pub fn rest_after(
    refs: &[u16],
    doms: &[u16],
    rooms: &mut [u16],
    g: Progress,
    q: Asking,
    taken: Taken,
) -> Rested
    requires { GoingOn refs.now rooms.old g taken }
    ensures { rested_with result rooms.new ≡ packed (turned g.left g.clock (taken_turn (core_at g rooms.old) q.kind taken refs.now doms.now)) }
{
    let on = Progress { hit: true, ..g };
    match taken {
        Taken::Ends(end, status) => walk_steps::steps::rest(Next::Ends(end, status), g),
        Taken::Dcs(_) => walk_steps::cycle::from_domain(refs, doms, rooms, on),
        Taken::Entry(i, _) => {
            walk_steps::cycle::from_stored(refs, doms, rooms, on, i, is_for_sysvol(q.kind))
        }
    }
}

// Both caches as they were before the reply was taken.
pub fn put_back(refs: &mut [u16], doms: &mut [u16], taken: Taken, saved: &[u16])
    requires { CanPutBack taken saved.now refs.old doms.old }
    ensures { lent_caches refs.new doms.new ≡ put_back taken saved.now refs.old doms.old }
{
    match taken {
        Taken::Ends(_, _) => {}
        Taken::Dcs(i) => cache::places::put_place(doms, i, saved),
        Taken::Entry(i, hinted) => {
            cache::places::put_place(refs, i, saved);
            crate::party_hint::unset_hint(refs, doms, hinted);
        }
    }
}
