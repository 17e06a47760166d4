// A start whose path has been tested for its form: the first rest of the walk.
ghost use Rattle.std.specs.Prelude.{◌≡◌, take, length};
ghost use Rattle.unc.specs.names.Code.{form_within};
ghost use Rattle.unc.specs.names.Paths.{path_units};
ghost use Rattle.walk_steps.specs.steps.Steps.{started, turned};
ghost use Rattle.walk_steps.specs.steps.Held.{caches_of};
ghost use Rattle.walk_steps.specs.steps.Code.{core_at};
ghost use Rattle.walk_steps.specs.cycle.Code.{rested_with, packed};
ghost use Rattle.walk_calls.specs.call_end.Code.{left};
ghost use Rattle.walk_calls.specs.start_steps.Code.{path_rooms, start_at, start_rooms, Begun};

use crate::call_end::Refusal;
use unc::names::{Form, PathError};
use walk_form::held::{ROOM, TEXTS, Walk};
use walk_steps::steps::{End, Next, Progress, Rested};

// The normalised path into the path's room, and no path tried.
pub fn put_path(path: &[u16], rooms: &mut [u16]) -> Result<Form, PathError>
    requires { length rooms.old ≡ 512 }
    ensures form { result ≡ form_within path_units path.now }
    ensures rooms { rooms.new ≡ path_rooms path.now rooms.old }
{
    memory::clear_units(rooms, ROOM, ROOM);
    unc::path_form::normalise(path, &mut rooms[..ROOM])
}

// Where the steps rest after a start with a path of k components.
#[tactic(auto, using(crate::proofs::start_steps::StartLaws::first_alone))]
fn first_rest(refs: &[u16], doms: &[u16], rooms: &mut [u16], g: Progress, k: usize) -> Rested
    requires { Begun refs.now rooms.old g.len k }
    ensures { rested_with result rooms.new ≡ packed (turned g.left g.clock (started (caches_of refs.now doms.now) (core_at g rooms.old) g.clock)) }
{
    if k == 1 {
        return walk_steps::steps::rest(Next::Ends(End::NotDfs, 0), g);
    }
    walk_steps::cycle::from_lookup(refs, doms, rooms, g)
}

// A start with a path of n units and k components in its room, both caches being in order.
pub fn start_at(
    refs: &[u16],
    doms: &[u16],
    rooms: &mut [u16],
    n: usize,
    k: usize,
    texts: &mut [u16],
    boot: &[u16],
    limit: u32,
    size: u32,
    clock: u32,
    out: &mut [u8],
) -> Result<Walk, Refusal>
    requires { Begun refs.now rooms.old n k }
    ensures walk { (walk : Walk) → left result walk texts.new out.new ≡ start_at refs.now doms.now texts.old walk (take n rooms.old) boot.now limit size clock out.old }
    ensures rooms { rooms.new ≡ start_rooms refs.now doms.now texts.old (take n rooms.old) boot.now limit size clock rooms.old }
{
    if !walk_form::held::good_settings(limit, size, boot) {
        return Err(Refusal::BadSettings);
    }
    if texts.len() != TEXTS {
        return Err(Refusal::OutOfForm);
    }
    let g = Progress {
        len: n,
        left: limit as u16,
        hit: false,
        size,
        clock,
        room: out.len(),
    };
    let r = first_rest(refs, doms, rooms, g, k);
    crate::call_end::close_start(limit, size, boot, r, rooms, texts, out)
}
