// The answers to the questions of a walk that is held: the steps that they bring, and the end of the call.
ghost use Rattle.std.specs.Prelude.{◌≡◌, true, false, ◌≤◌, length, take};
ghost use Rattle.walk_calls.specs.answer_steps.Code.{AnswerDue, progress_of, io_turn, referral_turn, closed, closing};

use crate::call_end::{ROOMS, Refusal};
use walk_form::held::Walk;
use walk_steps::steps::{Asking, Progress};

// The rooms of the path and of the path tried. The steps of an answer run on a copy, so that a refusal leaves the texts.
fn copy_rooms(texts: &[u16], rooms: &mut [u16])
    requires { (length texts.now ≡ 768) × (length rooms.old ≡ 512) }
    ensures { rooms.new ≡ take 512 texts.now }
{
    memory::copy_units(rooms, 0, &texts[..ROOMS]);
}

// What a walk in form hands on to the steps.
fn progress(walk: Walk, clock: u32, room: usize) -> Progress
    requires { (walk.limit ≤ 64) × (walk.moves ≤ walk.limit) }
    ensures { result ≡ progress_of walk clock room }
{
    Progress {
        len: walk.path as usize,
        left: walk.limit as u16 - walk.moves,
        hit: walk.hit,
        size: walk.size,
        clock,
        room,
    }
}

// The answer to the I/O try q.
pub fn io_turn(
    refs: &mut [u16],
    doms: &[u16],
    walk: Walk,
    texts: &mut [u16],
    q: Asking,
    status: u32,
    clock: u32,
    out: &mut [u8],
) -> Result<Walk, Refusal>
    requires { AnswerDue refs.old doms.now walk texts.old q true }
    ensures { closed result walk texts.new out.new refs.new doms.now ≡ closing clock walk texts.old out.old refs.old doms.now (io_turn refs.old doms.now texts.old walk q status) }
{
    let g = progress(walk, clock, out.len());
    let mut rooms = [0; 512];
    copy_rooms(texts, &mut rooms);
    let r = walk_answers::io_answer::io_answer(
        refs,
        doms,
        &mut rooms,
        g,
        q,
        walk.tried as usize,
        status,
    );
    crate::call_end::close_answer(r, &rooms, walk, texts, out)
}

// The answer to the referral request q. Where the next request does not fit, both caches come back as they were.
pub fn referral_turn(
    refs: &mut [u16],
    doms: &mut [u16],
    walk: Walk,
    texts: &mut [u16],
    q: Asking,
    status: u32,
    reply: &[u8],
    clock: u32,
    out: &mut [u8],
) -> Result<Walk, Refusal>
    requires { AnswerDue refs.old doms.old walk texts.old q false }
    ensures { closed result walk texts.new out.new refs.new doms.new ≡ closing clock walk texts.old out.old refs.old doms.old (referral_turn refs.old doms.old texts.old walk q status reply.now clock) }
{
    let g = progress(walk, clock, out.len());
    let mut rooms = [0; 512];
    copy_rooms(texts, &mut rooms);
    let r = walk_answers::referral_answer::referral_answer(
        refs, doms, &mut rooms, g, q, status, reply,
    );
    crate::call_end::close_answer(r, &rooms, walk, texts, out)
}
