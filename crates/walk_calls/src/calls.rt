// The calls of a host: a start, and the answers to its questions.
ghost use Rattle.std.specs.Prelude.{◌≡◌, Err};
ghost use Rattle.walk_calls.specs.call_end.Code.{left};
ghost use Rattle.walk_calls.specs.calls.Code.{answered};
ghost use Rattle.walk_calls.specs.calls.Calls.{refusal_number, start_call, io_call, referral_call};

use crate::call_end::Refusal;
use crate::resting::{caches_in_order, question};
use walk_form::held::Walk;

// The number of a refusal.
#[tactic(auto, unfolding(crate::specs::calls::Calls::refusal_number))]
impl From<Refusal> for u32 {
    ghost from_gives = { λ refusal n. n ≡ refusal_number (Err refusal) };

    fn from(refusal: Refusal) -> u32 {
        match refusal {
            Refusal::BadPath => 1,
            Refusal::LongPath => 2,
            Refusal::BadSettings => 3,
            Refusal::NotInOrder => 4,
            Refusal::OutOfForm => 5,
            Refusal::ShortBuffer => 10,
        }
    }
}

// A new walk. The texts may hold anything, and a refusal leaves them.
pub fn start(
    refs: &[u16],
    doms: &[u16],
    texts: &mut [u16],
    path: &[u16],
    boot: &[u16],
    limit: u32,
    size: u32,
    clock: u32,
    out: &mut [u8],
) -> Result<Walk, Refusal>
    ensures { (walk : Walk) → left result walk texts.new out.new ≡ start_call refs.now doms.now texts.old walk path.now boot.now limit size clock out.old }
{
    if !caches_in_order(refs, doms) {
        return Err(Refusal::NotInOrder);
    }
    let mut rooms = [0; 512];
    let form = crate::start_steps::put_path(path, &mut rooms)?;
    crate::start_steps::start_at(
        refs,
        doms,
        &mut rooms,
        form.units,
        form.components,
        texts,
        boot,
        limit,
        size,
        clock,
        out,
    )
}

// The answer to an I/O try.
pub fn answer_io(
    refs: &mut [u16],
    doms: &[u16],
    walk: Walk,
    texts: &mut [u16],
    status: u32,
    clock: u32,
    out: &mut [u8],
) -> Result<Walk, Refusal>
    ensures { answered result walk texts.new out.new refs.new doms.now ≡ io_call refs.old doms.now texts.old walk status clock out.old }
{
    if !caches_in_order(refs, doms) {
        return Err(Refusal::NotInOrder);
    }
    let q = question(walk, texts).ok_or(Refusal::OutOfForm)?;
    if !walk_form::held::has_tried(q.kind) {
        return Err(Refusal::OutOfForm);
    }
    crate::answer_steps::io_turn(refs, doms, walk, texts, q, status, clock, out)
}

// The answer to a referral request.
pub fn answer_referral(
    refs: &mut [u16],
    doms: &mut [u16],
    walk: Walk,
    texts: &mut [u16],
    status: u32,
    reply: &[u8],
    clock: u32,
    out: &mut [u8],
) -> Result<Walk, Refusal>
    ensures { answered result walk texts.new out.new refs.new doms.new ≡ referral_call refs.old doms.old texts.old walk status reply.now clock out.old }
{
    if !caches_in_order(refs, doms) {
        return Err(Refusal::NotInOrder);
    }
    let q = question(walk, texts).ok_or(Refusal::OutOfForm)?;
    if walk_form::held::has_tried(q.kind) {
        return Err(Refusal::OutOfForm);
    }
    crate::answer_steps::referral_turn(refs, doms, walk, texts, q, status, reply, clock, out)
}
