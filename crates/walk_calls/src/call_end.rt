// How a call ends: the walk that its rest makes, with its texts and its request, or a refusal.
ghost use Rattle.std.specs.Prelude.{◌≡◌, true, ◌≤◌, length, take};
ghost use Rattle.laws.specs.Lists.{pasted};
ghost use Rattle.walk_steps.specs.question_request.Questions.{with_request};
ghost use Rattle.walk_steps.specs.question_request.Code.{next_units, named};
ghost use Rattle.walk_form.specs.held.Walks.{in_form, boot_in};
ghost use Rattle.walk_calls.specs.call_end.Code.{path_refusal, left, walk_with, closed_rest};

use unc::names::PathError;
use walk_form::held::{ROOM, Walk};
use walk_steps::steps::Rested;

// Why a call is refused.
#[derive(Clone, Copy, Debug, PartialEq, Eq)]
pub enum Refusal {
    BadPath,
    LongPath,
    BadSettings,
    NotInOrder,
    OutOfForm,
    ShortBuffer,
}

#[tactic(auto, unfolding(crate::specs::call_end::Code::path_refusal))]
impl From<PathError> for Refusal {
    ghost from_gives = { λ error refusal. refusal ≡ path_refusal error };

    fn from(error: PathError) -> Refusal {
        match error {
            PathError::Bad => Refusal::BadPath,
            PathError::Long => Refusal::LongPath,
        }
    }
}

// The units of the rooms of the path and of the path tried.
pub const ROOMS: usize = 512;

#[tactic(auto, unfolding(crate::specs::call_end::Code::walk_with))]
fn walk_with(limit: u32, size: u32, boot: usize, r: Rested) -> Walk
    requires { (limit ≤ 64) × ((r.left ≤ limit) × (boot ≤ 255)) }
    ensures { result ≡ walk_with limit size boot r }
{
    let next = r.next;
    Walk {
        limit,
        size,
        boot: boot as u16,
        moves: limit as u16 - r.left,
        path: r.path,
        tried: r.tried,
        hit: r.hit,
        next,
    }
}

// The walk of a rest. Its rooms go into the texts, its request into the buffer.
fn put_rest(
    limit: u32,
    size: u32,
    boot: usize,
    r: Rested,
    rooms: &[u16],
    texts: &mut [u16],
    out: &mut [u8],
) -> Walk
    requires { (limit ≤ 64) × ((r.left ≤ limit) × ((boot ≤ 255) × ((length rooms.now ≡ 512) × ((r.path ≤ 256) × (length texts.old ≡ 768))))) }
    ensures walk { result ≡ walk_with limit size boot r }
    ensures texts { texts.new ≡ pasted texts.old 0 rooms.now }
    ensures request { out.new ≡ with_request (named (next_units r.next (take r.path rooms.now)) (take r.path rooms.now)) out.old }
{
    let n = r.path as usize;
    let next = r.next;
    walk_steps::question_request::put_request(next, &rooms[..n], out);
    memory::copy_units(texts, 0, rooms);
    walk_with(limit, size, boot, r)
}

// The end of a start that rests so: 10 if the request does not fit.
pub fn close_start(
    limit: u32,
    size: u32,
    boot: &[u16],
    r: Rested,
    rooms: &[u16],
    texts: &mut [u16],
    out: &mut [u8],
) -> Result<Walk, Refusal>
    requires { (limit ≤ 64) × ((r.left ≤ limit) × ((length boot.now ≤ 255) × ((length rooms.now ≡ 512) × ((r.path ≤ 256) × (length texts.old ≡ 768))))) }
    ensures { (walk : Walk) → left result walk texts.new out.new ≡ closed_rest limit size boot.now r rooms.now walk texts.old out.old }
{
    if !walk_store::after_reply::rest_fits(r, rooms, out.len()) {
        return Err(Refusal::ShortBuffer);
    }
    let new = put_rest(limit, size, boot.len(), r, rooms, texts, out);
    memory::put_text(texts, ROOMS, ROOM, boot);
    Ok(new)
}

// The end of an answer to a walk in form: its settings stay, and the bootstrap DC is left in its room.
pub fn close_answer(
    r: Rested,
    rooms: &[u16],
    walk: Walk,
    texts: &mut [u16],
    out: &mut [u8],
) -> Result<Walk, Refusal>
    requires { (in_form walk texts.old ≡ true) × ((r.left ≤ walk.limit) × ((length rooms.now ≡ 512) × (r.path ≤ 256))) }
    ensures { left result walk texts.new out.new ≡ closed_rest walk.limit walk.size (boot_in walk texts.old) r rooms.now walk texts.old out.old }
{
    if !walk_store::after_reply::rest_fits(r, rooms, out.len()) {
        return Err(Refusal::ShortBuffer);
    }
    let after = put_rest(
        walk.limit,
        walk.size,
        walk.boot as usize,
        r,
        rooms,
        texts,
        out,
    );
    Ok(after)
}
