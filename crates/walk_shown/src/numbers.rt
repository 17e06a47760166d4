// The numbers of a question, and the numbers and the path of an end.
ghost use Rattle.std.specs.Prelude.{◌≡◌, [], ◌∷◌, ◌≤◌, length};
ghost use Rattle.walk_shown.specs.question.Shown.{given, shows, end_path};
ghost use Rattle.walk_shown.specs.question.Shown.{path_call, question_call, end_call};

use crate::question::ShowError;
use walk_calls::resting::question;
use walk_form::held::{ROOM, Walk};
use walk_steps::steps::End;

// The path that an end shows: of end 20 the one tried.
fn put_end(end: End, path: &[u16], tried: &[u16], out: &mut [u16]) -> Result<u16, ShowError>
    requires { (length path.now ≤ 256) × (length tried.now ≤ 256) }
    ensures { given result out.new ≡ shows (end_path end path.now tried.now) out.old }
{
    match end {
        End::Done => crate::question::put(tried, out),
        _ => crate::question::put(path, out),
    }
}

// The path of an end.
pub fn end_path(walk: Walk, texts: &[u16], out: &mut [u16]) -> Result<u16, ShowError>
    ensures { given result out.new ≡ path_call walk texts.now out.old }
{
    let (end, _) = walk_calls::resting::end(walk, texts).ok_or(ShowError::OutOfForm)?;
    let n = walk.path as usize;
    let tried = walk.tried as usize;
    put_end(end, &texts[..n], &texts[ROOM..ROOM + tried], out)
}

fn put_numbers(a: u32, b: u32, c: u32, out: &mut [u32]) -> Result<u16, ShowError>
    ensures { given result out.new ≡ shows (a ∷ b ∷ c ∷ []) out.old }
{
    if out.len() < 3 {
        return Err(ShowError::ShortBuffer);
    }
    out[..3].copy_from_slice(&[a, b, c]);
    Ok(3)
}

// Of the question that waits: its kind's number, the size asked, and the moves made.
pub fn question_numbers(walk: Walk, texts: &[u16], out: &mut [u32]) -> Result<u16, ShowError>
    ensures { given result out.new ≡ question_call walk texts.now out.old }
{
    let q = question(walk, texts).ok_or(ShowError::OutOfForm)?;
    put_numbers(
        walk_form::packed::kind_number(q.kind) as u32,
        q.size,
        walk.moves as u32,
        out,
    )
}

// Of the end: its number, its status, and the moves made.
pub fn end_numbers(walk: Walk, texts: &[u16], out: &mut [u32]) -> Result<u16, ShowError>
    ensures { given result out.new ≡ end_call walk texts.now out.old }
{
    let (end, status) = walk_calls::resting::end(walk, texts).ok_or(ShowError::OutOfForm)?;
    put_numbers(
        walk_form::packed::end_number(end) as u32,
        status,
        walk.moves as u32,
        out,
    )
}
