// What is printed after a call: a refusal, the question that waits, or the end. Document 01, "Examples to hold it to".
ghost use Rattle.std.specs.Prelude.{◌+◌, ◌≤◌, length};
ghost use Rattle.std.specs.Result.{result_unwrap_or};
ghost use Rattle.listing_spelling.specs.spell.Spelling.{Put};
ghost use Rattle.script_output.specs.outcome.Telling.{waiting_lines, ended_lines, outcome_lines};

use walk_form::held::Walk;
use walk_shown::question::ShowError;

// The most units that a question prints.
const QUESTION: usize = 2597;

// The most units that an end prints.
const END: usize = 2334;

// The most units that a call prints.
pub const PRINTED: usize = QUESTION + END;

// The question that waits; nothing is written where none does.
fn put_waiting(
    refs: &[u16],
    doms: &[u16],
    walk: Walk,
    texts: &[u16],
    out: &mut [u16],
    at: usize,
) -> Result<usize, ShowError>
    requires { at + QUESTION ≤ length out.old }
    ensures { Put out.old at (waiting_lines refs.now doms.now walk texts.now) out.new (result_unwrap_or result at) }
{
    let mut party = [0u16; 256];
    let p = walk_shown::question::question_party(refs, doms, walk, texts, &mut party)? as usize;
    let mut name = [0u16; 256];
    let n = walk_shown::question::question_name(walk, texts, &mut name)? as usize;
    let mut numbers = [0u32; 3];
    walk_shown::numbers::question_numbers(walk, texts, &mut numbers)?;
    Ok(crate::outcome_lines::put_question(out, at, numbers[0], &party[..p], &name[..n], numbers[1]))
}

// The end; nothing is written where the walk has not ended.
fn put_ended(walk: Walk, texts: &[u16], out: &mut [u16], at: usize) -> Result<usize, ShowError>
    requires { at + END ≤ length out.old }
    ensures { Put out.old at (ended_lines walk texts.now) out.new (result_unwrap_or result at) }
{
    let mut path = [0u16; 256];
    let p = walk_shown::numbers::end_path(walk, texts, &mut path)? as usize;
    let mut numbers = [0u32; 3];
    walk_shown::numbers::end_numbers(walk, texts, &mut numbers)?;
    Ok(crate::outcome_lines::put_end(out, at, numbers[0], numbers[1], &path[..p], numbers[2]))
}

// The lines of an outcome, by the number of its refusal (0: taken).
pub fn put_outcome(
    number: u32,
    refs: &[u16],
    doms: &[u16],
    walk: Walk,
    texts: &[u16],
    out: &mut [u16],
) -> usize
    requires { PRINTED ≤ length out.old }
    ensures { Put out.old 0 (outcome_lines number refs.now doms.now walk texts.now) out.new result }
{
    if number != 0 {
        return crate::outcome_lines::put_refused(out, 0, number);
    }
    let n = put_waiting(refs, doms, walk, texts, out, 0).unwrap_or(0);
    put_ended(walk, texts, out, n).unwrap_or(n)
}
