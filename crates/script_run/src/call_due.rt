// The calls of the program `walk`: the call that is due, made, and what is printed after it. Document 01, "Examples to hold it to".
ghost use Rattle.std.specs.Prelude.{[], ◌≤◌, length};
ghost use Rattle.walk_calls.specs.calls.Code.{answered};
ghost use Rattle.script_run.specs.call_due.Calling.{lent_memory, call_told, start_made, io_made, referral_made, made, CallMade};
ghost use Rattle.script_run.specs.call_due.Code.{Refused};

use script_lines::lines::{Due, Last, Script};
use script_output::outcome::PRINTED;
use walk_calls::call_end::Refusal;
use walk_form::held::Walk;

// The most bytes that a request has.
const REQUEST: usize = 516;

// What a call leaves besides the lent memory: what was read, the walk, and how many bytes are printed.
#[derive(Clone, Copy)]
pub struct Done {
    pub script: Script,
    pub walk: Walk,
    pub bytes: usize,
}

// What a call gave back, printed; where it is refused the walk stays.
fn tell(
    s: Script,
    walk: Walk,
    answer: Result<Walk, Refusal>,
    refs: &[u16],
    doms: &[u16],
    texts: &[u16],
    out: &mut [u16],
) -> Done
    requires { PRINTED ≤ length out.old }
    ensures { CallMade (call_told s (answered answer walk texts.now [] refs.now doms.now)) result refs.now doms.now texts.now out.old out.new }
{
    match answer {
        Ok(walk) => {
            let bytes = script_output::outcome::put_outcome(0, refs, doms, walk, texts, out);
            Done {
                script: s,
                walk,
                bytes,
            }
        }
        Err(refusal) => {
            let number = refusal.into();
            let bytes = script_output::outcome::put_outcome(number, refs, doms, walk, texts, out);
            Done {
                script: script_lines::lines::with_last(s, Last::Stopped),
                walk,
                bytes,
            }
        }
    }
}

// The input is not of the form.
fn refuse(s: Script, walk: Walk, out: &mut [u16]) -> Done
    requires { PRINTED ≤ length out.old }
    ensures { Refused s walk result out.old out.new }
{
    let script = script_lines::lines::with_last(s, Last::Stopped);
    let bytes = script_output::outcome_lines::put_refused(out, 0, 0);
    Done {
        script,
        walk,
        bytes,
    }
}

fn start(
    s: Script,
    walk: Walk,
    refs: &[u16],
    doms: &[u16],
    texts: &mut [u16],
    path: &[u16],
    boot: &[u16],
    out: &mut [u16],
) -> Done
    requires { PRINTED ≤ length out.old }
    ensures { CallMade (start_made s (lent_memory walk refs.now doms.now texts.old path.now boot.now [])) result refs.now doms.now texts.new out.old out.new }
{
    let n = s.path.min(path.len());
    let b = s.boot.min(boot.len());
    let mut request = [0; REQUEST];
    let o = walk_calls::calls::start(
        refs,
        doms,
        texts,
        &path[..n],
        &boot[..b],
        s.limit,
        s.size,
        s.clock,
        &mut request,
    );
    tell(s, walk, o, refs, doms, texts, out)
}

fn answer_io(
    s: Script,
    walk: Walk,
    refs: &mut [u16],
    doms: &[u16],
    texts: &mut [u16],
    out: &mut [u16],
) -> Done
    requires { PRINTED ≤ length out.old }
    ensures { CallMade (io_made s (lent_memory walk refs.old doms.now texts.old [] [] [])) result refs.new doms.now texts.new out.old out.new }
{
    let mut request = [0; REQUEST];
    let o = walk_calls::calls::answer_io(refs, doms, walk, texts, s.status, s.clock, &mut request);
    tell(s, walk, o, refs, doms, texts, out)
}

fn answer_referral(
    s: Script,
    walk: Walk,
    refs: &mut [u16],
    doms: &mut [u16],
    texts: &mut [u16],
    reply: &[u8],
    out: &mut [u16],
) -> Done
    requires { PRINTED ≤ length out.old }
    ensures { CallMade (referral_made s (lent_memory walk refs.old doms.old texts.old [] [] reply.now)) result refs.new doms.new texts.new out.old out.new }
{
    let n = s.reply.min(reply.len());
    let mut request = [0; REQUEST];
    let o = walk_calls::calls::answer_referral(
        refs,
        doms,
        walk,
        texts,
        s.status,
        &reply[..n],
        s.clock,
        &mut request,
    );
    tell(s, walk, o, refs, doms, texts, out)
}

// Makes the call that is due.
#[tactic(auto, using(crate::proofs::call_due::CallingLaws::due_none, crate::proofs::call_due::CallingLaws::due_refusal), unfolding(crate::specs::call_due::Calling::made, crate::specs::call_due::Calling::start_made, crate::specs::call_due::Calling::io_made, crate::specs::call_due::Calling::referral_made))]
pub fn make(
    due: Due,
    s: Script,
    walk: Walk,
    refs: &mut [u16],
    doms: &mut [u16],
    texts: &mut [u16],
    path: &[u16],
    boot: &[u16],
    reply: &[u8],
    out: &mut [u16],
) -> Done
    requires { PRINTED ≤ length out.old }
    ensures { CallMade (made due s (lent_memory walk refs.old doms.old texts.old path.now boot.now reply.now)) result refs.new doms.new texts.new out.old out.new }
{
    match due {
        Due::None => Done {
            script: s,
            walk,
            bytes: 0,
        },
        Due::Start => start(s, walk, refs, doms, texts, path, boot, out),
        Due::Io => answer_io(s, walk, refs, doms, texts, out),
        Due::Referral => answer_referral(s, walk, refs, doms, texts, reply, out),
        Due::Refusal => refuse(s, walk, out),
    }
}
