// The lines of the input of `walk` in their order: which may follow which, and where the input may end.
ghost use Rattle.std.specs.Prelude.{◌≡◌};
ghost use Rattle.script_lines.specs.lines.Script.{takes_answer, is_status, is_reply, input_read, takes_after, is_whole, takes, kept_of};
ghost use Rattle.script_lines.specs.lines.Script.{whole_read, takes_on, input_taken, line_due, end_due, due_before, read_due, due_after, walk_goes_on};

use script_lines::line_bytes::{Held, Rest};
use script_lines::lines::{Due, Input, Last, NOW, REPLY, Script};

// The first line of an answer.
#[tactic(auto, unfolding(script_lines::specs::lines::Script::takes_answer, laws::specs::Choice::choose))]
fn take_answer(s: Script, line: &[u16]) -> Script
    ensures { result ≡ takes_answer s line.now }
{
    if listing_read::line::has_key(&NOW, line) {
        script_lines::lines::take_clock(s, line, Last::Clock)
    } else {
        script_lines::lines::take_status(s, line)
    }
}

#[tactic(auto, unfolding(script_lines::specs::lines::Script::is_status))]
fn is_status(last: Last) -> bool
    ensures { result ≡ is_status last }
{
    matches!(last, Last::Status)
}

// Whether a line is the reply of the status that was read last.
#[tactic(auto, unfolding(script_lines::specs::lines::Script::is_reply))]
fn is_reply(s: Script, line: &[u16]) -> bool
    ensures { result ≡ is_reply s line.now }
{
    is_status(s.last) && listing_read::line::has_key(&REPLY, line)
}

#[tactic(auto, unfolding(script_lines::specs::lines::Script::is_whole))]
fn is_whole(rest: Rest) -> bool
    ensures { result ≡ is_whole rest }
{
    matches!(rest, Rest::None)
}

// A line that is kept whole.
#[tactic(auto, unfolding(script_lines::specs::lines::Script::takes_after))]
fn take_whole(s: Script, line: &[u16], path: &mut [u16], boot: &mut [u16]) -> Script
    ensures { whole_read result path.new boot.new ≡ takes_after s.last s line.now path.old boot.old }
{
    match s.last {
        Last::Nothing => script_lines::lines::take_path(s, line, path),
        Last::Path => script_lines::lines::take_limit(s, line),
        Last::Limit => script_lines::lines::take_size(s, line),
        Last::Size => script_lines::lines::take_clock(s, line, Last::Now),
        Last::Now => script_lines::lines::take_boot(s, line, boot),
        Last::Clock => script_lines::lines::take_status(s, line),
        Last::Boot | Last::Status | Last::Reply => take_answer(s, line),
        Last::Other | Last::Stopped => s,
    }
}

// The line that is held, read by what was read last.
#[tactic(auto, using(script_lines::proofs::line_bytes::HexLaws::take_least, script_lines::proofs::lines::LineLaws::reply_key_lem), unfolding(script_lines::specs::lines::Script::takes, script_lines::specs::lines::Script::kept_of, laws::specs::Choice::choose))]
fn take_line(
    s: Script,
    line: &[u16],
    held: Held,
    path: &mut [u16],
    boot: &mut [u16],
    reply: &mut [u8],
) -> Script
    ensures { input_read result path.new boot.new reply.new ≡ takes s (kept_of line.now held) held.rest path.old boot.old reply.old }
{
    let line = &line[..held.kept.min(line.len())];
    if is_reply(s, line) {
        script_lines::lines::take_reply(s, line, held.rest, reply)
    } else if is_whole(held.rest) {
        take_whole(s, line, path, boot)
    } else {
        script_lines::lines::with_last(s, Last::Other)
    }
}

#[tactic(auto, unfolding(script_lines::specs::lines::Script::walk_goes_on))]
pub fn goes_on(s: Script) -> bool
    ensures { result ≡ walk_goes_on s.last }
{
    !matches!(s.last, Last::Stopped)
}

// The line that is held, unless the program has stopped.
#[tactic(auto, unfolding(script_lines::specs::lines::Script::takes_on, laws::specs::Choice::choose))]
fn take_on(
    s: Script,
    line: &[u16],
    held: Held,
    path: &mut [u16],
    boot: &mut [u16],
    reply: &mut [u8],
) -> Script
    ensures { input_read result path.new boot.new reply.new ≡ takes_on s (kept_of line.now held) held.rest path.old boot.old reply.old }
{
    if goes_on(s) {
        take_line(s, line, held, path, boot, reply)
    } else {
        s
    }
}

// Reads what has come of the input.
#[tactic(auto, unfolding(script_lines::specs::lines::Script::input_taken))]
pub fn take(
    input: Input,
    s: Script,
    line: &[u16],
    held: Held,
    path: &mut [u16],
    boot: &mut [u16],
    reply: &mut [u8],
) -> Script
    ensures { input_read result path.new boot.new reply.new ≡ input_taken input s (kept_of line.now held) held.rest path.old boot.old reply.old }
{
    match input {
        Input::Part => s,
        Input::Line => take_on(s, line, held, path, boot, reply),
        Input::End => script_lines::lines::with_last(s, Last::Stopped),
    }
}

// The status that was read last is an answer to an I/O try where the line that is held is no reply.
#[tactic(auto, using(script_lines::proofs::line_bytes::HexLaws::take_least), unfolding(script_lines::specs::lines::Script::line_due, script_lines::specs::lines::Script::kept_of, laws::specs::Choice::choose))]
fn line_due(s: Script, line: &[u16], held: Held) -> Due
    ensures { result ≡ line_due s (kept_of line.now held) }
{
    let line = &line[..held.kept.min(line.len())];
    if is_status(s.last) && !listing_read::line::has_key(&REPLY, line) {
        Due::Io
    } else {
        Due::None
    }
}

#[tactic(auto, unfolding(script_lines::specs::lines::Script::end_due))]
fn end_due(last: Last) -> Due
    ensures { result ≡ end_due last }
{
    match last {
        Last::Boot | Last::Reply | Last::Stopped => Due::None,
        Last::Status => Due::Io,
        _ => Due::Refusal,
    }
}

// The call that is due before what has come is read.
#[tactic(auto, unfolding(script_lines::specs::lines::Script::due_before))]
pub fn due_before(input: Input, s: Script, line: &[u16], held: Held) -> Due
    ensures { result ≡ due_before input s (kept_of line.now held) }
{
    match input {
        Input::Part => Due::None,
        Input::Line => line_due(s, line, held),
        Input::End => end_due(s.last),
    }
}

#[tactic(auto, unfolding(script_lines::specs::lines::Script::read_due))]
fn read_due(last: Last) -> Due
    ensures { result ≡ read_due last }
{
    match last {
        Last::Boot => Due::Start,
        Last::Reply => Due::Referral,
        Last::Other => Due::Refusal,
        _ => Due::None,
    }
}

// The call that is due when what has come was read.
#[tactic(auto, unfolding(script_lines::specs::lines::Script::due_after))]
pub fn due_after(input: Input, s: Script) -> Due
    ensures { result ≡ due_after input s }
{
    match input {
        Input::Line => read_due(s.last),
        Input::Part | Input::End => Due::None,
    }
}
