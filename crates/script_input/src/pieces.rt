// A line of the input of `walk`, as pieces of the input come.
ghost use Rattle.std.specs.Prelude.{◌≡◌};
ghost use Rattle.script_input.specs.pieces.Pieces.{no_line, nothing_came, going_on, last_came, arrived, arrives};

use script_lines::line_bytes::{Held, Rest};
use script_lines::lines::Input;

// What has come of a line: what is held of it, where the piece goes on, what it is, and whether no more comes.
#[derive(Clone, Copy)]
pub struct Came {
    pub held: Held,
    pub at: usize,
    pub input: Input,
    pub ended: bool,
}

#[tactic(auto, unfolding(crate::specs::pieces::Pieces::no_line))]
fn no_line() -> Held
    ensures { result ≡ no_line }
{
    Held {
        kept: 0,
        rest: Rest::None,
    }
}

// Before the first byte.
#[tactic(auto, unfolding(crate::specs::pieces::Pieces::nothing_came))]
pub fn nothing() -> Came
    ensures { result ≡ nothing_came }
{
    Came {
        held: no_line(),
        at: 0,
        input: Input::Line,
        ended: false,
    }
}

#[tactic(auto, unfolding(crate::specs::pieces::Pieces::going_on))]
fn going_on(input: Input, held: Held) -> Held
    ensures { result ≡ going_on input held }
{
    match input {
        Input::Part => held,
        Input::Line | Input::End => no_line(),
    }
}

#[tactic(auto, unfolding(crate::specs::pieces::Pieces::last_came, laws::specs::Choice::choose))]
fn last_came(held: Held, at: usize) -> Came
    ensures { result ≡ last_came held at }
{
    let input = if held.kept == 0 {
        Input::End
    } else {
        Input::Line
    };
    Came {
        held,
        at,
        input,
        ended: true,
    }
}

// Goes on with the line by the bytes of a piece from `last.at` on.
#[tactic(auto, using(crate::proofs::pieces::PieceLaws::line_within), unfolding(crate::specs::pieces::Pieces::arrives, crate::specs::pieces::Pieces::line_in, crate::specs::pieces::Pieces::up_to, crate::specs::pieces::Pieces::last_came, laws::specs::Choice::choose))]
pub fn come(units: &[u16], line: &mut [u16], last: Came) -> Came
    ensures { arrived result line.new ≡ arrives units.now line.old (going_on last.input last.held) last.at }
{
    let held = going_on(last.input, last.held);
    let at = last.at;
    if units.len() <= at {
        return last_came(held, at);
    }
    let end = listing_read::line::line_end(units, at);
    let held = script_lines::line_bytes::hold(&units[at..end], line, held);
    if end == units.len() {
        Came {
            held,
            at: end,
            input: Input::Part,
            ended: false,
        }
    } else {
        Came {
            held,
            at: end + 1,
            input: Input::Line,
            ended: false,
        }
    }
}
