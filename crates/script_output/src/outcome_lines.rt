// A question, an end and a refusal as the lines that the program `walk` prints: document 01, "Examples to hold it to".
ghost use Rattle.std.specs.Prelude.{◌≡◌, ◌+◌, ◌≤◌, length};
ghost use Rattle.listing_spelling.specs.spell.Spelling.{Put};
ghost use Rattle.listing_write.specs.Form.{ended, lines_text};
ghost use Rattle.walk_form.specs.packed.Packing.{kind_at};
ghost use Rattle.script_output.specs.printed.Printed.{ask_line, size_lines, question_lines, end_lines, refused_line};

use listing_write::{PATH, SIZE, units};

const ASK_DC: [u16; 6] = units![b'a' b's' b'k' b'=' b'd' b'c'];

const ASK_ROOT: [u16; 8] = units![b'a' b's' b'k' b'=' b'r' b'o' b'o' b't'];

const ASK_LINK: [u16; 8] = units![b'a' b's' b'k' b'=' b'l' b'i' b'n' b'k'];

const ASK_SYSVOL: [u16; 10] = units![b'a' b's' b'k' b'=' b's' b'y' b's' b'v' b'o' b'l'];

const ASK_IO: [u16; 6] = units![b'a' b's' b'k' b'=' b'i' b'o'];

const TO: [u16; 3] = units![b't' b'o' b'='];

const NAME: [u16; 5] = units![b'n' b'a' b'm' b'e' b'='];

const END: [u16; 4] = units![b'e' b'n' b'd' b'='];

const MOVES: [u16; 6] = units![b'm' b'o' b'v' b'e' b's' b'='];

const REFUSED: [u16; 8] = units![b'r' b'e' b'f' b'u' b's' b'e' b'd' b'='];

// The kind by its number, as hosts are given it: 1 dc, 2 root, 3 link, 4 sysvol, else io.
#[tactic(auto, unfolding(crate::specs::printed::Printed::ask_line, crate::specs::printed::Printed::ask_word, walk_form::specs::packed::Packing::kind_at, laws::specs::Choice::choose))]
fn ask_line(kind: u32) -> &'static [u16]
    ensures { result.now ≡ ask_line (kind_at kind) }
{
    match kind {
        1 => &ASK_DC,
        2 => &ASK_ROOT,
        3 => &ASK_LINK,
        4 => &ASK_SYSVOL,
        _ => &ASK_IO,
    }
}

// The line that says the kind.
fn put_ask(out: &mut [u16], at: usize, kind: u32) -> usize
    requires { at + length (ended (ask_line (kind_at kind))) ≤ length out.old }
    ensures { Put out.old at (ended (ask_line (kind_at kind))) out.new result }
{
    listing_write::put_line(out, at, ask_line(kind))
}

// The size, but for I/O.
#[tactic(auto, using(crate::proofs::printed::PrintedLaws::size_line, crate::proofs::printed::PrintedLaws::no_size, crate::proofs::printed::PrintedLaws::nothing_put))]
fn put_size(out: &mut [u16], at: usize, kind: u32, size: u32) -> usize
    requires { at + length (lines_text (size_lines (kind_at kind) size)) ≤ length out.old }
    ensures { Put out.old at (lines_text (size_lines (kind_at kind) size)) out.new result }
{
    if matches!(kind, 1..=4) {
        listing_write::put_number(out, at, &SIZE, size)
    } else {
        at
    }
}

// A question: the number of its kind, its party, the name asked, and the size.
pub fn put_question(
    out: &mut [u16],
    at: usize,
    kind: u32,
    party: &[u16],
    name: &[u16],
    size: u32,
) -> usize
    requires { at + length (question_lines (kind_at kind) party.now name.now size) ≤ length out.old }
    ensures { Put out.old at (question_lines (kind_at kind) party.now name.now size) out.new result }
{
    let a = put_ask(out, at, kind);
    let b = listing_write::put_path(out, a, &TO, party);
    let c = listing_write::put_path(out, b, &NAME, name);
    put_size(out, c, kind, size)
}

// An end: its number, status, path and moves.
pub fn put_end(
    out: &mut [u16],
    at: usize,
    number: u32,
    status: u32,
    path: &[u16],
    moves: u32,
) -> usize
    requires { at + length (end_lines number status path.now moves) ≤ length out.old }
    ensures { Put out.old at (end_lines number status path.now moves) out.new result }
{
    let a = listing_write::put_number(out, at, &END, number);
    let b = crate::printed::put_status(out, a, status);
    let c = listing_write::put_path(out, b, &PATH, path);
    listing_write::put_number(out, c, &MOVES, moves)
}

// A refusal by its number; 0 where the input is not of the form.
#[tactic(auto, unfolding(crate::specs::printed::Printed::refused_line))]
pub fn put_refused(out: &mut [u16], at: usize, number: u32) -> usize
    requires { at + length (refused_line number) ≤ length out.old }
    ensures { Put out.old at (refused_line number) out.new result }
{
    listing_write::put_number(out, at, &REFUSED, number)
}
