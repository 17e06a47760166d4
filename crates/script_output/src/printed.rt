// What the program `walk` prints besides lines of the listing's form: document 01, "Examples to hold it to".
ghost use Rattle.std.specs.Prelude.{◌+◌, ◌≤◌, length};
ghost use Rattle.listing_spelling.specs.spell.Spelling.{Put};
ghost use Rattle.listing_write.specs.Form.{ended};
ghost use Rattle.script_output.specs.printed.Printed.{status_line};

use listing_write::{LINE_END, STATUS};

// The line of a status into a lent buffer from `at` on; answers where it ends.
pub fn put_status(out: &mut [u16], at: usize, status: u32) -> usize
    requires { at + length (ended (status_line status)) ≤ length out.old }
    ensures { Put out.old at (ended (status_line status)) out.new result }
{
    memory::copy_units(out, at, &STATUS);
    let a = listing_spelling::spell::put_hex(out, at + STATUS.len(), (status / 65536) as u16);
    let b = listing_spelling::spell::put_hex(out, a, (status % 65536) as u16);
    memory::put_unit(out, b, LINE_END);
    b + 1
}
