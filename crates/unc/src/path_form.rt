// A path normalised, and its components counted: document 01, "Paths".
ghost use Rattle.std.specs.Prelude.{◌≡◌, ◌≤◌, length};
ghost use Rattle.laws.specs.Lists.{roomed};
ghost use Rattle.unc.specs.names.Code.{form_within, room_after};
ghost use Rattle.unc.specs.names.Paths.{normalised, normalised_count};

use crate::names::{BACKSLASH, Form, PathError};
use crate::text::{self, good_count, lead, trail};

// The most units of a normalised path.
pub const PATH_UNITS: usize = 256;

// A good path, normalised into a room that holds it, with zeros after it.
#[tactic(auto, using(crate::proofs::names::FormLaws::room))]
fn put_normalised(s: &[u16], room: &mut [u16])
    requires { length (normalised s.now) ≤ length room.old }
    ensures { room.new ≡ roomed (length room.old) (normalised s.now) }
{
    let from = lead(s);
    let to = trail(s, from);
    let n = room.len();
    memory::put_unit(room, 0, BACKSLASH);
    memory::put_text(room, 1, n - 1, &s[from..to]);
}

// A path normalised into a lent room, with zeros after it. The room's length is the most units that the path may have: 256 in caches and
// walks. Where the path is bad or too long the room stays as it was.
#[tactic(auto, using(crate::proofs::names::FormLaws::put))]
pub fn normalise(s: &[u16], room: &mut [u16]) -> Result<Form, PathError>
    ensures form { result ≡ form_within (length room.old) s.now }
    ensures room { room.new ≡ room_after s.now room.old }
{
    let form = text::form_within(s, room.len())?;
    put_normalised(s, room);
    Ok(form)
}

// The number of components of a normalised path of at most 256 units; 0 of any other text.
#[tactic(auto, using(crate::proofs::names::FormLaws::count))]
pub fn normalised_count(s: &[u16]) -> usize
    ensures { result ≡ normalised_count s.now }
{
    if s.len() == 0 || PATH_UNITS < s.len() || s[0] != BACKSLASH {
        return 0;
    }
    good_count(&s[1..])
}
