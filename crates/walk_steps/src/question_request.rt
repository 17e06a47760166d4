// The request of the question that waits, into a lent buffer.
#![tactic(auto, unfolding(crate::specs::question_request::Code::name_units, crate::specs::question_request::Code::next_units))]

ghost use Rattle.std.specs.Prelude.{◌≡◌};
ghost use Rattle.walk_steps.specs.question_request.Questions.{name_fits, with_request};
ghost use Rattle.walk_steps.specs.question_request.Code.{name_units, next_units, named};

use crate::steps::{Kind, Next};

fn name_units(kind: Kind, path: &[u16]) -> Option<usize>
    ensures { result ≡ name_units kind path.now }
{
    match kind {
        Kind::Dc => Some(unc::prefix::first_end(path, 1)),
        Kind::Root | Kind::Sysvol => Some(unc::prefix::first_end(path, 2)),
        Kind::Link => Some(path.len()),
        Kind::Io => None,
    }
}

pub fn next_units(next: Next, path: &[u16]) -> Option<usize>
    ensures { result ≡ next_units next path.now }
{
    match next {
        Next::Asks(q) => name_units(q.kind, path),
        Next::Ends(..) => None,
    }
}

// Whether the request of the next move fits a buffer of `room` bytes.
pub fn fits(next: Next, path: &[u16], room: usize) -> bool
    ensures { result ≡ name_fits room (named (next_units next path.now) path.now) }
{
    let Some(n) = next_units(next, path) else {
        return true;
    };
    reply_read::request::request_length(&path[..n]) <= room
}

// The request of the next move, if it fits.
pub fn put_request(next: Next, path: &[u16], out: &mut [u8])
    ensures { out.new ≡ with_request (named (next_units next path.now) path.now) out.old }
{
    let Some(n) = next_units(next, path) else {
        return;
    };
    reply_read::request::request(&path[..n], out);
}
