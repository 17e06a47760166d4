// What a host lends: a walk as units, and the numbers that are given back. A walk is lent as 800 units: its packed form in 32, then its texts.
#![tactic(auto)]

ghost use Rattle.std.specs.Prelude.{◌≡◌, ◌≤◌, min, length, MatchResult};
ghost use Rattle.std.specs.Result.{result_unwrap_or};
ghost use Rattle.walk_calls.specs.calls.Calls.{refusal_number};
ghost use Rattle.walk_calls.specs.call_end.Code.{verdict_of};
ghost use Rattle.dfsc_memory.specs.Units.{no_walk, walk_in, shown_result};
ghost use Rattle.dfsc_memory.specs.Code.{closed_units};
ghost use Rattle.dfsc_memory.specs.Listing.{list_result};

use listing_write::ListError;
use walk_calls::call_end::Refusal;
use walk_form::held::Walk;
use walk_form::packed::HEAD;
use walk_shown::question::ShowError;
use walk_steps::steps::{End, Next};

// The units of the packed form that are there.
pub fn head_units(units: &[u16]) -> usize
    ensures { result ≡ min 32 (length units.now) }
{
    HEAD.min(units.len())
}

// A walk that is out of form.
#[tactic(auto, unfolding(crate::specs::Units::no_walk))]
pub fn no_walk() -> Walk
    ensures { result ≡ no_walk }
{
    Walk {
        limit: 0,
        size: 0,
        boot: 0,
        moves: 0,
        path: 0,
        tried: 0,
        hit: false,
        next: Next::Ends(End::Gone, 0),
    }
}

// The walk in its units; one out of form where they are not of its form.
pub fn held(units: &[u16]) -> Walk
    ensures { result ≡ walk_in units.now }
{
    walk_form::packed::unpack(&units[..head_units(units)]).unwrap_or(no_walk())
}

// The number of a call that gives back nothing: 0 where it is done, else that of its refusal.
pub fn number<E: Into<u32>>(answer: Result<(), E>) -> u32
    ensures { MatchResult answer (λ _. result ≡ 0) (λ error. E.converts error result) }
{
    match answer {
        Ok(()) => 0,
        Err(error) => error.into(),
    }
}

// The number of a call, and its walk into the units where it is taken.
pub fn close(answer: Result<Walk, Refusal>, units: &mut [u16]) -> u32
    requires { refusal_number (verdict_of answer) ≡ 0 → 32 ≤ length units.old }
    ensures number { result ≡ refusal_number (verdict_of answer) }
    ensures units { (walk : Walk) → units.new ≡ closed_units (refusal_number (verdict_of answer)) (result_unwrap_or answer walk) units.old }
{
    match answer {
        Ok(walk) => {
            walk_form::packed::pack(walk, units);
            0
        }
        Err(refusal) => refusal.into(),
    }
}

// How many units are shown, or why none are, in one number, as include/dfsc.h gives it to hosts.
pub fn shown_result(shown: Result<u16, ShowError>) -> u32
    ensures { result ≡ shown_result shown }
{
    match shown {
        Ok(n) => n as u32,
        // an arm of its own, so that the edit out_of_form_is_length plants its mistake in this case alone
        Err(ShowError::OutOfForm) => 65536 * u32::from(ShowError::OutOfForm),
        Err(error) => 65536 * u32::from(error),
    }
}

// As `shown_result`, in 64 bits.
pub fn list_result(answer: Result<usize, ListError>) -> u64
    ensures { result ≡ list_result answer }
{
    match answer {
        Ok(n) => n as u64,
        // an arm of its own: see shown_result, and the edit list_refused_as_units
        Err(ListError::NotInOrder) => 4294967296 * u64::from(u32::from(ListError::NotInOrder)),
        Err(error) => 4294967296 * u64::from(u32::from(error)),
    }
}
