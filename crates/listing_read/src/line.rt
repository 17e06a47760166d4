// One line of a listing, read: document 01, "The listing".
ghost use Rattle.std.specs.Prelude.{◌≡◌, true, ◌&&◌, ◌+◌, ◌≤◌, length, take, drop};
ghost use Rattle.cache.specs.order.Order.{good_prefix};
ghost use Rattle.listing_spelling.specs.unspell.Reading.{unspelled, is_spelled};
ghost use Rattle.listing_read.specs.line.Lines.{line_length, line_has_key, number_said};
ghost use Rattle.listing_read.specs.line.Code.{is_path_line};

use listing_write::LINE_END;
use unc::path_form::PATH_UNITS;

// How many units stand before the next unit 0A hex, or before the end of the text.
fn line_length(text: &[u16]) -> usize
    ensures { result ≡ line_length text.now }
{
    text.iter()
        .position(|u| *u == LINE_END)
        .unwrap_or(text.len())
}

// The part of a text from `at` on; past its end stands nothing.
pub(crate) fn part_from(text: &[u16], at: usize) -> &[u16]
    ensures { result.now ≡ drop at text.now }
{
    &text[at.min(text.len())..]
}

// Where the line that stands at `at` ends: the place of its unit 0A hex, or the end of the text.
pub fn line_end(text: &[u16], at: usize) -> usize
    ensures { result ≡ at + line_length (drop at text.now) }
{
    at + line_length(part_from(text, at))
}

// Whether a line begins with a key.
pub fn has_key(key: &[u16], line: &[u16]) -> bool
    ensures { result ≡ line_has_key key.now line.now }
{
    line.starts_with(key)
}

fn good_text(room: &[u16], n: usize) -> bool
    requires { n ≤ length room.now }
    ensures { result ≡ good_prefix (take n room.now) }
{
    2 <= unc::path_form::normalised_count(&room[..n])
}

// Whether a spelling of n units says a normalised path of two components or more.
fn good_value(s: &[u16], n: usize) -> bool
    requires { (is_spelled s.now ≡ true) × (n ≡ length (unspelled s.now)) }
    ensures { result ≡ good_prefix (unspelled s.now) }
{
    if PATH_UNITS < n {
        return false;
    }
    let mut room = [0; PATH_UNITS];
    listing_spelling::unspell::unspell(s, &mut room, 0);
    good_text(&room, n)
}

// Whether a text spells a normalised path of two components or more.
#[tactic(auto, using(crate::proofs::line::LineLaws::unspelled_good, crate::proofs::line::LineLaws::form_good))]
fn spells_path(s: &[u16]) -> bool
    ensures { result ≡ (is_spelled s.now && good_prefix (unspelled s.now)) }
{
    listing_spelling::unspell::spelled_form(s).is_some_and(|n| good_value(s, n))
}

// Whether a line is one of a prefix or a target, with this key.
#[tactic(auto, using(crate::proofs::line::LineLaws::path_other, crate::proofs::line::LineLaws::path_said))]
pub fn path_line(key: &[u16], line: &[u16]) -> bool
    ensures { result ≡ is_path_line key.now line.now }
{
    line.strip_prefix(key).is_some_and(spells_path)
}

// The number that a line with this key says.
#[tactic(auto, using(crate::proofs::line::LineLaws::number_other, crate::proofs::line::LineLaws::number_read))]
pub fn number_line(key: &[u16], line: &[u16]) -> Option<u32>
    ensures { result ≡ number_said key.now line.now }
{
    listing_spelling::unspell::decimal_form(line.strip_prefix(key)?)
}
