// Whether a text is a listing, and of how many entries: document 01, "The listing".
ghost use Rattle.std.specs.Prelude.{◌≡◌, MatchOption, [], eqb, get_or};
ghost use Rattle.listing_read.specs.listing_rules.Entries.{lines_of, opens_entry};
ghost use Rattle.cache.specs.order.Order.{distinct};
ghost use Rattle.listing_read.specs.check_listing.Code.{checked, is_number_line, is_kind_line, good_line, hint_step, step_of, counted, is_ended, prefix_lines, apart_from, FirstLine};

use listing_write::{
    FAILBACK, HINT, INTERLINK, KIND_LINK, KIND_ROOT, LINE_END, PREFIX, TAKEN, TARGET, TTL,
};

// With which the line of a prefix begins; no other line does.
const OPENING: u16 = b'p' as u16;

const TARGET_LINE: usize = 7;

const LINES: usize = 15;

// Whether a line with this key says a number of at most `most`.
#[tactic(auto, unfolding(crate::specs::check_listing::Code::is_number_line, crate::specs::check_listing::Code::at_most))]
fn number_within(key: &[u16], line: &[u16], most: u32) -> bool
    ensures { result ≡ is_number_line key.now most line.now }
{
    crate::line::number_line(key, line).is_some_and(|n| n <= most)
}

#[tactic(auto, using(listing_spelling::proofs::unspell::NumberLaws::pointwise_same), unfolding(crate::specs::check_listing::Code::is_kind_line, listing_write::specs::Form::kind_word))]
fn kind_line(line: &[u16]) -> bool
    ensures { result ≡ is_kind_line line.now }
{
    KIND_ROOT.as_slice() == line || KIND_LINK.as_slice() == line
}

// Whether a line is line j of an entry, from 0; the hint is tested elsewhere. A match on j: what a line says goes by its place alone.
#[tactic(auto, unfolding(crate::specs::check_listing::Code::good_line, crate::specs::check_listing::Code::later_line, laws::specs::Choice::choose))]
fn good_line(line: &[u16], j: usize) -> bool
    ensures { result ≡ good_line j line.now }
{
    match j {
        0 => crate::line::path_line(&PREFIX, line),
        1 => kind_line(line),
        2 => number_within(&INTERLINK, line, 1),
        3 => number_within(&FAILBACK, line, 1),
        4 => number_within(&TTL, line, u32::MAX),
        5 => number_within(&TAKEN, line, u32::MAX),
        _ => j < LINES && crate::line::path_line(&TARGET, line),
    }
}

// The hint is one of the targets, so the entry has at least that many lines after the hint's, and one more.
#[tactic(auto, unfolding(crate::specs::check_listing::Code::hint_step, crate::specs::check_listing::Code::least_for))]
fn hint_step(line: &[u16]) -> Option<usize>
    ensures { result ≡ hint_step line.now }
{
    crate::line::number_line(&HINT, line).map(|n| TARGET_LINE + 1 + n as usize)
}

// Line j of an entry that has at least `least` lines: how many it has at least after it, if the line is right.
#[tactic(auto, unfolding(crate::specs::check_listing::Code::step_of, laws::specs::Choice::choose))]
fn line_step(line: &[u16], j: usize, least: usize) -> Option<usize>
    ensures { result ≡ step_of j least line.now }
{
    if j == 6 {
        hint_step(line)
    } else {
        good_line(line, j).then_some(least)
    }
}

// The first line of a text, without its end, and the text after it; none where the text is empty.
fn split_line(text: &[u16]) -> Option<(&[u16], &[u16])>
    ensures { MatchOption result (lines_of text.now ≡ []) (λ p. FirstLine text.now p.0.now p.1.now) }
{
    if text.is_empty() {
        return None;
    }
    let end = crate::line::line_end(text, 0);
    Some((&text[..end], crate::line::part_from(text, end + 1)))
}

// Whether a line is one of a prefix.
fn is_prefix(line: &[u16]) -> bool
    ensures { result ≡ eqb (get_or line.now 0 0) 112 }
{
    line.first().is_some_and(|u| *u == OPENING)
}

// Whether the text ends or a line of a prefix begins.
#[tactic(auto, using(crate::proofs::check_listing::TextLaws::opens_none, crate::proofs::check_listing::TextLaws::opens_some))]
fn opens(text: &[u16]) -> bool
    ensures { result ≡ opens_entry (lines_of text.now) }
{
    text.first().is_none_or(|u| *u == OPENING)
}

// Whether all lines are those of entries, and of how many.
fn count_entries(text: &[u16]) -> Option<usize>
    ensures { result ≡ counted (lines_of text.now) }
{
    let mut count = 0;
    let mut j = 0;
    let mut least = TARGET_LINE + 1;
    let mut rest = text;
    while let Some((line, after)) = split_line(rest) {
        least = line_step(line, j, least)?;
        j += 1;
        rest = after;
        if opens(rest) {
            if j < least {
                return None;
            }
            count += 1;
            j = 0;
            least = TARGET_LINE + 1;
        }
    }
    Some(count)
}

// Whether no line of a prefix is the same as this line.
fn apart_from(text: &[u16], line: &[u16]) -> bool
    ensures { result ≡ apart_from line.now (lines_of text.now) }
{
    let mut rest = text;
    while let Some((other, after)) = split_line(rest) {
        if is_prefix(other) && unc::names::same_name(line, other) {
            return false;
        }
        rest = after;
    }
    true
}

// Whether no two lines of prefixes are the same. A spelling has "~" only before digits, so two prefixes are equal where their spellings are.
fn prefixes_apart(text: &[u16]) -> bool
    ensures { result ≡ distinct (prefix_lines (lines_of text.now)) }
{
    let mut rest = text;
    while let Some((line, after)) = split_line(rest) {
        if is_prefix(line) && !apart_from(after, line) {
            return false;
        }
        rest = after;
    }
    true
}

// Whether the last line is ended.
#[tactic(auto, using(crate::proofs::check_listing::TextLaws::ended_none, crate::proofs::check_listing::TextLaws::ended_some))]
fn is_ended(text: &[u16]) -> bool
    ensures { result ≡ is_ended text.now }
{
    text.last().is_none_or(|u| *u == LINE_END)
}

// Whether a text is a listing, and of how many entries.
pub fn check_text(text: &[u16]) -> Option<usize>
    ensures { result ≡ checked text.now }
{
    if !is_ended(text) {
        return None;
    }
    let n = count_entries(text)?;
    prefixes_apart(text).then_some(n)
}
