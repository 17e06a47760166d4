// The input of the program `walk`: a line of bytes to a setting or an answer. Document 01, "Examples to hold it to".
ghost use Rattle.std.specs.Prelude.{◌≡◌, true, MatchOption};
ghost use Rattle.listing_read.specs.line.Lines.{line_has_key};
ghost use Rattle.script_lines.specs.lines.Script.{nothing_read, after, read_into, takes_path, takes_boot, takes_limit, takes_size, takes_clock};
ghost use Rattle.script_lines.specs.lines.Script.{reply_key, status_said, takes_status, whole_bytes, takes_reply};
ghost use Rattle.script_lines.specs.lines.Script.{text_read, text_taken};
ghost use Rattle.script_lines.specs.declared.lines.Last.TheVariants.{Other};

use crate::line_bytes::Rest;
use listing_write::{PATH, SIZE, STATUS, units};

const LIMIT: [u16; 6] = units![b'l' b'i' b'm' b'i' b't' b'='];

pub const NOW: [u16; 4] = units![b'n' b'o' b'w' b'='];

const BOOT: [u16; 5] = units![b'b' b'o' b'o' b't' b'='];

pub const REPLY: [u16; 6] = units![b'r' b'e' b'p' b'l' b'y' b'='];

// The line that was read last.
#[derive(Clone, Copy)]
pub enum Last {
    Nothing,
    Path,
    Limit,
    Size,
    Now,
    Boot,
    Clock,
    Status,
    Reply,
    // not of the form
    Other,
    // a call was refused, or the input has ended
    Stopped,
}

// What was read: the settings, and the answer that comes. The units of path and bootstrap DC and the bytes of the reply are lent.
#[derive(Clone, Copy)]
pub struct Script {
    pub last: Last,
    pub path: usize,
    pub limit: u32,
    pub size: u32,
    pub clock: u32,
    pub boot: usize,
    pub status: u32,
    pub reply: usize,
}

// What has come of the input.
#[derive(Clone, Copy)]
pub enum Input {
    // a part of a line
    Part,
    // a line, whole
    Line,
    // the end
    End,
}

// The call that is due.
#[derive(Clone, Copy)]
pub enum Due {
    None,
    Start,
    // the answer to an I/O try
    Io,
    // the answer to a referral request
    Referral,
    // the input is not of the form
    Refusal,
}

#[tactic(auto, unfolding(crate::specs::lines::Script::nothing_read))]
pub fn begin() -> Script
    ensures { result ≡ nothing_read }
{
    Script {
        last: Last::Nothing,
        path: 0,
        limit: 0,
        size: 0,
        clock: 0,
        boot: 0,
        status: 0,
        reply: 0,
    }
}

#[tactic(auto, unfolding(crate::specs::lines::Script::after))]
pub fn with_last(s: Script, last: Last) -> Script
    ensures { result ≡ after last s }
{
    Script { last, ..s }
}

// What was read with one thing more, as the line that was read last; without it the line is not of its form.
#[tactic(auto, unfolding(crate::specs::lines::Script::after))]
fn taken(more: Option<Script>, s: Script, last: Last) -> Script
    ensures { MatchOption more (result ≡ after Other s) (λ t. result ≡ after last t) }
{
    more.map_or(with_last(s, Last::Other), |t| with_last(t, last))
}

// What a line with this key spells, into a lent buffer.
fn text_line(key: &[u16], line: &[u16], out: &mut [u16]) -> Option<usize>
    ensures { text_read result out.new ≡ text_taken key.now line.now out.old }
{
    let value = line.strip_prefix(key)?;
    let n = listing_spelling::unspell::spelled_form(value)?;
    if out.len() < n {
        return None;
    }
    listing_spelling::unspell::unspell(value, out, 0);
    Some(n)
}

#[tactic(auto, using(crate::proofs::lines::LineLaws::status_other, crate::proofs::lines::LineLaws::status_read), unfolding(laws::specs::Choice::choose))]
fn status_of(line: &[u16]) -> Option<u32>
    ensures { result ≡ status_said line.now }
{
    let digits = line.strip_prefix(STATUS.as_slice())?;
    let eight = digits.len() == 8 && crate::line_bytes::all_hex(digits);
    eight.then(|| crate::line_bytes::number(digits))
}

// Whether the digits of a reply are whole bytes: n that are kept, and the rest.
#[tactic(auto, unfolding(crate::specs::lines::Script::whole_bytes))]
fn whole_bytes(n: usize, rest: Rest) -> bool
    ensures { result ≡ whole_bytes n rest }
{
    match rest {
        Rest::None | Rest::Even => n % 2 == 0,
        Rest::Odd => n % 2 == 1,
        Rest::Other => false,
    }
}

#[tactic(auto, unfolding(crate::specs::lines::Script::takes_path, crate::specs::lines::Script::text_or_other, crate::specs::lines::Script::with_path_units, crate::specs::lines::Script::after))]
pub fn take_path(s: Script, line: &[u16], path: &mut [u16]) -> Script
    ensures { read_into result path.new ≡ takes_path s line.now path.old }
{
    let path = text_line(&PATH, line, path);
    taken(path.map(|path| Script { path, ..s }), s, Last::Path)
}

#[tactic(auto, unfolding(crate::specs::lines::Script::takes_boot, crate::specs::lines::Script::text_or_other, crate::specs::lines::Script::with_boot, crate::specs::lines::Script::after))]
pub fn take_boot(s: Script, line: &[u16], boot: &mut [u16]) -> Script
    ensures { read_into result boot.new ≡ takes_boot s line.now boot.old }
{
    let boot = text_line(&BOOT, line, boot);
    taken(boot.map(|boot| Script { boot, ..s }), s, Last::Boot)
}

#[tactic(auto, unfolding(crate::specs::lines::Script::takes_limit, crate::specs::lines::Script::or_other, crate::specs::lines::Script::with_limit, crate::specs::lines::Script::after))]
pub fn take_limit(s: Script, line: &[u16]) -> Script
    ensures { result ≡ takes_limit s line.now }
{
    let limit = listing_read::line::number_line(&LIMIT, line);
    taken(limit.map(|limit| Script { limit, ..s }), s, Last::Limit)
}

#[tactic(auto, unfolding(crate::specs::lines::Script::takes_size, crate::specs::lines::Script::or_other, crate::specs::lines::Script::with_size, crate::specs::lines::Script::after))]
pub fn take_size(s: Script, line: &[u16]) -> Script
    ensures { result ≡ takes_size s line.now }
{
    let size = listing_read::line::number_line(&SIZE, line);
    taken(size.map(|size| Script { size, ..s }), s, Last::Size)
}

// A line of the time: of the settings, or before a status.
#[tactic(auto, unfolding(crate::specs::lines::Script::takes_clock, crate::specs::lines::Script::or_other, crate::specs::lines::Script::with_clock, crate::specs::lines::Script::after))]
pub fn take_clock(s: Script, line: &[u16], last: Last) -> Script
    ensures { result ≡ takes_clock last s line.now }
{
    let clock = listing_read::line::number_line(&NOW, line);
    taken(clock.map(|clock| Script { clock, ..s }), s, last)
}

#[tactic(auto, unfolding(crate::specs::lines::Script::takes_status, crate::specs::lines::Script::or_other, crate::specs::lines::Script::with_status, crate::specs::lines::Script::after))]
pub fn take_status(s: Script, line: &[u16]) -> Script
    ensures { result ≡ takes_status s line.now }
{
    let status = status_of(line);
    taken(status.map(|status| Script { status, ..s }), s, Last::Status)
}

pub fn take_reply(s: Script, line: &[u16], rest: Rest, reply: &mut [u8]) -> Script
    requires { line_has_key reply_key line.now ≡ true }
    ensures { read_into result reply.new ≡ takes_reply s line.now rest reply.old }
{
    let digits = &line[REPLY.len()..];
    if whole_bytes(digits.len(), rest) && crate::line_bytes::all_hex(digits) {
        let n = crate::line_bytes::put_bytes(digits, reply);
        Script {
            reply: n,
            last: Last::Reply,
            ..s
        }
    } else {
        with_last(s, Last::Other)
    }
}
