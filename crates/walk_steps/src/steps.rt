// What the steps put and where they rest: source document 000, with document 01's choices.
#![tactic(auto, unfolding(crate::specs::steps::Code::ended_at, crate::specs::steps::Code::asked_at, crate::specs::steps::Code::rested_at, crate::specs::steps::Code::domain_asking, laws::specs::Choice::choose))]

ghost use Rattle.std.specs.Prelude.{◌≡◌, true, [], ◌≤◌, length, get_or};
ghost use Rattle.unc.specs.names.Paths.{components};
ghost use Rattle.cache.specs.order.Order.{good_prefix};
ghost use Rattle.walk_steps.specs.steps.Code.{ended_at, asked_at, rested_at, domain_asking, root_in};

// The kinds of question, by their numbers in a packed walk.
#[derive(Clone, Copy, PartialEq, Eq, Debug)]
pub enum Kind {
    Dc = 1,
    Root = 2,
    Link = 3,
    Sysvol = 4,
    Io = 5,
}

// The ends of a walk, by their numbers.
#[derive(Clone, Copy, PartialEq, Eq, Debug)]
pub enum End {
    Done = 20,
    NotDfs = 21,
    NoDc = 22,
    Failed = 23,
    LimitReached = 24,
    Malformed = 25,
    TooLong = 26,
    Gone = 27,
}

// A question: its kind, how many units of the path name the entry in use, the places of its party and of that with which the round
// began, the size asked, and whether a link request came of PATH_NOT_COVERED.
#[derive(Clone, Copy, PartialEq, Eq, Debug)]
pub struct Asking {
    pub kind: Kind,
    pub entry: u16,
    pub party: u16,
    pub began: u16,
    pub size: u32,
    pub uncovered: bool,
}

// The next move: a question that waits for its answer, or an end with its status.
#[derive(Clone, Copy, PartialEq, Eq, Debug)]
pub enum Next {
    Asks(Asking),
    Ends(End, u32),
}

// Where the steps came to rest: the units of the path and of the path tried, the moves left, and whether there was a hit.
#[derive(Clone, Copy, PartialEq, Eq, Debug)]
pub struct Rested {
    pub next: Next,
    pub path: u16,
    pub tried: u16,
    pub left: u16,
    pub hit: bool,
}

// What a walk hands on in a call: the units of its path, the moves left, whether there was a hit, the size given, the time, and the bytes
// of the buffer.
#[derive(Clone, Copy, PartialEq, Eq, Debug)]
pub struct Progress {
    pub len: usize,
    pub left: u16,
    pub hit: bool,
    pub size: u32,
    pub clock: u32,
    pub room: usize,
}

pub fn end_at(end: End, status: u32, path: usize, left: u16, hit: bool) -> Rested
    requires { path ≤ 256 }
    ensures { result ≡ ended_at end status path left hit }
{
    Rested {
        next: Next::Ends(end, status),
        path: path as u16,
        tried: 0,
        left,
        hit,
    }
}

// A question put, if a move is left.
pub fn ask(q: Asking, path: usize, left: u16, hit: bool) -> Rested
    requires { path ≤ 256 }
    ensures { result ≡ asked_at q path left hit }
{
    if left == 0 {
        end_at(End::LimitReached, 0, path, left, hit)
    } else {
        Rested {
            next: Next::Asks(q),
            path: path as u16,
            tried: 0,
            left: left - 1,
            hit,
        }
    }
}

// The rest at an end, or at a question that tries no path.
pub fn rest(next: Next, g: Progress) -> Rested
    requires { g.len ≤ 256 }
    ensures { result ≡ rested_at next g.len g.left g.hit }
{
    match next {
        Next::Asks(q) => ask(q, g.len, g.left, g.hit),
        Next::Ends(end, status) => end_at(end, status, g.len, g.left, g.hit),
    }
}

// Step 9's root entry: that of the first two components.
pub fn root_entry(refs: &[u16], path: &[u16]) -> Option<usize>
    ensures { result ≡ root_in path.now refs.now }
{
    let n = unc::prefix::first_end(path, 2);
    let i = cache_lookup::find_prefix(refs, &path[..n])?;
    if cache_lookup::is_root(refs, i) {
        Some(i)
    } else {
        None
    }
}

// A request that names the domain of the first component.
pub fn domain_asking(kind: Kind, path: &[u16], party: u16, size: u32) -> Asking
    requires { length path.now ≤ 256 }
    ensures { result ≡ domain_asking kind path.now party size }
{
    let n = unc::prefix::first_end(path, 1);
    Asking {
        kind,
        entry: n as u16,
        party,
        began: party,
        size,
        uncovered: false,
    }
}

// The first component of a path.
pub fn host(path: &[u16]) -> &[u16]
    requires { good_prefix path.now ≡ true }
    ensures { result.now ≡ get_or (components path.now) 0 [] }
{
    let n = unc::prefix::first_end(path, 1);
    &path[1..n]
}
