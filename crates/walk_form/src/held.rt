// The walk as it is held, and the test of its form. Each test is its definition, opened.
#![tactic(auto, unfolding(crate::specs::held::Walks::good_limit, cache_store::specs::domain_cache::Domains::good_size, crate::specs::held::Walks::good_settings, crate::specs::held::Walks::names_domain, crate::specs::held::Walks::names_prefix, crate::specs::held::Walks::no_party, crate::specs::held::Code::plain_size, crate::specs::held::Walks::asked_in_form, crate::specs::held::Walks::one_party, crate::specs::held::Walks::has_tried, crate::specs::held::Walks::end_tried, crate::specs::held::Walks::good_tried, crate::specs::held::Walks::end_status, crate::specs::held::Code::asking_form, crate::specs::held::Walks::next_in_form, crate::specs::held::Code::end_form, crate::specs::held::Code::room_form, crate::specs::held::Code::rooms_form))]

ghost use Rattle.std.specs.Prelude.{◌≡◌, ◌+◌, ◌≤◌, length};
ghost use Rattle.walk_steps.specs.declared.steps.Kind.TheVariants.{Dc, Root, Link, Sysvol, Io};
ghost use Rattle.cache_store.specs.domain_cache.Domains.{good_size};
ghost use Rattle.walk_form.specs.held.Walks.{good_limit, good_settings, names_domain, names_prefix, no_party, asked_in_form};
ghost use Rattle.walk_form.specs.held.Walks.{has_tried, end_tried, good_tried, end_status, next_in_form, in_form};
ghost use Rattle.walk_form.specs.held.Code.{plain_size, asking_form, end_form, room_form, rooms_form};

use walk_steps::steps::{Asking, End, Kind, Next};

// The units of a room, where the bootstrap DC's room starts, and the units of the three rooms.
pub const ROOM: usize = 256;

pub const BOOT: usize = 512;

pub const TEXTS: usize = 768;

// A walk: its settings, its moves, the units of its texts (which are lent with it), whether it had a cache hit or a successful
// referral, and its next move.
#[derive(Clone, Copy, PartialEq, Eq, Debug)]
pub struct Walk {
    pub limit: u32,
    pub size: u32,
    pub boot: u16,
    pub moves: u16,
    pub path: u16,
    pub tried: u16,
    pub hit: bool,
    pub next: Next,
}

fn good_limit(limit: u32) -> bool
    ensures { result ≡ good_limit limit }
{
    (1..=64).contains(&limit)
}

pub fn good_size(size: u32) -> bool
    ensures { result ≡ good_size size }
{
    (1024..=57344).contains(&size)
}

// Whether a walk's settings are accepted.
pub fn good_settings(limit: u32, size: u32, boot: &[u16]) -> bool
    ensures { result ≡ good_settings limit size boot.now }
{
    good_limit(limit) && good_size(size) && unc::names::good_name(boot)
}

fn names_domain(path: &[u16], q: Asking) -> bool
    ensures { result ≡ names_domain path.now q }
{
    q.entry as usize == unc::prefix::first_end(path, 1)
}

fn names_prefix(path: &[u16], q: Asking) -> bool
    ensures { result ≡ names_prefix path.now q }
{
    let n = q.entry as usize;
    n <= path.len()
        && 2 <= unc::path_form::normalised_count(&path[..n])
        && unc::prefix::matches(&path[..n], path)
}

fn no_party(q: Asking) -> bool
    ensures { result ≡ no_party q }
{
    q.party == 0 && q.began == 0
}

// The size of a request that did not come of PATH_NOT_COVERED.
fn plain_size(q: Asking) -> bool
    ensures { result ≡ plain_size q }
{
    good_size(q.size) && !q.uncovered
}

fn dc_form(path: &[u16], q: Asking) -> bool
    ensures { result ≡ asked_in_form path.now q Dc }
{
    names_domain(path, q) && no_party(q) && plain_size(q)
}

fn root_form(path: &[u16], q: Asking) -> bool
    ensures { result ≡ asked_in_form path.now q Root }
{
    (names_domain(path, q) || q.entry == 0 && no_party(q)) && plain_size(q)
}

fn link_form(path: &[u16], q: Asking) -> bool
    ensures { result ≡ asked_in_form path.now q Link }
{
    names_prefix(path, q) && good_size(q.size)
}

fn sysvol_form(path: &[u16], q: Asking) -> bool
    ensures { result ≡ asked_in_form path.now q Sysvol }
{
    names_domain(path, q) && q.party == q.began && plain_size(q)
}

fn io_form(path: &[u16], q: Asking) -> bool
    ensures { result ≡ asked_in_form path.now q Io }
{
    names_prefix(path, q) && q.size == 0 && !q.uncovered
}

fn asked_in_form(path: &[u16], q: Asking) -> bool
    ensures { result ≡ asked_in_form path.now q q.kind }
{
    match q.kind {
        Kind::Dc => dc_form(path, q),
        Kind::Root => root_form(path, q),
        Kind::Link => link_form(path, q),
        Kind::Sysvol => sysvol_form(path, q),
        Kind::Io => io_form(path, q),
    }
}

// Whether a question has a path tried: I/O alone.
pub fn has_tried(kind: Kind) -> bool
    ensures { result ≡ has_tried kind }
{
    matches!(kind, Kind::Io)
}

fn end_tried(end: End) -> bool
    ensures { result ≡ end_tried end }
{
    matches!(end, End::Done)
}

fn good_tried(has: bool, tried: &[u16]) -> bool
    ensures { result ≡ good_tried has tried.now }
{
    if has {
        1 <= unc::path_form::normalised_count(tried)
    } else {
        tried.is_empty()
    }
}

fn end_status(end: End, status: u32) -> bool
    ensures { result ≡ end_status end status }
{
    match end {
        End::Done | End::NoDc | End::Failed => true,
        End::NotDfs | End::LimitReached | End::Malformed | End::TooLong | End::Gone => status == 0,
    }
}

fn asking_form(path: &[u16], tried: &[u16], q: Asking) -> bool
    ensures { result ≡ asking_form path.now tried.now q }
{
    2 <= unc::path_form::normalised_count(path)
        && good_tried(has_tried(q.kind), tried)
        && asked_in_form(path, q)
}

fn end_form(path: &[u16], tried: &[u16], end: End, status: u32) -> bool
    ensures { result ≡ end_form path.now tried.now end status }
{
    1 <= unc::path_form::normalised_count(path)
        && good_tried(end_tried(end), tried)
        && end_status(end, status)
}

fn next_in_form(path: &[u16], tried: &[u16], next: Next) -> bool
    ensures { result ≡ next_in_form path.now tried.now next }
{
    match next {
        Next::Asks(q) => asking_form(path, tried, q),
        Next::Ends(end, status) => end_form(path, tried, end, status),
    }
}

// Whether a text of `units` units fits the room at `at`, and nothing stands in the room past it.
fn room_form(texts: &[u16], at: usize, units: usize) -> bool
    requires { at + 256 ≤ length texts.now }
    ensures { result ≡ room_form at units texts.now }
{
    units <= ROOM && cache::places::all_zero(texts, at + units, at + ROOM)
}

fn rooms_form(texts: &[u16], path: usize, tried: usize, boot: usize) -> bool
    requires { length texts.now ≡ 768 }
    ensures { result ≡ rooms_form path tried boot texts.now }
{
    room_form(texts, 0, path) && room_form(texts, ROOM, tried) && room_form(texts, BOOT, boot)
}

// Whether a walk and its texts are in form.
#[tactic(auto, using(crate::proofs::held::TestLaws::form_tests, crate::proofs::held::TestLaws::rooms_hold))]
pub fn in_form(walk: Walk, texts: &[u16]) -> bool
    ensures { result ≡ in_form walk texts.now }
{
    let path = walk.path as usize;
    let tried = walk.tried as usize;
    let boot = walk.boot as usize;
    texts.len() == TEXTS
        && rooms_form(texts, path, tried, boot)
        && good_settings(walk.limit, walk.size, &texts[BOOT..BOOT + boot])
        && walk.moves as u32 <= walk.limit
        && next_in_form(&texts[..path], &texts[ROOM..ROOM + tried], walk.next)
}
