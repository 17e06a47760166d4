// A walk as 32 units, and back. Each function is its definition, opened.
#![tactic(auto, unfolding(crate::specs::packed::Packing::kind_number, crate::specs::packed::Packing::next_packed, crate::specs::packed::Packing::asking_units, crate::specs::packed::Packing::walk_units, crate::specs::packed::Packing::packed_walk, crate::specs::packed::Packing::kind_at, crate::specs::packed::Packing::end_of_number, crate::specs::packed::Packing::asking_at, crate::specs::packed::Packing::next_at, crate::specs::packed::Packing::walk_at, walk_steps::specs::steps::Steps::end_number, cache::specs::places::Layout::wide_at, cache::specs::places::Layout::wide_units, cache::specs::places::Layout::flag_at, cache::specs::places::Layout::flag_unit, laws::specs::Choice::choose))]

ghost use Rattle.std.specs.Prelude.{◌≡◌, ◌+◌, ◌≤◌, ◌<◌, length};
ghost use Rattle.laws.specs.Lists.{pasted};
ghost use Rattle.cache.specs.places.Layout.{wide_at, wide_units};
ghost use Rattle.walk_steps.specs.steps.Steps.{end_number};
ghost use Rattle.walk_form.specs.packed.Packing.{kind_number, next_packed, walk_units, packed_walk, kind_at, end_of_number, asking_at, next_at, walk_at, unpacked};

use crate::held::Walk;
use walk_steps::steps::{Asking, End, Kind, Next};

// The units of a packed walk.
pub const HEAD: usize = 32;

// The discriminant is the number that a packed walk and a host have; `From` would say no more than this.
pub fn kind_number(kind: Kind) -> u16
    ensures { result ≡ kind_number kind }
{
    kind as u16
}

pub fn end_number(end: End) -> u16
    ensures { result ≡ end_number end }
{
    end as u16
}

// A number of 32 bits as two units, low unit first.
fn halves(n: u32) -> [u16; 2]
    ensures { result ≡ wide_units n }
{
    [(n % 65536) as u16, (n / 65536) as u16]
}

// Units 9 to 15.
fn next_units(next: Next) -> [u16; 7]
    ensures { result ≡ next_packed next }
{
    match next {
        Next::Asks(q) => {
            let [low, high] = halves(q.size);
            let uncovered = u16::from(q.uncovered);
            [
                kind_number(q.kind),
                q.entry,
                q.party,
                q.began,
                low,
                high,
                uncovered,
            ]
        }
        Next::Ends(end, status) => {
            let [low, high] = halves(status);
            [end_number(end), 0, 0, 0, low, high, 0]
        }
    }
}

// The units of a walk, without the zeros after them.
fn walk_units(walk: Walk) -> [u16; 16]
    ensures { result ≡ walk_units walk (next_packed walk.next) }
{
    let [limit_low, limit_high] = halves(walk.limit);
    let [size_low, size_high] = halves(walk.size);
    let [code, entry, party, began, low, high, uncovered] = next_units(walk.next);
    [
        limit_low,
        limit_high,
        size_low,
        size_high,
        walk.boot,
        walk.moves,
        walk.path,
        walk.tried,
        u16::from(walk.hit),
        code,
        entry,
        party,
        began,
        low,
        high,
        uncovered,
    ]
}

// The walk into the first 32 units; what stands after them stays.
pub fn pack(walk: Walk, dst: &mut [u16])
    requires { 32 ≤ length dst.old }
    ensures { dst.new ≡ pasted dst.old 0 (packed_walk walk) }
{
    memory::put_text(dst, 0, HEAD, &walk_units(walk));
}

// Of units that are no place: `cache::places::wide` reads a place.
fn wide(units: &[u16; HEAD], at: usize) -> u32
    requires { at + 1 < 32 }
    ensures { result ≡ wide_at at units.now }
{
    units[at] as u32 + 65536 * units[at + 1] as u32
}

// Total, as the definition is: a number that is none is taken for the last, and packed again it is another.
fn kind_at(n: u16) -> Kind
    ensures { result ≡ kind_at n }
{
    match n {
        1 => Kind::Dc,
        2 => Kind::Root,
        3 => Kind::Link,
        4 => Kind::Sysvol,
        _ => Kind::Io,
    }
}

fn end_at(n: u16) -> End
    ensures { result ≡ end_of_number n }
{
    match n {
        20 => End::Done,
        21 => End::NotDfs,
        22 => End::NoDc,
        23 => End::Failed,
        24 => End::LimitReached,
        25 => End::Malformed,
        26 => End::TooLong,
        _ => End::Gone,
    }
}

fn asking_at(units: &[u16; HEAD]) -> Asking
    ensures { result ≡ asking_at units.now }
{
    Asking {
        kind: kind_at(units[9]),
        entry: units[10],
        party: units[11],
        began: units[12],
        size: wide(units, 13),
        uncovered: units[15] == 1,
    }
}

fn next_at(units: &[u16; HEAD]) -> Next
    ensures { result ≡ next_at units.now }
{
    if units[9] <= 5 {
        Next::Asks(asking_at(units))
    } else {
        Next::Ends(end_at(units[9]), wide(units, 13))
    }
}

fn walk_at(units: &[u16; HEAD]) -> Walk
    ensures { result ≡ walk_at units.now }
{
    Walk {
        limit: wide(units, 0),
        size: wide(units, 2),
        boot: units[4],
        moves: units[5],
        path: units[6],
        tried: units[7],
        hit: units[8] == 1,
        next: next_at(units),
    }
}

// The walk that is packed in these units: they have to be what that walk is packed into.
pub fn unpack(units: &[u16]) -> Option<Walk>
    ensures { result ≡ unpacked units.now }
{
    let Ok(units) = <&[u16; HEAD]>::try_from(units) else {
        return None;
    };
    let walk = walk_at(units);
    let mut again = [0; HEAD];
    pack(walk, &mut again);
    if again == *units { Some(walk) } else { None }
}
