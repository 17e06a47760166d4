// Lent memory as places of 2,336 units, one layout for both caches (specs/places/Layout.antt): reading and writing one place.
ghost use Rattle.std.specs.Prelude.{◌≡◌, ◌∷◌, ◌++◌, ◌+◌, ◌-◌, ◌≤◌, ◌<◌, length};
ghost use Rattle.laws.specs.Lists.{part};
ghost use Rattle.cache.specs.places.Layout.{place_count, place_at, unit_at, wide_at, room_at, text_at, list_count, blank, wide_units, room_units, place_units};
ghost use Rattle.cache.specs.places.Code.{changed, zeros, tidy_room, tidy_rooms, tidy, put_unit, put_wide, put_settings, key_only};

// The texts of a place. Their lengths are the first units of its head.
const TEXTS: usize = 9;

// The other units of the head: how many texts the list has, the hint, a mark for each text of the list.
pub const COUNT: usize = 9;

pub const HINT: usize = 10;

pub const MARKS: usize = 11;

// Settings of a referral entry: three flags, two numbers of two units each.
pub const ROOT: usize = 19;

pub const INTERLINK: usize = 20;

pub const FAILBACK: usize = 21;

pub const TTL: usize = 22;

pub const TAKEN: usize = 24;

// The units from here on are not in use, and zero.
pub const FREE: usize = 26;

pub const HEAD: usize = 32;

// The units of the room of a text: as many as a path may have.
pub const ROOM: usize = unc::path_form::PATH_UNITS;

pub const PLACE: usize = HEAD + TEXTS * ROOM;

// Unit j of place i.
#[tactic(auto, using(crate::proofs::places::LayoutLaws::place_unit))]
pub fn unit(cache: &[u16], i: usize, j: usize) -> u16
    requires { (i < place_count cache.now) × (j < place_units) }
    ensures { result ≡ unit_at j (place_at i cache.now) }
{
    cache[i * PLACE + j]
}

// The number of 32 bits at units j and j + 1 of place i.
#[tactic(auto, using(crate::proofs::places::LayoutLaws::place_wide))]
pub fn wide(cache: &[u16], i: usize, j: usize) -> u32
    requires { (i < place_count cache.now) × (j + 1 < place_units) }
    ensures { result ≡ wide_at j (place_at i cache.now) }
{
    let at = i * PLACE + j;
    u32::from(cache[at]) + 65536 * u32::from(cache[at + 1])
}

// Text j of place i, as it lies in the cache.
pub fn text(cache: &[u16], i: usize, j: usize) -> &[u16]
    requires { (i < place_count cache.now) × (j < 9) }
    ensures { result.now ≡ text_at j (place_at i cache.now) }
{
    let at = i * PLACE;
    let units = usize::from(cache[at + j]);
    let start = at + HEAD + j * ROOM;
    &cache[start..start + units.min(ROOM)]
}

// The room of text j of place i.
pub fn room(cache: &[u16], i: usize, j: usize) -> &[u16]
    requires { (i < place_count cache.now) × (j < 9) }
    ensures { (result.now ≡ room_at j (place_at i cache.now)) × (length result.now ≡ room_units) }
{
    let start = i * PLACE + HEAD + j * ROOM;
    &cache[start..start + ROOM]
}

// How many texts the list of place i has.
pub fn list_count(cache: &[u16], i: usize) -> usize
    requires { i < place_count cache.now }
    ensures { result ≡ list_count (place_at i cache.now) }
{
    usize::from(unit(cache, i, COUNT).min(8))
}

pub fn put_unit(cache: &mut [u16], i: usize, j: usize, v: u16)
    requires { (i < place_count cache.old) × (j < place_units) }
    ensures { cache.new ≡ changed i (put_unit j v) cache.old }
{
    memory::put_unit(cache, i * PLACE + j, v);
}

// A number of 32 bits into units j and j + 1 of place i.
pub fn put_wide(cache: &mut [u16], i: usize, j: usize, v: u32)
    requires { (i < place_count cache.old) × (j + 1 < place_units) }
    ensures { cache.new ≡ changed i (put_wide j v) cache.old }
{
    let at = i * PLACE + j;
    memory::put_unit(cache, at, (v % 65536) as u16);
    memory::put_unit(cache, at + 1, (v / 65536) as u16);
}

// Three units and two numbers of 32 bits, as settings of place i.
pub fn put_settings(cache: &mut [u16], i: usize, a: u16, b: u16, c: u16, d: u32, e: u32)
    requires { i < place_count cache.old }
    ensures { cache.new ≡ changed i (put_settings (a ∷ b ∷ c ∷ (wide_units d ++ wide_units e))) cache.old }
{
    put_unit(cache, i, ROOT, a);
    put_unit(cache, i, INTERLINK, b);
    put_unit(cache, i, FAILBACK, c);
    put_wide(cache, i, TTL, d);
    put_wide(cache, i, TAKEN, e);
}

// Makes all of place i but its key zero.
pub fn keep_key(cache: &mut [u16], i: usize)
    requires { i < place_count cache.old }
    ensures { cache.new ≡ changed i key_only cache.old }
{
    let at = i * PLACE;
    memory::clear_units(cache, at + 1, HEAD - 1);
    memory::clear_units(cache, at + HEAD + ROOM, PLACE - HEAD - ROOM);
}

pub fn clear_place(cache: &mut [u16], i: usize)
    requires { i < place_count cache.old }
    ensures { cache.new ≡ changed i (λ q. blank) cache.old }
{
    memory::clear_units(cache, i * PLACE, PLACE);
}

// Keeps place i, to be put back by `put_place`.
pub fn save_place(cache: &[u16], i: usize, saved: &mut [u16])
    requires { (i < place_count cache.now) × (length saved.old ≡ place_units) }
    ensures { saved.new ≡ place_at i cache.now }
{
    let at = i * PLACE;
    memory::copy_units(saved, 0, &cache[at..at + PLACE]);
}

pub fn put_place(cache: &mut [u16], i: usize, saved: &[u16])
    requires { (i < place_count cache.old) × (length saved.now ≡ place_units) }
    ensures { cache.new ≡ changed i (λ q. saved.now) cache.old }
{
    memory::copy_units(cache, i * PLACE, saved);
}

// Whether every unit from `from` up to `to` is zero. The fold has no exit, so that it runs over many units at a time.
pub fn all_zero(s: &[u16], from: usize, to: usize) -> bool
    requires { (from ≤ to) × (to ≤ length s.now) }
    ensures { result ≡ zeros (part from (to - from) s.now) }
{
    s[from..to].iter().fold(0, |any, unit| any | *unit) == 0
}

// Whether nothing stands in room j of a place past its text.
#[tactic(auto, using(crate::proofs::places::TidyLaws::room_tested))]
fn room_tidy(piece: &[u16], j: usize) -> bool
    requires { (length piece.now ≡ place_units) × (j < 9) }
    ensures { result ≡ tidy_room piece.now j }
{
    let units = usize::from(piece[j]);
    let start = HEAD + j * ROOM;
    units <= ROOM && all_zero(piece, start + units, start + ROOM)
}

fn rooms_tidy(piece: &[u16]) -> bool
    requires { length piece.now ≡ place_units }
    ensures { result ≡ tidy_rooms piece.now }
{
    (0..TEXTS).all(|j| room_tidy(piece, j))
}

// Whether the unused room of a used place is zero.
#[tactic(auto, using(crate::proofs::places::TidyLaws::tidy_tests))]
pub fn is_tidy(piece: &[u16]) -> bool
    requires { length piece.now ≡ place_units }
    ensures { result ≡ tidy piece.now }
{
    let count = usize::from(piece[COUNT]);
    count <= 8
        && all_zero(piece, 1 + count, TEXTS)
        && all_zero(piece, MARKS + count, ROOT)
        && all_zero(piece, FREE, HEAD)
        && rooms_tidy(piece)
}
