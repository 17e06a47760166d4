// A listing read into the places of a referral cache: document 01, "The listing". What is read here has been tested; nothing is tested again.
ghost use Rattle.std.specs.Prelude.{◌≡◌, true, ◌≤◌, ◌<◌, length, drop};
ghost use Rattle.cache.specs.places.Layout.{place_count, room_units};
ghost use Rattle.cache.specs.places.Code.{changed};
ghost use Rattle.cache.specs.order.Memory.{referrals, right_size, encode};
ghost use Rattle.listing_write.specs.Form.{target_lines, entry_lines};
ghost use Rattle.listing_spelling.specs.unspell.Reading.{unspelled, is_spelled};
ghost use Rattle.cache_entry.specs.write_entry.Code.{add_text};
ghost use Rattle.listing_read.specs.listing_rules.Entries.{entries_said};
ghost use Rattle.listing_read.specs.listing_rules.Read.{is_listing, placed};
ghost use Rattle.listing_read.specs.fill_cache.Code.{said_at, NumberAt, NumberRead, PathAt, PathRead, TargetRead, SettingsRead, TargetsRead, EntryRead, LinesAt};

use cache::places::{HEAD, PLACE, ROOM};
use cache_entry::write_entry::Settings;
use listing_write::{HINT, PREFIX, TAKEN, TTL};

// The units of "prefix=" and of "target=".
const PATH_KEY: usize = PREFIX.len();

// With which "root" begins, and not "link".
const ROOT: u16 = b'r' as u16;

// A flag that is set.
const ONE: u16 = b'1' as u16;

// With which the line of a target begins; of those that may stand there no other does.
const TARGET: u16 = b't' as u16;

// A number that a line says, and where the next line begins.
#[derive(Clone, Copy)]
struct Read {
    value: u32,
    next: usize,
}

// The number in the line at `at`, after a key of so many units.
fn number_at(text: &[u16], at: usize, key: usize) -> Read
    requires { NumberAt key (drop at text.now) }
    ensures { NumberRead key at text.now result }
{
    let end = crate::line::line_end(text, at);
    let from = at + key;
    // the line was tested, so that it says a number: the 0 never comes
    let value = listing_spelling::unspell::decimal_form(&text[from..end]).unwrap_or(0);
    Read {
        value,
        next: end + 1,
    }
}

// Text j of place i, as the last text of the place, from its spelling.
fn put_value(value: &[u16], refs: &mut [u16], i: usize, j: usize)
    requires { (i < place_count refs.old) × ((j < 9) × ((is_spelled value.now ≡ true) × (length (unspelled value.now) ≤ room_units))) }
    ensures { refs.new ≡ changed i (add_text j (unspelled value.now)) refs.old }
{
    let at = i * PLACE;
    let start = at + HEAD + j * ROOM;
    let stop = listing_spelling::unspell::unspell(value, refs, start);
    memory::clear_units(refs, stop, start + ROOM - stop);
    memory::put_unit(refs, at + j, (stop - start) as u16);
    cache::places::put_unit(refs, i, cache::places::COUNT, j as u16);
}

// Text j of place i from the line of a prefix or a target at `at`; answers where the next line begins.
fn put_path(text: &[u16], at: usize, refs: &mut [u16], i: usize, j: usize) -> usize
    requires { (i < place_count refs.old) × ((j < 9) × PathAt (drop at text.now)) }
    ensures { PathRead at text.now i j refs.old refs.new result }
{
    let end = crate::line::line_end(text, at);
    put_value(&text[at + PATH_KEY..end], refs, i, j);
    end + 1
}

// Target n of place i, which opens no set, from the line at `at`.
fn put_target(text: &[u16], at: usize, refs: &mut [u16], i: usize, n: usize) -> usize
    requires { (i < place_count refs.old) × ((n < 8) × PathAt (drop at text.now)) }
    ensures { TargetRead at text.now i n refs.old refs.new result }
{
    let next = put_path(text, at, refs, i, 1 + n);
    cache::places::put_unit(refs, i, cache::places::MARKS + n, 0);
    next
}

// The targets of entry i into its place, up to the next entry or the end.
fn put_targets(text: &[u16], at: usize, refs: &mut [u16], i: usize) -> usize
    requires { (i < place_count refs.old) × LinesAt text.now i at (target_lines (said_at text.now i).targets) }
    ensures { TargetsRead text.now i refs.old refs.new result }
{
    let mut end = at;
    let mut n = 0;
    // goes by lines, which differ in length: where the next begins is known once this one is read
    while end < text.len() && text[end] == TARGET {
        end = put_target(text, end, refs, i, n);
        n += 1;
    }
    end
}

// The lines of entry i between its prefix and its targets: kind=, interlink= and failback=, which have 10, 12 and 11 units whatever they say, then ttl=, taken= and hint=.
fn put_settings(text: &[u16], at: usize, refs: &mut [u16], i: usize) -> usize
    requires { (i < place_count refs.old) × LinesAt text.now i at (drop 1 (entry_lines (said_at text.now i))) }
    ensures { SettingsRead text.now i refs.old refs.new result }
{
    let root = text[at + 5] == ROOT;
    let interlink = text[at + 20] == ONE;
    let failback = text[at + 31] == ONE;
    let ttl = number_at(text, at + 33, TTL.len());
    let taken = number_at(text, ttl.next, TAKEN.len());
    let hint = number_at(text, taken.next, HINT.len());
    let settings = Settings {
        root,
        interlink,
        failback,
        ttl: ttl.value,
        taken: taken.value,
    };
    cache_entry::write_entry::put_settings(refs, i, settings);
    cache::places::put_unit(refs, i, cache::places::HINT, hint.value as u16);
    hint.next
}

// Entry i of the text, which begins at `at`, into place i; answers where the next entry begins.
fn put_entry(text: &[u16], at: usize, refs: &mut [u16], i: usize) -> usize
    requires { (i < place_count refs.old) × LinesAt text.now i at (entry_lines (said_at text.now i)) }
    ensures { EntryRead text.now i refs.old refs.new result }
{
    cache::places::clear_place(refs, i);
    let settings = put_path(text, at, refs, i, 0);
    let targets = put_settings(text, settings, refs, i);
    put_targets(text, targets, refs, i)
}

// The entries of a listing into the first places of a cache; every other place becomes free.
pub fn fill(text: &[u16], refs: &mut [u16])
    requires { (right_size refs.old ≡ true) × ((is_listing text.now ≡ true) × (length (entries_said text.now) ≤ place_count refs.old)) }
    ensures { refs.new ≡ encode referrals (placed (place_count refs.old) (entries_said text.now)) }
{
    let mut at = 0;
    let mut i = 0;
    // goes by entries, which differ in length: where the next begins is known once this one is read
    while at < text.len() {
        at = put_entry(text, at, refs, i);
        i += 1;
    }
    let held = i * PLACE;
    memory::clear_units(refs, held, refs.len() - held);
}
