// An entry written into its place, its texts from a reply: document 01, "Storing".
ghost use Rattle.std.specs.Prelude.{◌≡◌, true, map, length, ◌≤◌, ◌<◌};
ghost use Rattle.laws.specs.Lists.{every};
ghost use Rattle.reply_bytes.specs.texts.Code.{spanned, Inside};
ghost use Rattle.cache.specs.places.Layout.{place_count, room_units};
ghost use Rattle.cache.specs.places.Code.{changed, put_settings};
ghost use Rattle.reply_read.specs.referral.Code.{target_shown};
ghost use Rattle.cache_entry.specs.write_entry.Code.{add_text, add_target, add_all, begun, settings, kept_fits};

use cache::places::{HEAD, PLACE, ROOM};
use reply_bytes::texts::Span;
use reply_read::referral::Kept;

// What an entry says beside its prefix, its targets and its hint; `taken` is the time at which it was taken.
#[derive(Clone, Copy)]
pub struct Settings {
    pub root: bool,
    pub interlink: bool,
    pub failback: bool,
    pub ttl: u32,
    pub taken: u32,
}

// Text n of place i from the reply, as the last text of the place.
pub fn add_text(cache: &mut [u16], i: usize, n: usize, reply: &[u8], s: Span)
    requires { (i < place_count cache.old) × ((n < 9) × (Inside reply.now s × (s.units ≤ room_units))) }
    ensures { cache.new ≡ changed i (add_text n (spanned reply.now s)) cache.old }
{
    let at = i * PLACE;
    memory::put_unit(cache, at + n, s.units as u16);
    reply_bytes::texts::put_span(reply, s, cache, at + HEAD + n * ROOM, ROOM);
    cache::places::put_unit(cache, i, cache::places::COUNT, n as u16);
}

// Target n of place i from the reply.
fn add_target(cache: &mut [u16], i: usize, n: usize, reply: &[u8], k: Kept)
    requires { (i < place_count cache.old) × ((n < 8) × (kept_fits reply.now k ≡ true)) }
    ensures { cache.new ≡ changed i (add_target n (target_shown reply.now k)) cache.old }
{
    add_text(cache, i, 1 + n, reply, k.path);
    cache::places::put_unit(cache, i, cache::places::MARKS + n, u16::from(k.opens));
}

// The targets of the reply into place i, which has none.
pub fn add_targets(cache: &mut [u16], i: usize, reply: &[u8], given: &[Kept])
    requires { (i < place_count cache.old) × ((length given.now ≤ 8) × (every (kept_fits reply.now) given.now ≡ true)) }
    ensures { cache.new ≡ changed i (add_all add_target 0 (map (target_shown reply.now) given.now)) cache.old }
{
    for (n, k) in given.iter().enumerate() {
        add_target(cache, i, n, reply, *k);
    }
}

// Place i with a prefix from the reply and nothing else.
pub fn begin_entry(cache: &mut [u16], i: usize, reply: &[u8], s: Span)
    requires { (i < place_count cache.old) × (Inside reply.now s × (s.units ≤ room_units)) }
    ensures { cache.new ≡ changed i (begun (spanned reply.now s)) cache.old }
{
    cache::places::clear_place(cache, i);
    add_text(cache, i, 0, reply, s);
}

// Root, Interlink, TargetFailback, TTL and the time taken of place i.
pub fn put_settings(cache: &mut [u16], i: usize, s: Settings)
    requires { i < place_count cache.old }
    ensures { cache.new ≡ changed i (put_settings (settings s.root s.interlink s.failback s.ttl s.taken)) cache.old }
{
    cache::places::put_settings(
        cache,
        i,
        u16::from(s.root),
        u16::from(s.interlink),
        u16::from(s.failback),
        s.ttl,
        s.taken,
    );
}
