// A root, link or SYSVOL reply into the referral cache: a new entry, or one refreshed.
ghost use Rattle.std.specs.Prelude.{◌≡◌, true, false, ◌<◌};
ghost use Rattle.cache.specs.places.Layout.{place_count};
ghost use Rattle.reply_bytes.specs.texts.Code.{spanned, Inside};
ghost use Rattle.cache.specs.order.Memory.{referrals, decode, encode, in_order};
ghost use Rattle.cache_store.specs.entry_after_reply.Stored.{stored, store_place};
ghost use Rattle.reply_read.specs.referral.Code.{referral_shown};
ghost use Rattle.cache_store.specs.entry_after_reply.Code.{Storable, HeldEntry, equivalent_at, refreshed_at, inserted_at};

use reply_bytes::texts::Span;
use reply_read::referral::ReferralFound;

// A new entry into place i.
fn insert(
    cache: &mut [u16],
    i: usize,
    reply: &[u8],
    found: ReferralFound,
    interlink: bool,
    clock: u32,
)
    requires { (i < place_count cache.old) × Storable reply.now found }
    ensures { cache.new ≡ inserted_at i reply.now found interlink clock cache.old }
{
    cache_entry::write_entry::begin_entry(cache, i, reply, found.prefix);
    cache_entry::write_entry::add_targets(cache, i, reply, &found.kept[..found.targets]);
    crate::entry_after_reply::settle(cache, i, found, interlink, clock);
}

// The entry at place i refreshed by a reply with an equivalent list: its targets stay.
fn refresh_held(
    cache: &mut [u16],
    i: usize,
    reply: &[u8],
    found: ReferralFound,
    interlink: bool,
    clock: u32,
)
    requires { HeldEntry i cache.old × (equivalent_at i cache.old reply.now found ≡ true) }
    ensures { cache.new ≡ refreshed_at i reply.now found interlink clock cache.old }
{
    let hint = crate::entry_after_reply::held_place(cache, i);
    crate::entry_after_reply::settle(cache, i, found, interlink, clock);
    crate::entry_after_reply::put_hint(cache, i, hint, found.failback);
}

// The same by a reply with another list: it takes the place of the old one.
fn refresh_given(
    cache: &mut [u16],
    i: usize,
    reply: &[u8],
    found: ReferralFound,
    interlink: bool,
    clock: u32,
)
    requires { HeldEntry i cache.old × (Storable reply.now found × (equivalent_at i cache.old reply.now found ≡ false)) }
    ensures { cache.new ≡ refreshed_at i reply.now found interlink clock cache.old }
{
    let given = &found.kept[..found.targets];
    let hint = crate::entry_after_reply::given_place(cache, i, reply, given);
    cache::places::keep_key(cache, i);
    cache_entry::write_entry::add_targets(cache, i, reply, given);
    crate::entry_after_reply::settle(cache, i, found, interlink, clock);
    crate::entry_after_reply::put_hint(cache, i, hint, found.failback);
}

// The entry at place i refreshed.
fn refresh(
    cache: &mut [u16],
    i: usize,
    reply: &[u8],
    found: ReferralFound,
    interlink: bool,
    clock: u32,
)
    requires { HeldEntry i cache.old × Storable reply.now found }
    ensures entry { cache.new ≡ refreshed_at i reply.now found interlink clock cache.old }
{
    let given = &found.kept[..found.targets];
    if cache_entry::equivalent_targets::equivalent(cache, i, reply, given, found.version) {
        refresh_held(cache, i, reply, found, interlink, clock);
    } else {
        refresh_given(cache, i, reply, found, interlink, clock);
    }
}

// The place that a store will write: that of the entry with an equal prefix, else the one that a new entry takes.
#[tactic(auto, unfolding(crate::specs::entry_after_reply::Stored::store_place, cache_lookup::specs::Lookup::found_or))]
pub fn store_place(cache: &[u16], reply: &[u8], prefix: Span, clock: u32) -> usize
    requires { Inside reply.now prefix }
    ensures { result ≡ store_place clock (spanned reply.now prefix) (decode referrals cache.now) }
{
    crate::entry_after_reply::find_prefix(cache, reply, prefix).unwrap_or_else(
        || cache_lookup::new_place(cache, clock),
    )
}

// A reply into a referral cache in order: the entry with an equal prefix is refreshed, else there is a new one.
pub fn store(cache: &mut [u16], reply: &[u8], found: ReferralFound, interlink: bool, clock: u32)
    requires { (in_order referrals cache.old ≡ true) × Storable reply.now found }
    ensures { cache.new ≡ encode referrals (stored (referral_shown reply.now found) interlink clock (decode referrals cache.old)) }
{
    match crate::entry_after_reply::find_prefix(cache, reply, found.prefix) {
        Some(i) => refresh(cache, i, reply, found, interlink, clock),
        None => {
            let place = cache_lookup::new_place(cache, clock);
            insert(cache, place, reply, found, interlink, clock);
        }
    }
}
