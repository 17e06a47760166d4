// A reply into the caches: document 01, "Storing", and source document 001.
ghost use Rattle.std.specs.Prelude.{◌≡◌, true, map, ◌≤◌, ◌<◌, length};
ghost use Rattle.laws.specs.Lists.{every};
ghost use Rattle.reply_bytes.specs.texts.Code.{spanned, Inside};
ghost use Rattle.cache.specs.places.Layout.{place_count, hint_unit};
ghost use Rattle.cache.specs.places.Code.{changed, put_unit, put_settings};
ghost use Rattle.cache.specs.order.Memory.{referrals, decode};
ghost use Rattle.cache_lookup.specs.Code.{entry_at};
ghost use Rattle.cache_lookup.specs.Lookup.{with_key};
ghost use Rattle.reply_read.specs.referral.Code.{target_shown};
ghost use Rattle.cache_store.specs.entry_after_reply.Stored.{first_equal, hinted, in_first_set, failed_back};
ghost use Rattle.cache_entry.specs.write_entry.Code.{kept_fits, settings};

use cache_entry::write_entry::Settings;
use reply_bytes::texts::{ByteText, Span};
use reply_read::referral::{Kept, ReferralFound};

// The place of the entry whose prefix is equal to one in the reply.
pub fn find_prefix(cache: &[u16], reply: &[u8], s: Span) -> Option<usize>
    requires { Inside reply.now s }
    ensures { result ≡ with_key referrals (spanned reply.now s) (decode referrals cache.now) }
{
    cache_lookup::find_key(
        cache,
        ByteText {
            bytes: reply,
            span: s,
        },
    )
}

// The first target of the entry at place i that is equal to the one hinted at.
pub fn held_place(cache: &[u16], i: usize) -> usize
    requires { (i < place_count cache.now) × ((entry_at referrals i cache.now).hint < length (entry_at referrals i cache.now).targets) }
    ensures { result ≡ first_equal 0 (hinted (entry_at referrals i cache.now)) (entry_at referrals i cache.now).targets }
{
    let count = cache_lookup::target_count(cache, i);
    let hint = cache_lookup::target_hint(cache, i) as usize;
    let path = cache_lookup::target(cache, i, hint);
    for j in 0..count {
        if unc::names::same_name(cache_lookup::target(cache, i, j), path) {
            return j;
        }
    }
    0
}

// The first target of the reply that is equal to the one that the entry at place i hints at; 0 where there is none.
pub fn given_place(cache: &[u16], i: usize, reply: &[u8], given: &[Kept]) -> usize
    requires { (i < place_count cache.now) × (((entry_at referrals i cache.now).hint < length (entry_at referrals i cache.now).targets) × ((length given.now ≤ 8) × (every (kept_fits reply.now) given.now ≡ true))) }
    ensures { result ≡ first_equal 0 (hinted (entry_at referrals i cache.now)) (map (target_shown reply.now) given.now) }
{
    let hint = cache_lookup::target_hint(cache, i) as usize;
    let path = cache_lookup::target(cache, i, hint);
    for (n, k) in given.iter().enumerate() {
        if reply_bytes::texts::same_span(reply, k.path, path) {
            return n;
        }
    }
    0
}

// Whether target `hint` of the entry at place i is in its first target set.
fn in_first_set(cache: &[u16], i: usize, hint: usize) -> bool
    requires { (i < place_count cache.now) × (hint < length (entry_at referrals i cache.now).targets) }
    ensures { result ≡ in_first_set hint (entry_at referrals i cache.now).targets }
{
    for k in 0..hint {
        if cache_lookup::target_opens(cache, i, 1 + k) {
            return false;
        }
    }
    true
}

// The hint of place i: target `hint`, or by failback the first where that is not in the first set.
#[tactic(auto, unfolding(crate::specs::entry_after_reply::Stored::failed_back, laws::specs::Choice::choose))]
pub fn put_hint(cache: &mut [u16], i: usize, hint: usize, failback: bool)
    requires { (i < place_count cache.old) × (hint < length (entry_at referrals i cache.old).targets) }
    ensures { cache.new ≡ changed i (put_unit hint_unit (failed_back failback (entry_at referrals i cache.old).targets hint)) cache.old }
{
    let back = failback && !in_first_set(cache, i, hint);
    let hint = if back { 0 } else { hint as u16 };
    cache::places::put_unit(cache, i, cache::places::HINT, hint);
}

// The settings of the reply, and the time taken, into place i.
pub fn settle(cache: &mut [u16], i: usize, found: ReferralFound, interlink: bool, clock: u32)
    requires { i < place_count cache.old }
    ensures { cache.new ≡ changed i (put_settings (settings found.root interlink found.failback found.ttl clock)) cache.old }
{
    let settings = Settings {
        root: found.root,
        interlink,
        failback: found.failback,
        ttl: found.ttl,
        taken: clock,
    };
    cache_entry::write_entry::put_settings(cache, i, settings);
}
