// What a host does to its caches beside walks: referral entries are expired, so that the next walk refreshes them, and a domain's DCHint is moved on.
// A call that is refused changes nothing.
#![tactic(auto)]

ghost use Rattle.std.specs.Prelude.{◌≡◌, true, ◌≤◌, ◌<◌};
ghost use Rattle.cache.specs.places.Layout.{place_count};
ghost use Rattle.cache.specs.order.Memory.{referrals, decode, encode, in_order};
ghost use Rattle.cache_lookup.specs.Lookup.{with_key};
ghost use Rattle.cache_upkeep.specs.Calls.{expire_entry, dc_after, entry_changed, upkept, expire_all_call, found_expired, expire_call, next_dc_call, error_number};
ghost use Rattle.cache_upkeep.specs.Code.{formless};

use cache::places::{PLACE, ROOM, TTL};
use unc::names::PathError;

// Why such a call is refused.
#[derive(Clone, Copy, Debug, PartialEq, Eq)]
pub enum UpkeepError {
    BadPath,
    LongPath,
    NotInOrder,
    NoEntry,
}

impl From<UpkeepError> for u32 {
    ghost from_gives = { λ error n. n ≡ error_number error };

    fn from(error: UpkeepError) -> u32 {
        match error {
            UpkeepError::BadPath => 1,
            UpkeepError::LongPath => 2,
            UpkeepError::NotInOrder => 4,
            UpkeepError::NoEntry => 27,
        }
    }
}

#[tactic(auto, unfolding(crate::specs::Code::formless))]
impl From<PathError> for UpkeepError {
    ghost from_gives = { λ error refusal. refusal ≡ formless error };

    fn from(error: PathError) -> UpkeepError {
        match error {
            PathError::Bad => UpkeepError::BadPath,
            PathError::Long => UpkeepError::LongPath,
        }
    }
}

// Expires the entry at place i; a free place stays.
fn expire_at(refs: &mut [u16], i: usize)
    requires { (in_order referrals refs.old ≡ true) × (i < place_count refs.old) }
    ensures { refs.new ≡ encode referrals (entry_changed expire_entry i (decode referrals refs.old)) }
{
    if cache::places::unit(refs, i, 0) == 0 {
        return;
    }
    cache::places::put_wide(refs, i, TTL, 0);
}

// Expires every entry of a referral cache.
pub fn expire_all(refs: &mut [u16]) -> Result<(), UpkeepError>
    ensures { upkept result refs.new ≡ expire_all_call refs.old }
{
    if !cache::order::referrals_in_order(refs) {
        return Err(UpkeepError::NotInOrder);
    }
    let count = refs.len() / PLACE;
    for i in 0..count {
        expire_at(refs, i);
    }
    Ok(())
}

// Expires the entry of an equal prefix.
fn expire_prefix(refs: &mut [u16], prefix: &[u16]) -> Result<(), UpkeepError>
    requires { in_order referrals refs.old ≡ true }
    ensures { upkept result refs.new ≡ found_expired (with_key referrals prefix.now (decode referrals refs.old)) refs.old }
{
    let Some(i) = cache_lookup::find_prefix(refs, prefix) else {
        return Err(UpkeepError::NoEntry);
    };
    expire_at(refs, i);
    Ok(())
}

// Expires the entry whose prefix is equal to the path.
pub fn expire(refs: &mut [u16], path: &[u16]) -> Result<(), UpkeepError>
    ensures { upkept result refs.new ≡ expire_call refs.old path.now }
{
    if !cache::order::referrals_in_order(refs) {
        return Err(UpkeepError::NotInOrder);
    }
    let mut room = [0; ROOM];
    let form = unc::path_form::normalise(path, &mut room)?;
    expire_prefix(refs, &room[..form.units])
}

// The DC after number j of n, round past the last.
fn after(j: u16, n: usize) -> u16
    requires { (0 < n) × (n ≤ 8) }
    ensures { result ≡ dc_after j n }
{
    if n <= j as usize + 1 { 0 } else { j + 1 }
}

// Moves the DCHint of the domain of an equal name to its next DC.
pub fn next_dc(doms: &mut [u16], name: &[u16]) -> Result<(), UpkeepError>
    ensures { upkept result doms.new ≡ next_dc_call doms.old name.now }
{
    if !cache::order::domains_in_order(doms) {
        return Err(UpkeepError::NotInOrder);
    }
    let Some(i) = cache_lookup::find_domain(doms, name) else {
        return Err(UpkeepError::NoEntry);
    };
    let count = cache_lookup::dc_count(doms, i);
    if count == 0 {
        return Err(UpkeepError::NoEntry);
    }
    let hint = after(cache_lookup::dc_hint(doms, i), count);
    cache_lookup::set_dc_hint(doms, i, hint);
    Ok(())
}
