// The order test and the look-up for programs in other languages: the benchmark in host/bench links this.
ghost use Rattle.std.specs.Prelude.{◌≡◌};
ghost use Rattle.cache.specs.order.Memory.{referrals, decode, in_order, most_places};
ghost use Rattle.cache_lookup.specs.Lookup.{longest_match, found_or};

// Whether a referral cache is in order.
#[unsafe(no_mangle)]
pub extern "C" fn probe_in_order(cache: &[u16]) -> bool
    ensures { result ≡ in_order referrals cache.now }
{
    cache::order::referrals_in_order(cache)
}

// The place of the longest match, or 32 where there is none.
#[unsafe(no_mangle)]
pub extern "C" fn probe_find(cache: &[u16], path: &[u16]) -> usize
    ensures { result ≡ found_or most_places (longest_match path.now (decode referrals cache.now)) }
{
    let Some(i) = cache_lookup::find(cache, path) else {
        return cache::order::PLACES;
    };
    i
}
