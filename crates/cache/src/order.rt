// The order of the two lent caches (document 01, "The two caches"): which memory they are, and what it holds.
ghost use Rattle.std.specs.Prelude.{◌≡◌, ◌&&◌, ◌<◌};
ghost use Rattle.laws.specs.Listed.{same_list};
ghost use Rattle.cache.specs.places.Layout.{place_count};
ghost use Rattle.cache.specs.order.Order.{good_referral, good_domain};
ghost use Rattle.cache.specs.order.Memory.{referrals, domains, referral_of, referral_units, domain_of, domain_units, right_size, in_order};
ghost use Rattle.cache.specs.order.Code.{good_text, good_texts, good_flags, ordered_as, all_ordered, in_order_as, key_apart, keys_apart};

use crate::places::{self, COUNT, FREE, HINT, MARKS, PLACE, TTL};

pub const PLACES: usize = 32;

// Here and below `domain` says which cache it is: a flag, since the definitions that the contracts cite take the same one.
#[tactic(auto, unfolding(crate::specs::order::Code::good_text, crate::specs::order::Order::good_prefix, laws::specs::Choice::choose))]
fn text_good(text: &[u16], domain: bool) -> bool
    ensures { result ≡ good_text domain text.now }
{
    if domain {
        unc::names::good_name(text)
    } else {
        2 <= unc::path_form::normalised_count(text)
    }
}

// Whether the key and the texts of the list of a place are good.
fn texts_good(piece: &[u16; PLACE], domain: bool) -> bool
    ensures { result ≡ good_texts domain piece.now }
{
    let texts = 1 + places::list_count(piece, 0);
    (0..texts).all(|j| text_good(places::text(piece, 0, j), domain))
}

// Whether the set boundaries and the flags of a referral entry, which stand side by side up to its numbers, are 0 or 1.
fn flags_good(piece: &[u16; PLACE]) -> bool
    ensures { result ≡ good_flags piece.now }
{
    piece[MARKS..TTL].iter().all(|unit| *unit <= 1)
}

// The order of a used place of the referral cache.
#[tactic(auto, using(crate::proofs::order::PlaceLaws::referral_tested))]
fn referral_ordered(piece: &[u16; PLACE]) -> bool
    ensures { result ≡ (good_referral (referral_of piece.now) && same_list (referral_units (referral_of piece.now)) piece.now) }
{
    places::is_tidy(piece)
        && flags_good(piece)
        && piece[MARKS] == 0
        && piece[HINT] < piece[COUNT]
        && texts_good(piece, false)
}

// The order of a used place of the domain cache.
#[tactic(auto, using(crate::proofs::order::PlaceLaws::domain_tested))]
fn domain_ordered(piece: &[u16; PLACE]) -> bool
    ensures { result ≡ (good_domain (domain_of piece.now) && same_list (domain_units (domain_of piece.now)) piece.now) }
{
    places::is_tidy(piece)
        && places::all_zero(piece, MARKS, FREE)
        && (piece[HINT] == 0 || piece[HINT] < piece[COUNT])
        && texts_good(piece, true)
}

fn place_ordered(piece: &[u16; PLACE], domain: bool) -> bool
    ensures { result ≡ ordered_as domain piece.now }
{
    if piece[0] == 0 {
        places::all_zero(piece, 0, PLACE)
    } else if domain {
        domain_ordered(piece)
    } else {
        referral_ordered(piece)
    }
}

fn places_ordered(cache: &[u16], domain: bool) -> bool
    ensures { result ≡ all_ordered domain cache.now }
{
    let (places, _) = cache.as_chunks::<PLACE>();
    places.iter().all(|piece| place_ordered(piece, domain))
}

// Whether place i is free, or no later place has a key equal to its own.
fn key_apart(cache: &[u16], i: usize) -> bool
    requires { i < place_count cache.now }
    ensures { result ≡ key_apart cache.now i }
{
    let count = cache.len() / PLACE;
    let key = places::text(cache, i, 0);
    places::unit(cache, i, 0) == 0
        || (i + 1..count).all(|j| !unc::names::same_name(key, places::text(cache, j, 0)))
}

fn keys_apart(cache: &[u16]) -> bool
    ensures { result ≡ keys_apart cache.now }
{
    let count = cache.len() / PLACE;
    (0..count).all(|i| key_apart(cache, i))
}

// Whether lent memory has 1 to 32 places and no part of one left over.
#[tactic(auto, unfolding(crate::specs::order::Memory::right_size))]
pub fn right_size(cache: &[u16]) -> bool
    ensures { result ≡ right_size cache.now }
{
    let count = cache.len() / PLACE;
    (1..=PLACES).contains(&count) && count * PLACE == cache.len()
}

#[tactic(auto, using(crate::proofs::order::TestLaws::order_as))]
fn in_order(cache: &[u16], domain: bool) -> bool
    ensures { result ≡ in_order_as domain cache.now }
{
    right_size(cache) && places_ordered(cache, domain) && keys_apart(cache)
}

#[tactic(auto, unfolding(crate::specs::order::Code::in_order_as, laws::specs::Choice::choose))]
pub fn referrals_in_order(cache: &[u16]) -> bool
    ensures { result ≡ in_order referrals cache.now }
{
    in_order(cache, false)
}

#[tactic(auto, unfolding(crate::specs::order::Code::in_order_as, laws::specs::Choice::choose))]
pub fn domains_in_order(cache: &[u16]) -> bool
    ensures { result ≡ in_order domains cache.now }
{
    in_order(cache, true)
}
