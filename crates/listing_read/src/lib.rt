// A listing read into a referral cache: document 01, "The listing".
// - line: one line of a listing
// - listing_rules: what a text says and when it is a listing: definitions (specs/) and theorems (proofs/)
// - check_listing: whether a text is a listing, and of how many entries
// - fill_cache: the entries of a listing into the places of a cache
// - read_listing: a text into a referral cache; a refusal changes nothing
#![tactic(auto)]

pub mod check_listing;
pub mod fill_cache;
pub mod line;
pub mod read_listing;
