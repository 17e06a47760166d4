// What a reply makes of the caches: document 01, "Storing", and source document 001.
// - entry_after_reply: what an entry becomes by a reply: targets, hint and settings, of a new entry and of a refreshed one
// - new_or_refreshed: a root, link or SYSVOL reply into the referral cache: a new entry, or one refreshed
// - domain_cache: DC and domain replies into the domain cache, and the request for domains
#![tactic(auto)]

pub mod domain_cache;
pub mod entry_after_reply;
pub mod new_or_refreshed;
