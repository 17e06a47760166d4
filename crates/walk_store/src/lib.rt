// A reply taken into the caches, the steps that follow, and both caches put back where the request that then waits does not fit the buffer.
// - party_hint: the hint of the party that answered, set and taken back
// - reply_taken: the reply read, tested and stored
// - after_reply: on with the steps, and both caches put back
#![tactic(auto)]

pub mod after_reply;
pub mod party_hint;
pub mod reply_taken;
