// The two caches in lent memory: document 01, "The two caches".
// - places: one place of 2,336 units, the layout of both caches: reading and writing it
// - order: what an entry is, the caches that memory holds, and whether they are in order
#![tactic(auto)]

pub mod order;
pub mod places;
