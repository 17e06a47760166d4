// A reply and one entry of a cache: document 01, "Storing", and source document 001.
// - equivalent_targets: whether the targets of a reply are equivalent to those that an entry holds
// - write_entry: an entry written into its place, its texts from a reply
#![tactic(auto)]

pub mod equivalent_targets;
pub mod write_entry;
