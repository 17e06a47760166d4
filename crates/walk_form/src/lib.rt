// The walk as a host keeps it.
// - held: the walk as it is held, and the test of its form
// - packed: the walk as 32 units, and back
#![tactic(auto)]

pub mod held;
pub mod packed;
