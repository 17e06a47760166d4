// Exports for the tests in host/.
// - layouts: what the readers of replies find, as numbers
// - bench: the order test and the look-up
#![tactic(auto)]

pub mod bench;
pub mod layouts;
