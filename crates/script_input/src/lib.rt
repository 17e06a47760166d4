// The input of the program `walk` as it comes: document 01, "Examples to hold it to".
// - pieces: a line as pieces of the input come
// - line_order: which line may follow which, where the input may end, and which call is due
#![tactic(auto)]

pub mod line_order;
pub mod pieces;
