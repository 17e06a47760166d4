// A line of the input of the program `walk`: document 01, "Examples to hold it to".
// - line_bytes: the bytes of a line as they come, and hex digits
// - lines: a line to a setting or an answer
#![tactic(auto)]

pub mod line_bytes;
pub mod lines;
