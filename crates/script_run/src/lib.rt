// The program `walk` between its input and its output.
// - call_due: the call that is due, made, and what is printed after it
// - stream: standard input and output: a piece read, a call made, its lines written
#![tactic(auto)]

pub mod call_due;
pub mod stream;
