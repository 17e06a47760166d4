// What the program `walk` prints: document 01, "Examples to hold it to".
// - printed: every line that is printed, defined; the line of a status
// - outcome_lines: a question, an end and a refusal as lines
// - outcome: what is printed after a call: a refusal, the question that waits, or the end
#![tactic(auto)]

pub mod outcome;
pub mod outcome_lines;
pub mod printed;
