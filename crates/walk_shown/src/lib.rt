// What a host is shown of a walk.
// - question: the party and the name of the question that waits
// - numbers: the numbers of a question, and the numbers and the path of an end
#![tactic(auto)]

pub mod numbers;
pub mod question;
