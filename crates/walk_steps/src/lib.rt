// The steps of a walk: source document 000, with document 01's choices.
// - walk_texts: the lent texts of a walk: the path and the path tried
// - steps: the steps, and those that look up or put a question
// - cycle: the steps that call each other: lookup, domain, link and interlink
// - question_request: the request of the question that waits
// - rounds: rounds over DCs and targets: the next party after a failure, or an end
#![tactic(auto)]

pub mod cycle;
pub mod question_request;
pub mod rounds;
pub mod steps;
pub mod walk_texts;
