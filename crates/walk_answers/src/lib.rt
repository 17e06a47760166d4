// The answers to the questions of a walk.
// - referral_answer: the answer to a referral request: 27, then the status, then the reply
// - io_answer: the answer to an I/O try: done, a link request, the next target, or an end
#![tactic(auto)]

pub mod io_answer;
pub mod referral_answer;
