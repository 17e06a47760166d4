// The calls of a host.
// - call_end: how a call ends: the walk, its texts and its request, or a refusal
// - resting: the tests of memory of any content: both caches in order, and where the walk rests
// - start_steps: the steps of a start whose path has been tested
// - answer_steps: the steps that an answer brings to a walk in form
// - calls: start, answer_referral and answer_io
#![tactic(auto)]

pub mod answer_steps;
pub mod call_end;
pub mod calls;
pub mod resting;
pub mod start_steps;
