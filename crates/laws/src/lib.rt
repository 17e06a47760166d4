// General definitions (specs/) and laws (proofs/) that several crates cite. It has no function.
#![tactic(auto)]
