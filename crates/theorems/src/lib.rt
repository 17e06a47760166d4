// What is claimed of whole calls and of the program: definitions (specs/) and theorems (proofs/). It has no function.
// - keeps: what calls keep: order, form, entries that are not named, the entry that a question uses
// - limit: demand 3: a limit only cuts a walk short
// - examples: document 01's examples marked P
// - one_outcome: a call that is taken prints just one outcome
// - read_back: what is printed is read back
#![tactic(auto)]
