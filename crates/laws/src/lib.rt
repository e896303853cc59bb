// No code: laws on tests and choices that several crates' proofs cite.
#![tactic(auto)]
