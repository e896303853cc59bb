// What all six voices have: the common record, what a register write does to it, and its part in the steps of a cycle.
#![tactic(auto)]

pub mod bits;
pub mod channel;
pub mod constants;
