// The six voices of the sound unit: power-on, the steps of a cycle, what they add to a frame, their range rules.
#![tactic(auto)]

pub mod unit;
