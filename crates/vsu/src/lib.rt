// The Virtual Boy's sound unit: state, register writes, cycles and frames, after the `vsu` module of agg23/virtualfriend.
#![tactic(auto)]

pub mod constants;
pub mod unit;
