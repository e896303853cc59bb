// Channel 5's sweep and modulation.
#![tactic(auto)]

pub mod constants;
pub mod sweep_modulate;
