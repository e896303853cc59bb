// How far each part of a voice is from its next change, and what it is some cycles on.
#![tactic(auto)]

pub mod channel_enum;
pub mod distance;
mod envelope;
mod live;
pub mod pitch;
mod sample;
mod sweep_modulate;
