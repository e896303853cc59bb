// One voice of the sound unit: a common record and its kind, with the waves and the noise's shift register.
#![tactic(auto)]

pub mod channel_enum;
pub mod constants;
pub mod waveform;
