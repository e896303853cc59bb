// The cycle counts of a sample's tick that the Rust's constants.rs comes to at 20 MHz.
pub const WAVE_CHANNEL_BASE_FREQUENCY_CYCLE_COUNT: u32 = 4;

pub const NOISE_CHANNEL_BASE_FREQUENCY_CYCLE_COUNT: u32 = 40;
