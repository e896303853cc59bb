// The cycle count of a frame that the Rust's constants.rs comes to at 20 MHz.
pub const SOUND_SAMPLE_RATE_CYCLE_COUNT: u32 = 480;
