// The cycle counts that the Rust's constants.rs comes to at 20 MHz.
pub const SOUND_LIVE_INTERVAL_CYCLE_COUNT: u32 = 76_805;

pub const ENVELOPE_CYCLE_COUNT: u32 = 307_219;
