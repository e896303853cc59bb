// The cycle counts of a sweep that the Rust's constants.rs comes to at 20 MHz.
pub const SWEEP_SLOW_CYCLE_COUNT: u32 = 153_609;

pub const SWEEP_FAST_CYCLE_COUNT: u32 = 19_201;
