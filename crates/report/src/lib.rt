// What the programs print: text laid in a buffer, lines, the sums of frames and bytes, the progress of long work; and where they print it.
#![tactic(auto)]

pub mod input;
pub mod out;
pub mod print;
pub mod progress;
pub mod streams;
pub mod sum;
pub mod terminal;
pub mod text;
pub mod work;
