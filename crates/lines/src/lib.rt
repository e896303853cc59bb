// What programs that answer lines share: an input cut into lines, and what a line begins with and holds.
#![tactic(auto)]

pub mod input;
pub mod reader;
pub mod words;
