// What `replay` reads and writes: lines with numbers in them, and answers as text.
#![tactic(auto)]

pub mod input;
pub mod output;
