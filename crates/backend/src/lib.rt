// Opening and closing a port. All that is remembered between calls is the lent memory.
// No call asks anything of its arguments: what it cannot take it refuses, and then changes nothing.
#![tactic(auto)]

mod open_close;

pub use open_close::{close, open};
