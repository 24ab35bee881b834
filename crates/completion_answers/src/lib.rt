// The answers of completions as the words and the number that C reads: that of one, and that of a list.
#![tactic(auto)]

pub mod completed;
pub mod many;

pub use completed::put_completed;
pub use many::put_many;
