// The checks of a request's range on the disk: 28 and 29. And what 29 asks of any two numbers.
#![tactic(auto)]

mod alignment;
mod disk_range;

pub use alignment::{are_aligned, unit_of};
pub use disk_range::check_range;
