// The checks of a request that look at nothing but what it asks for: 21 to 25.
#![tactic(auto)]

mod operations;

pub use operations::check_operation;
