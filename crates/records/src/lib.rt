// Backend memory by records: a port whole, and what is kept of a started request. Where each word stands is `memory`'s.
#![tactic(auto)]

mod port;
mod tag;
mod words;

pub use port::{port_at, set_port};
pub use tag::{serial_at, set_tag, tag_at};
