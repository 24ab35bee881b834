// A turn's way round the ports: the look for one with something to serve.
#![tactic(auto)]

mod pick;

pub use pick::pick_port;
