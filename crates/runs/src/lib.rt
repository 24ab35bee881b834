// A plan's extents joined to runs, for a host that makes one disk call for several extents. It knows extents and nothing of rings.
#![tactic(auto)]

mod call;
mod extent;
mod joining;
mod list;
mod sound;

pub use call::{judge, put_joined, taken};
pub use list::fill;

// A run of sectors: where it begins in the machine's memory, how long it is, and where it goes on the disk (rule 17.13). The host's record, laid out as in C.
#[repr(C)]
#[derive(Clone, Copy)]
pub struct Run {
    pub frame: u64,
    pub first: u64,
    pub length: u64,
    pub sector: u64,
}

// The first run of some extents, and the place behind its last one.
#[derive(Clone, Copy)]
pub struct FirstRun {
    pub run: Run,
    pub next: usize,
}
