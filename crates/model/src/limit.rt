// A request has at most so many segments, each within a frame, whose last sector is LAST_IN_FRAME.
pub const MOST_SEGMENTS: u8 = 11;

pub const LAST_IN_FRAME: u8 = 7;

// Beside a plan there is a place for each segment's extent, of EXTENT_WORDS words.
pub const EXTENTS: usize = MOST_SEGMENTS as usize;

pub const EXTENT_WORDS: usize = 4;

pub const PLAN_WORDS: usize = EXTENT_WORDS * EXTENTS;

// A list of completions has at most so many entries, of ENTRY_WORDS words each.
pub const MOST_COMPLETIONS: usize = 64;

pub const ENTRY_WORDS: usize = 3;

// The frames of a port that have a grant byte.
pub const FRAMES: u32 = 1024;
