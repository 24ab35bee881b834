// A guest's request (section 16 of docs/RULES.md): the words that say it, and whether it may be put. It knows neither a page nor a guest's memory.
#![tactic(auto)]

mod request;

pub use request::{
    BARRIER, COUNT, DISCARD, FLAG, FLUSH, FRAME_VALUES, ID, OPERATION, SECTORS, SEGMENT_WORDS,
    SEGMENTS, START, wrong_asking, wrong_segments,
};
