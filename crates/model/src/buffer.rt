// The numbers of the buffers that the host lends.
use crate::limit::{FRAMES, PLAN_WORDS};

// Ports of a backend, one guest disk each (rule 1.1).
pub const PORTS: usize = 8;

// A page. Each port's share of the ring buffer, which has room for two, and the whole of it (rule 1.3).
pub const PAGE_BYTES: usize = 4096;

pub const RING_SHARE: usize = 2 * PAGE_BYTES;

pub const RINGS_BYTES: usize = PORTS * RING_SHARE;

// Each port's share of the grant buffer, a byte to a frame, and the whole of it (rule 1.4).
pub const PORT_GRANTS: usize = FRAMES as usize;

pub const GRANTS_BYTES: usize = PORTS * PORT_GRANTS;

// A turn's answer: all words, and where those of the extents stand among them (rule 14.7).
pub const TURN_WORDS: usize = 64;

pub const TURN_EXTENTS: usize = 16;

pub const TURN_EXTENTS_END: usize = TURN_EXTENTS + PLAN_WORDS;

// The words of a completion's answer (rule 14.8).
pub const DONE_WORDS: usize = 4;

// The words of the answer to a list of completions (rule 14.15).
pub const MANY_WORDS: usize = 68;

// The word of the answer to joining (rule 17.16).
pub const JOIN_WORDS: usize = 1;

// What a guest lends: its page, its own memory, a request, and words for the two answers (rules 16.1 and 16.16 to 16.19).
pub const GUEST_PAGE_BYTES: usize = PAGE_BYTES;

pub const GUEST_WORDS: usize = 67;

pub const REQUEST_WORDS: usize = 41;

pub const PUT_WORDS: usize = 1;

pub const COLLECT_WORDS: usize = 4;
