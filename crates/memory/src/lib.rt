// Backend memory: all that the backend remembers, in one array of words that the host lends. One field to a word; all
// zeros are the empty backend. Port k has the STRIDE words from STRIDE * k on: its own PORT_WORDS, then TAG_WORDS for
// each of its TAGS tags. The pointer is the last word.
//
// a port: 0 state · 1 writable · 2 barrier · 3 flush · 4 discard · 5 secure
//         6 sector size (its exponent above 512) · 7 sectors · 8 abi · 9 pages (0, or 32 where there is a second)
//         10 consumed · 11 produced · 12 busy
// a tag:  0 id · 1 operation · 2 serial · 3 expected
//
// Reading is total: no content of the words is wrong. Callers see the backend that the words say (specs/Backend.antt),
// and no word; only `records`, which has the port whole and the tags, reads words.
#![tactic(auto)]

ghost use Rattle.std.specs.Prelude.{◌≡◌};
ghost use Rattle.model.specs.Backend.{with_pointer};
ghost use Rattle.memory.specs.Backend.{backend_of, Becomes};

use model::PortIndex;
use model::buffer::PORTS;

mod fields;
mod port;
mod words;

pub use fields::Field;
pub use port::{
    abi, busy_marks, consumed, format, pages, produced, set_busy_marks, set_consumed, set_produced,
    set_state, state,
};
pub use words::field_at;

pub const PORT_WORDS: usize = 13;

pub const TAG_WORDS: usize = 4;

// A tag to each mark, and so to each slot of the largest ring.
pub const TAGS: usize = 64;

pub const STRIDE: usize = PORT_WORDS + TAG_WORDS * TAGS;

pub const POINTER: usize = STRIDE * PORTS;

pub const WORDS: usize = POINTER + 1;

// The port that a turn looks at first.
#[tactic(auto, unfolding(crate::specs::Backend::backend_of, crate::specs::Words::pointer_at))]
pub fn pointer(m: &[u64; WORDS]) -> PortIndex
    ensures { result.index ≡ (backend_of m.now).pointer }
{
    PortIndex::new(m[POINTER] as usize % PORTS)
}

pub fn set_pointer(m: &mut [u64; WORDS], k: PortIndex)
    ensures { Becomes m.old (with_pointer (backend_of m.old) k.index) m.new }
{
    m[POINTER] = k.get() as u64;
}
