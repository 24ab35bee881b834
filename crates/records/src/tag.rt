// A tag's words: what is kept of a started request until it is completed.
ghost use Rattle.std.specs.Prelude.{◌≡◌, ◌<◌};
ghost use Rattle.model.specs.Backend.{with_tag};
ghost use Rattle.memory.specs.Backend.{backend_of, Becomes};
ghost use Rattle.memory.specs.Words.{tag_words_of};

use crate::words::put_run;
use memory::{Field, PORT_WORDS, STRIDE, TAG_WORDS, WORDS, field_at};
use model::{Pair, PortIndex, Serial, Tag, TagIndex};

// Which of a tag's words is which, after its id.
const OPERATION: usize = 1;

const SERIAL: usize = 2;

const EXPECTED: usize = 3;

#[tactic(auto, using(memory::proofs::Backend::records), unfolding(memory::specs::Words::tag_from, memory::specs::Words::tag_at))]
pub fn tag_at(m: &[u64; WORDS], k: PortIndex, t: TagIndex) -> Tag
    ensures { result ≡ (backend_of m.now).tag k.index t.index }
{
    let at = PORT_WORDS + TAG_WORDS * t.get() as usize;
    Tag {
        pair: Pair {
            id: field_at(m, k, at),
            operation: field_at(m, k, at + OPERATION),
        },
        serial: Serial(field_at(m, k, at + SERIAL)),
        expected: field_at(m, k, at + EXPECTED),
    }
}

// One field of it: a list of completions asks for the serial before it touches the rest.
#[tactic(auto, using(memory::proofs::Backend::records), unfolding(memory::specs::Words::tag_from, memory::specs::Words::tag_at))]
pub fn serial_at(m: &[u64; WORDS], k: PortIndex, t: TagIndex) -> u32
    ensures { result ≡ ((backend_of m.now).tag k.index t.index).serial.0 }
{
    field_at(m, k, PORT_WORDS + TAG_WORDS * t.get() as usize + SERIAL)
}

fn tag_words(x: Tag) -> [u64; TAG_WORDS]
    ensures { result ≡ tag_words_of x }
{
    [
        x.pair.id.word(),
        x.pair.operation.word(),
        x.serial.0.word(),
        x.expected.word(),
    ]
}

pub fn set_tag(m: &mut [u64; WORDS], k: PortIndex, t: TagIndex, x: Tag)
    ensures { Becomes m.old (with_tag (backend_of m.old) k.index t.index x) m.new }
{
    put_run(
        m,
        STRIDE * k.get() + (PORT_WORDS + TAG_WORDS * t.get() as usize),
        &tag_words(x),
    );
}
