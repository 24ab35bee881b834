// The first pass over the entries of a list of completions: whether each names a request that is busy, and the marks
// that stay. It writes nothing.
#![tactic(auto)]

ghost use Rattle.std.specs.Prelude.{◌≡◌};
ghost use Rattle.model.specs.Complete.{completions_in};
ghost use Rattle.model.specs.Ring.{ring_for};
ghost use Rattle.model.specs.declared.Abi.{Abi};
ghost use Rattle.memory.specs.Backend.{backend_of};
ghost use Rattle.entries.specs.Entries.{NamesBusy, left_of};

use layout::ring_size;
use memory::WORDS;
use model::limit::ENTRY_WORDS;
use model::{Pages, PortIndex, TagIndex};

// Whether tag and serial, as the words of an entry have them, name a request that is busy by these marks.
#[tactic(auto, unfolding(model::specs::Rules::names_none))]
fn names_busy(
    memory: &[u64; WORDS],
    k: PortIndex,
    pages: Pages,
    marks: u64,
    tag: u64,
    serial: u64,
) -> bool
    ensures { NamesBusy ((backend_of memory.now).tag k.index) pages marks tag serial result }
{
    if u64::from(ring_size(pages)) <= tag {
        return false;
    }
    let t = TagIndex::new(tag as u32);
    if !marks::is_busy(marks, t) {
        return false;
    }
    u64::from(records::serial_at(memory, k, t)) == serial
}

// The marks that stay once every entry of a list is done; none where one of them names no busy request. An entry's mark
// is cleared in a copy of the marks, so that a tag named twice is not busy the second time.
pub fn left_busy(
    memory: &[u64; WORDS],
    k: PortIndex,
    pages: Pages,
    busy: u64,
    entries: &[u64],
) -> Option<u64>
    ensures { (abi : Abi) → result ≡ left_of (ring_for abi pages) ((backend_of memory.now).tag k.index) busy (completions_in entries.now) }
{
    let (whole, _) = entries.as_chunks::<ENTRY_WORDS>();
    let mut left = busy;
    for entry in whole {
        let [tag, serial, _] = *entry;
        if !names_busy(memory, k, pages, left, tag, serial) {
            return None;
        }
        left = marks::clear_mark(left, TagIndex::new(tag as u32));
    }
    Some(left)
}
