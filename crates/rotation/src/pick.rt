// Which port a turn serves.
ghost use Rattle.std.specs.Prelude.{◌≡◌};
ghost use Rattle.model.specs.Backend.{view_of};
ghost use Rattle.memory.specs.Backend.{backend_of};
ghost use Rattle.rotation.specs.Pick.{look_of, picked, placed};

use memory::WORDS;
use model::buffer::RINGS_BYTES;
use model::{PortIndex, State};

// What is seen of port k: its req_prod, where it has something to serve. Reads bytes 0 to 3 of its ring, once, where it
// is open.
fn look_at(memory: &[u64; WORDS], rings: &[u8; RINGS_BYTES], k: PortIndex) -> Option<u32>
    ensures { result ≡ look_of (view_of (backend_of memory.now)) rings.now k.index }
{
    let p = records::port_at(memory, k);
    match p.state {
        State::Closed | State::Broken => None,
        State::Open => {
            let published = ring::req_prod(rings, k);
            if published == p.consumed {
                return None;
            }
            Some(published)
        }
    }
}

// The port to serve, with its req_prod as it was read, once. Goes through the ports from the pointer on (rule 5.2), and
// stops at the first that has something to serve (rule 5.3), or where it began: over a range of numbers in place of the
// ports it takes some instructions more. Reads bytes 0 to 3 of the ring of each open port that it comes to, once each.
pub fn pick_port(memory: &[u64; WORDS], rings: &[u8; RINGS_BYTES]) -> Option<(PortIndex, u32)>
    ensures { placed result ≡ picked (view_of (backend_of memory.now)) rings.now }
{
    let first = memory::pointer(memory);
    let mut k = first;
    loop {
        if let Some(published) = look_at(memory, rings, k) {
            break Some((k, published));
        }
        k = k.next();
        if k.get() == first.get() {
            break None;
        }
    }
}
