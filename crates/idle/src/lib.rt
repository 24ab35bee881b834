// A turn that finds nothing to serve: the req_event of each open port, so that its guest notifies the host of its next
// request.
#![tactic(auto)]

ghost use Rattle.std.specs.Prelude.{◌≡◌};
ghost use Rattle.model.specs.Backend.{view_of};
ghost use Rattle.model.specs.Buffers.{ports};
ghost use Rattle.model.specs.Turn.{armed_port, armed, ring_at};
ghost use Rattle.memory.specs.Backend.{backend_of};
ghost use Rattle.idle.specs.Idle.{Rested};

use memory::WORDS;
use model::buffer::{PORTS, RINGS_BYTES};
use model::limit::PLAN_WORDS;
use model::{PortIndex, State, Turned};

// req_event of port k, where it is open. Reads no guest byte.
fn arm_port(memory: &[u64; WORDS], rings: &mut [u8; RINGS_BYTES], k: PortIndex)
    ensures { rings.new ≡ armed_port (ring_at (view_of (backend_of memory.now)) k.index) ((view_of (backend_of memory.now)).state k.index) rings.old k.index ((view_of (backend_of memory.now)).consumed k.index) }
{
    let p = records::port_at(memory, k);
    match p.state {
        State::Open => ring::arm(rings, k, p.consumed),
        State::Closed | State::Broken => {}
    }
}

// req_event of each open port. Reads no guest byte.
#[tactic(auto, unfolding(model::specs::Turn::armed))]
fn arm_ports(memory: &[u64; WORDS], rings: &mut [u8; RINGS_BYTES])
    ensures { rings.new ≡ armed (view_of (backend_of memory.now)) rings.old ports }
{
    for k in 0..PORTS {
        arm_port(memory, rings, PortIndex::new(k));
    }
}

// A turn with nothing to serve: each open port is armed, there are no extents, and memory stays as it is.
pub fn rest(
    memory: &mut [u64; WORDS],
    rings: &mut [u8; RINGS_BYTES],
    words: &mut [u64; PLAN_WORDS],
) -> Turned
    ensures { Rested memory.old rings.old result rings.new words.new memory.new }
{
    arm_ports(memory, rings);
    extents::no_extents(words);
    Turned::Idle
}
