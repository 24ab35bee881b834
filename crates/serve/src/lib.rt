// Serving a port: an overrun, or one request, started or answered at once.
#![tactic(auto)]

ghost use Rattle.std.specs.Prelude.{◌≡◌, ◌<◌};
ghost use Rattle.model.specs.Buffers.{grants_of};
ghost use Rattle.model.specs.Backend.{view_of};
ghost use Rattle.model.specs.Turn.{pending_at, served_by};
ghost use Rattle.memory.specs.Backend.{backend_of};
ghost use Rattle.outcomes.specs.Outcomes.{Room};
ghost use Rattle.serve.specs.Serve.{Turns, next_slot, settled_at, ToServe};

use memory::WORDS;
use model::buffer::{GRANTS_BYTES, PORT_GRANTS, RING_SHARE, RINGS_BYTES};
use model::limit::PLAN_WORDS;
use model::{PortIndex, Turned};
use outcomes::{decline, overrun, start};

// Where in the rings the slot of port k's next request starts. Reads no guest byte.
fn next_slot(memory: &[u64; WORDS], k: PortIndex) -> usize
    ensures { result ≡ next_slot (backend_of memory.now) k.index }
{
    let format = memory::format(memory, k);
    RING_SHARE * k.get() + ring::slot_at(format, memory::consumed(memory, k))
}

// Port k's part of the grants.
fn port_grants(grants: &[u8; GRANTS_BYTES], k: PortIndex) -> &[u8; PORT_GRANTS]
    ensures { result.now ≡ grants_of grants.now k.index }
{
    let (each, _) = grants.as_chunks::<PORT_GRANTS>();
    &each[k.get()]
}

// Takes one request from port k and judges it. The bytes of its slot are read once, into a copy; all that follows looks
// at the copy. Of the pages it reads no more than that and what `decline` reads. But for req_cons and what the ring is,
// the port is read after the copy.
fn take(
    memory: &mut [u64; WORDS],
    rings: &mut [u8; RINGS_BYTES],
    grants: &[u8; GRANTS_BYTES],
    words: &mut [u64; PLAN_WORDS],
    k: PortIndex,
) -> Turned
    requires { Room (backend_of memory.old) k.index ((backend_of memory.old).port k.index) }
    ensures { Turns memory.old rings.old (settled_at (backend_of memory.old) rings.old grants.now k.index) rings.new words.new result memory.new }
{
    let at = next_slot(memory, k);
    let slot = ring::copy_slot(rings, at, memory::abi(memory, k));
    let p = records::port_at(memory, k);
    let verdict = request::judge(p.params, &slot, port_grants(grants, k), words);
    let pair = request::pair_of(&slot);
    match verdict {
        Ok(plan) => start(memory, k, p, pair, plan),
        Err(fault) => decline(memory, rings, k, p, pair, fault),
    }
}

// Serves port k, whose req_prod was read as `published`: an overrun breaks it, else its next request is taken.
// Reads the pages only as `take` does.
pub fn serve(
    memory: &mut [u64; WORDS],
    rings: &mut [u8; RINGS_BYTES],
    grants: &[u8; GRANTS_BYTES],
    words: &mut [u64; PLAN_WORDS],
    k: PortIndex,
    published: u32,
) -> Turned
    requires { ToServe (backend_of memory.old) rings.old k.index published }
    ensures { Turns memory.old rings.old (served_by (view_of (backend_of memory.old)) rings.old grants.now k.index (pending_at (view_of (backend_of memory.old)) rings.old k.index)) rings.new words.new result memory.new }
{
    let d = ring::distance(published, memory::consumed(memory, k));
    let busy = memory::busy_marks(memory, k);
    if marks::overruns(memory::pages(memory, k), busy, d) {
        extents::no_extents(words);
        return overrun(memory, k);
    }
    take(memory, rings, grants, words, k)
}
