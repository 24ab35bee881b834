// The header of a port's ring: port k's share of the ring buffer begins with it, at RING_SHARE * k, however many pages
// its ring has.
ghost use Rattle.std.specs.Prelude.{◌≡◌, ◌≤◌};
ghost use Rattle.model.specs.Buffers.{ring_share, pages_of, set_pages};
ghost use Rattle.model.specs.Port.{after};
ghost use Rattle.model.specs.Ring.{Ring, header_size, req_prod, set_req_event};

use crate::index::next_index;
use layout::{REQ_EVENT, REQ_PROD};
use model::PortIndex;
use model::buffer::{RING_SHARE, RINGS_BYTES};
use wire::Integer;

// req_prod of port k: reads its four bytes, once.
pub fn req_prod(rings: &[u8; RINGS_BYTES], k: PortIndex) -> u32
    ensures { (g : Ring) → header_size ≤ g.bytes → g.bytes ≤ ring_share → result ≡ req_prod (pages_of g rings.now k.index) }
{
    u32::load(rings, RING_SHARE * k.get() + REQ_PROD)
}

// req_event of port k becomes the index after `consumed`, so that the guest notifies us of its next request. Reads
// nothing.
pub fn arm(rings: &mut [u8; RINGS_BYTES], k: PortIndex, consumed: u32)
    ensures { (g : Ring) → header_size ≤ g.bytes → g.bytes ≤ ring_share → rings.new ≡ set_pages g rings.old k.index (set_req_event (pages_of g rings.old k.index) (after consumed)) }
{
    u32::store(
        rings,
        RING_SHARE * k.get() + REQ_EVENT,
        next_index(consumed),
    );
}
