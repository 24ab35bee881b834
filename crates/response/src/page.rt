// A response in a port's pages of the rings.
ghost use Rattle.model.specs.Ring.{ring_for};
ghost use Rattle.response.specs.Promise.{RespondedIn};

use crate::write::write_response;
use layout::ring_bytes;
use model::buffer::{RING_SHARE, RINGS_BYTES};
use model::{Format, Pair, PortIndex, Status};

// A response into port k's pages, which are lent on: of its share no other byte. Reads rsp_event, once.
pub fn respond(
    rings: &mut [u8; RINGS_BYTES],
    k: PortIndex,
    format: Format,
    produced: u32,
    pair: Pair,
    status: Status,
) -> bool
    ensures { RespondedIn (ring_for format.abi format.pages) rings.old k.index produced pair status rings.new result }
{
    let base = RING_SHARE * k.get();
    let end = base + ring_bytes(format.pages);
    write_response(&mut rings[base..end], format, produced, pair, status)
}
