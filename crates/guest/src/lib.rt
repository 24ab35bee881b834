// The guest's page: what is read of it, and written. In specs/ stands the guest's half as definitions (section 16 of docs/RULES.md).
#![tactic(auto)]

ghost use Rattle.std.specs.Prelude.{◌≡◌, eqb};
ghost use Rattle.model.specs.Port.{after};
ghost use Rattle.model.specs.Ring.{slot_at, req_event, rsp_prod, set_rsp_event, response_pair, response_status};
ghost use Rattle.guest.specs.Guest.{guest_ring, put_page};

use layout::{
    REQ_EVENT, REQ_PROD, RESPONSE_OPERATION, RESPONSE_STATUS, RSP_EVENT, RSP_PROD, SLOT_BYTES,
};
use model::buffer::GUEST_PAGE_BYTES;
use model::{Abi, Format, Pages, Pair};
use wire::Integer;

// The ring that the guest's half knows (rule 16.1).
const FORMAT: Format = Format {
    abi: Abi::Bits64,
    pages: Pages::One,
};

// A slot goes to the place of index i and req_prod after it, and only then is req_event read, once, as in ring.h: the answer is whether to notify. That is the
// order of the source: no fence stands between.
#[tactic(auto, using(crate::proofs::Pages::slot_room))]
pub fn publish(page: &mut [u8; GUEST_PAGE_BYTES], i: u32, slot: &[u8; SLOT_BYTES]) -> bool
    ensures { (page.new ≡ put_page page.old i slot.now) × (result ≡ eqb (req_event page.old) (after i)) }
{
    let at = ring::slot_at(FORMAT, i);
    page[at..at + SLOT_BYTES].copy_from_slice(slot);
    let next = ring::next_index(i);
    u32::store(page, REQ_PROD, next);
    u32::load(page, REQ_EVENT) == next
}

// rsp_prod: reads its four bytes, once.
#[tactic(auto, unfolding(model::specs::Ring::rsp_prod))]
pub fn rsp_prod(page: &[u8; GUEST_PAGE_BYTES]) -> u32
    ensures { result ≡ rsp_prod page.now }
{
    u32::load(page, RSP_PROD)
}

// rsp_event becomes the index after i, so that the backend notifies us of its next response. Reads nothing.
#[tactic(auto, unfolding(model::specs::Ring::set_rsp_event))]
pub fn arm(page: &mut [u8; GUEST_PAGE_BYTES], i: u32)
    ensures { page.new ≡ set_rsp_event page.old (after i) }
{
    u32::store(page, RSP_EVENT, ring::next_index(i));
}

// Id and operation of the response in the slot of index i: reads its first nine bytes, each once.
#[tactic(auto, using(crate::proofs::Pages::slot_room), unfolding(model::specs::Ring::response_pair))]
pub fn response_pair(page: &[u8; GUEST_PAGE_BYTES], i: u32) -> Pair
    ensures { result ≡ response_pair page.now (slot_at guest_ring i) }
{
    let at = ring::slot_at(FORMAT, i);
    Pair {
        id: u64::load(page, at),
        operation: page[at + RESPONSE_OPERATION],
    }
}

// The 16 bits of its status: reads two bytes, once. No value of them is wrong.
#[tactic(auto, using(crate::proofs::Pages::slot_room), unfolding(model::specs::Ring::response_status))]
pub fn response_status(page: &[u8; GUEST_PAGE_BYTES], i: u32) -> u16
    ensures { result ≡ response_status page.now (slot_at guest_ring i) }
{
    u16::load(page, ring::slot_at(FORMAT, i) + RESPONSE_STATUS)
}
