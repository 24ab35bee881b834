// A request's slot: all 112 bytes, built apart from the page.
#![tactic(auto)]

ghost use Rattle.std.specs.Prelude.{cond, ◌≡◌, ◌<◌, ◌≤◌};
ghost use Rattle.model.specs.Checks.{max_segments, moves_nothing};
ghost use Rattle.asking.specs.Request.{segments_in, request_in};
ghost use Rattle.asking.specs.Slot.{set_segment, set_segments, head_of, discard_slot, segments_slot};

use asking::{
    BARRIER, COUNT, FLAG, FLUSH, FRAME_VALUES, ID, OPERATION, SECTORS, SEGMENT_WORDS, SEGMENTS,
    START,
};
use layout::{
    COPY_ID, COPY_SEGMENTS, COPY_START, REQUEST_COUNT, REQUEST_OPERATION, SEGMENT_FIRST,
    SEGMENT_LAST, SLOT_BYTES,
};
use model::buffer::REQUEST_WORDS;
use wire::Integer;

// Zeros, but for operation, count or flag, id and start: of the first two the low byte.
#[tactic(auto, using(crate::proofs::Segments::store_one), unfolding(asking::specs::Slot::head_of))]
fn head(operation: u64, second: u64, id: u64, start: u64) -> [u8; SLOT_BYTES]
    ensures { result ≡ head_of (record { id = id; operation = operation }) second start }
{
    let mut slot = [0u8; SLOT_BYTES];
    slot[REQUEST_OPERATION] = (operation % 256) as u8;
    slot[REQUEST_COUNT] = (second % 256) as u8;
    u64::store(&mut slot, COPY_ID, id);
    u64::store(&mut slot, COPY_START, start);
    slot
}

#[tactic(auto, unfolding(asking::specs::Slot::set_segment))]
fn put_segment(slot: &mut [u8; SLOT_BYTES], i: usize, frame: u64, first: u64, last: u64)
    requires { i < max_segments }
    ensures { slot.new ≡ set_segment slot.old i (record { frame = frame; first = first; last = last }) }
{
    let at = layout::segment_at(i);
    u32::store(slot, at, (frame % FRAME_VALUES) as u32);
    slot[at + SEGMENT_FIRST] = (first % 256) as u8;
    slot[at + SEGMENT_LAST] = (last % 256) as u8;
}

// The first n segments.
fn put_segments(slot: &mut [u8; SLOT_BYTES], request: &[u64; REQUEST_WORDS], n: usize)
    requires { n ≤ max_segments }
    ensures { slot.new ≡ set_segments slot.old 0 (segments_in n request.now 0) }
{
    let (segments, _) = request[SEGMENTS..].as_chunks::<SEGMENT_WORDS>();
    for (i, [frame, first, last]) in segments[..n].iter().enumerate() {
        put_segment(slot, i, *frame, *first, *last);
    }
}

// A request that moves nothing has no start.
#[tactic(auto, unfolding(asking::specs::Request::request_in, model::specs::Checks::moves_nothing, model::specs::Checks::is_empty_barrier))]
fn start_of(request: &[u64; REQUEST_WORDS]) -> u64
    ensures { result ≡ cond (moves_nothing (request_in request.now)) 0 (request_in request.now).start }
{
    match request[OPERATION] {
        FLUSH => 0,
        BARRIER if request[COUNT] == 0 => 0,
        _ => request[START],
    }
}

// Of the flag only bit 0 is put.
#[tactic(auto, unfolding(asking::specs::Slot::discard_slot, asking::specs::Request::request_in))]
pub fn discard_slot(request: &[u64; REQUEST_WORDS]) -> [u8; SLOT_BYTES]
    ensures { result ≡ discard_slot (request_in request.now) }
{
    let mut slot = head(
        request[OPERATION],
        request[FLAG] % 2,
        request[ID],
        request[START],
    );
    u64::store(&mut slot, COPY_SEGMENTS, request[SECTORS]);
    slot
}

#[tactic(auto, unfolding(asking::specs::Slot::segments_slot, asking::specs::Request::request_in))]
#[inline(always)]
pub fn segments_slot(request: &[u64; REQUEST_WORDS]) -> [u8; SLOT_BYTES]
    requires { (request_in request.now).n ≤ max_segments }
    ensures { result ≡ segments_slot (request_in request.now) }
{
    let start = start_of(request);
    let mut slot = head(request[OPERATION], request[COUNT], request[ID], start);
    put_segments(&mut slot, request, request[COUNT] as usize);
    slot
}
