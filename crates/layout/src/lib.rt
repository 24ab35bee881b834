// The numbers of a guest's ring: its header, its slots, the fields of a request and of a response (section 2 of
// docs/RULES.md), by the guest's layout and the ring's pages.
#![tactic(auto, unfolding(model::specs::Ring::ring_for))]

ghost use Rattle.std.specs.Prelude.{◌≡◌, ◌+◌, ◌*◌, ◌<◌, ◌≤◌, ltb};
ghost use Rattle.model.specs.Buffers.{ring_share};
ghost use Rattle.model.specs.Checks.{max_segments};
ghost use Rattle.model.specs.Port.{busy_bits};
ghost use Rattle.model.specs.Ring.{layout_of, page_count, ring_for, rest_size, segment_size, slot_bytes};
ghost use Rattle.model.specs.declared.Abi.{Abi};
ghost use Rattle.layout.specs.Copy.{copy_layout};

use model::buffer::PAGE_BYTES;
use model::{Abi, Pages};

// The bytes of the header, and where its four fields stand, four bytes each (rule 2.2).
pub const HEADER_BYTES: usize = 64;

pub const REQ_PROD: usize = 0;

pub const REQ_EVENT: usize = 4;

pub const RSP_PROD: usize = 8;

pub const RSP_EVENT: usize = 12;

// The bytes of the largest slot: no request is longer than that (rule 2.3).
pub const SLOT_BYTES: usize = 112;

// The slots that a ring has for each of its pages (rule 2.3).
pub const PAGE_SLOTS: u32 = 32;

// Where a request of any layout keeps its operation, and its segment count or flag (rules 2.5 and 2.8).
pub const REQUEST_OPERATION: usize = 0;

pub const REQUEST_COUNT: usize = 1;

// The bytes that a request of any layout begins with: operation, count or flag, handle (rules 2.5 and 2.8); and those
// from its id on.
pub const HEAD_BYTES: usize = 4;

pub const REST_BYTES: usize = 104;

// A copied request has the 64-bit layout, whatever its guest's: where it keeps its id, its start sector, and its
// segments or a discard's sector count (rules 2.5 and 2.8).
pub const COPY_ID: usize = 8;

pub const COPY_START: usize = 16;

pub const COPY_SEGMENTS: usize = 24;

// The bytes of a segment, which begins with its frame, and where its first and last sector stand in it (rule 2.6).
pub const SEGMENT_BYTES: usize = 8;

pub const SEGMENT_FIRST: usize = 4;

pub const SEGMENT_LAST: usize = 5;

// Where a response of any layout, which begins with its id, keeps its operation and its status, and where its padding
// starts (rule 2.10).
pub const RESPONSE_OPERATION: usize = 8;

pub const RESPONSE_STATUS: usize = 10;

pub const RESPONSE_PADDING: usize = 12;

// How many pages a ring has.
fn page_count(pages: Pages) -> u32
    ensures { (result ≡ page_count pages) × (0 < result) × (result ≤ 2) }
{
    match pages {
        Pages::One => 1,
        Pages::Two => 2,
    }
}

// How many slots a ring has, which is also how many requests may be in flight: as many in each layout.
pub fn ring_size(pages: Pages) -> u32
    ensures { ((abi : Abi) → result ≡ (ring_for abi pages).size) × (0 < result) × (result ≤ busy_bits) }
{
    PAGE_SLOTS * page_count(pages)
}

// Whether a ring has tag t. Every ring has those of one page, so how many pages there are is looked at only for others.
pub fn has_tag(pages: Pages, t: u32) -> bool
    ensures { (abi : Abi) → result ≡ ltb t (ring_for abi pages).size }
{
    t < PAGE_SLOTS || t < ring_size(pages)
}

// The bytes of a ring: those that it has of its port's share.
pub fn ring_bytes(pages: Pages) -> usize
    ensures { ((abi : Abi) → result ≡ (ring_for abi pages).bytes) × (result ≤ ring_share) }
{
    PAGE_BYTES * page_count(pages) as usize
}

// The bytes of a slot.
pub fn slot_size(abi: Abi) -> usize
    ensures { (result ≡ (layout_of abi).slot_size) × (result ≤ slot_bytes) }
{
    match abi {
        Abi::Bits64 => SLOT_BYTES,
        Abi::Bits32 => 108,
    }
}

// Where a request keeps its id. From there on all layouts are the same.
pub fn id_at(abi: Abi) -> usize
    ensures { (result ≡ (layout_of abi).id_at) × (result + rest_size ≤ slot_bytes) }
{
    match abi {
        Abi::Bits64 => COPY_ID,
        Abi::Bits32 => 4,
    }
}

// Where a copy keeps segment i.
pub fn segment_at(i: usize) -> usize
    requires { i < max_segments }
    ensures { (result ≡ copy_layout.segments_at + segment_size * i) × (result + segment_size ≤ slot_bytes) }
{
    COPY_SEGMENTS + SEGMENT_BYTES * i
}
