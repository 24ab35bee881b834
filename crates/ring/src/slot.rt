// The slots of a ring: where the slot of an index starts, and its copy.
ghost use Rattle.std.specs.Prelude.{◌≡◌, ◌+◌, ◌≤◌, length};
ghost use Rattle.wire.specs.Part.{part};
ghost use Rattle.model.specs.Ring.{layout_of, ring_for, slot_at};
ghost use Rattle.ring.specs.Copy.{Copied, CopyOf};

use layout::{
    COPY_ID, HEAD_BYTES, HEADER_BYTES, REST_BYTES, SLOT_BYTES, id_at, ring_size, slot_size,
};
use model::{Abi, Format};

// Where the slot of an index starts in its ring.
pub fn slot_at(format: Format, index: u32) -> usize
    ensures { result ≡ slot_at (ring_for format.abi format.pages) index }
{
    HEADER_BYTES + slot_size(format.abi) * (index % ring_size(format.pages)) as usize
}

// Copies n bytes of a source, from `from` on, to place `to` of a copy. Each is read once, since another domain may
// write it in the meantime. This says how the source reads. What the compiled code loads no proof shows: a compiler may
// load from the page again. tests/once looks at the archive.
pub fn copy_bytes(source: &[u8], from: usize, copy: &mut [u8], to: usize, n: usize)
    requires { (from + n ≤ length source.now) × (to + n ≤ length copy.old) }
    ensures { Copied n source.now from copy.old to copy.new }
{
    for i in 0..n {
        copy[to + i] = source[from + i];
    }
}

// The request in the slot that starts at `at` of the rings, in the layout that every copy has: look at the copy after
// that. It is copied in two pieces, since the id may stand elsewhere in the slot. No byte is read twice, none behind
// the slot, and of a 64-bit guest's not the four before its id.
pub fn copy_slot(rings: &[u8], at: usize, abi: Abi) -> [u8; SLOT_BYTES]
    requires { at + (layout_of abi).slot_size ≤ length rings.now }
    ensures { CopyOf (layout_of abi) (part (layout_of abi).slot_size rings.now at) result }
{
    let mut copy = [0u8; SLOT_BYTES];
    copy_bytes(rings, at, &mut copy, 0, HEAD_BYTES);
    copy_bytes(rings, at + id_at(abi), &mut copy, COPY_ID, REST_BYTES);
    copy
}
