// The bytes of a response, in the slot of our own index. Of guest bytes it reads none.
#![tactic(auto)]

ghost use Rattle.std.specs.Prelude.{◌≡◌, ◌+◌, ◌-◌, ◌≤◌, length};
ghost use Rattle.wire.specs.LittleEndian.{store};
ghost use Rattle.model.specs.Ring.{layout_of, ring_for, slot_at, set_response, response_operation_at, response_status_at, response_padding_at};

use layout::{RESPONSE_OPERATION, RESPONSE_PADDING, RESPONSE_STATUS};
use model::{Abi, Format, Pair, Status};
use wire::Integer;

// The operation of the response at `at`, and the zero behind it: a number of two bytes.
#[tactic(auto, using(crate::proofs::Written::byte_zero))]
fn put_operation(page: &mut [u8], at: usize, operation: u8)
    requires { at + response_status_at ≤ length page.old }
    ensures { page.new ≡ store 1 (store 1 page.old (at + response_operation_at) operation) (at + (response_operation_at + 1)) 0 }
{
    u16::store(page, at + RESPONSE_OPERATION, u16::from(operation));
}

// Zeros from `at` to the end of the response, so that no byte of the guest's stays there.
#[tactic(auto, unfolding(wire::specs::LittleEndian::store))]
fn put_padding(page: &mut [u8], abi: Abi, at: usize)
    requires { at + ((layout_of abi).response_size - response_padding_at) ≤ length page.old }
    ensures { page.new ≡ store ((layout_of abi).response_size - response_padding_at) page.old at 0 }
{
    match abi {
        Abi::Bits64 => u32::store(page, at, 0),
        Abi::Bits32 => {}
    }
}

// The fields of a response, each byte once, from the first to the last.
#[tactic(auto, using(crate::proofs::Written::passed), unfolding(model::specs::Ring::set_response, model::specs::Ring::status_bits))]
fn put_fields(page: &mut [u8], abi: Abi, at: usize, pair: Pair, s: Status)
    requires { at + (layout_of abi).response_size ≤ length page.old }
    ensures { page.new ≡ set_response (layout_of abi) page.old at pair s }
{
    u64::store(page, at, pair.id);
    put_operation(page, at, pair.operation);
    wire::store_signed(page, at + RESPONSE_STATUS, i16::from(s));
    put_padding(page, abi, at + RESPONSE_PADDING);
}

// A response goes to the slot of index `produced`; the rest of the slot is not touched.
fn put_in_slot(page: &mut [u8], format: Format, produced: u32, pair: Pair, status: Status)
    requires { length page.old ≡ (ring_for format.abi format.pages).bytes }
    ensures { page.new ≡ set_response (layout_of format.abi) page.old (slot_at (ring_for format.abi format.pages) produced) pair status }
{
    let at = ring::slot_at(format, produced);
    put_fields(page, format.abi, at, pair, status);
}

// The same, with an arm for each layout: there the compiler knows its numbers.
pub fn put_response(page: &mut [u8], format: Format, produced: u32, pair: Pair, status: Status)
    requires { length page.old ≡ (ring_for format.abi format.pages).bytes }
    ensures { page.new ≡ set_response (layout_of format.abi) page.old (slot_at (ring_for format.abi format.pages) produced) pair status }
{
    let pages = format.pages;
    match format.abi {
        Abi::Bits64 => {
            let abi = Abi::Bits64;
            put_in_slot(page, Format { abi, pages }, produced, pair, status)
        }
        Abi::Bits32 => {
            let abi = Abi::Bits32;
            put_in_slot(page, Format { abi, pages }, produced, pair, status)
        }
    }
}
