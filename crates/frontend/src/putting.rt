// Putting a request.
ghost use Rattle.std.specs.Prelude.{◌<◌, length};
ghost use Rattle.asking.specs.Request.{request_in};
ghost use Rattle.guest.specs.Guest.{most_outstanding};
ghost use Rattle.frontend.specs.Promise.{PutPromise, Placed};
ghost use Rattle.outstanding.specs.Words.{guest_of};

use asking::{COUNT, DISCARD, ID, OPERATION};
use guest::publish;
use layout::SLOT_BYTES;
use model::Refusal;
use model::buffer::{GUEST_PAGE_BYTES, GUEST_WORDS, REQUEST_WORDS};
use outstanding::{MOST, PUT, add, has_id, index_at, outstanding};

// A request that may be put goes to our own index: its slot to the page, its id and operation to the outstanding. The
// answer is whether to notify.
#[inline(always)]
fn place(
    guest: &mut [u64; GUEST_WORDS],
    page: &mut [u8; GUEST_PAGE_BYTES],
    request: &[u64; REQUEST_WORDS],
    slot: &[u8; SLOT_BYTES],
) -> bool
    requires { length (guest_of guest.old).outstanding < most_outstanding }
    ensures { Placed guest.old page.old (request_in request.now).pair slot.now result guest.new page.new }
{
    let notify = publish(page, index_at(guest, PUT), slot);
    add(guest, request[ID], request[OPERATION]);
    notify
}

// Any page, any words: the request in the slot of our own index, or a refusal. A discard's segments are not looked at.
pub fn put(
    guest: &mut [u64; GUEST_WORDS],
    page: &mut [u8],
    request: &[u64; REQUEST_WORDS],
) -> Result<bool, Refusal>
    ensures { PutPromise guest.old page.old (request_in request.now) result guest.new page.new }
{
    let Some(page) = page.as_mut_array::<GUEST_PAGE_BYTES>() else {
        return Err(Refusal::WrongLength);
    };
    if MOST <= outstanding(guest) {
        return Err(Refusal::RingFull);
    }
    if has_id(guest, request[ID]) {
        return Err(Refusal::IdOutstanding);
    }
    if asking::wrong_asking(request) {
        return Err(Refusal::BadRequest);
    }
    if request[OPERATION] == DISCARD {
        return Ok(place(guest, page, request, &request_bytes::discard_slot(request)));
    }
    if asking::wrong_segments(request, request[COUNT] as usize) {
        return Err(Refusal::BadRequest);
    }
    Ok(place(guest, page, request, &request_bytes::segments_slot(request)))
}
