// Collecting a response.
ghost use Rattle.frontend.specs.Promise.{CollectPromise};

use guest::{arm, response_pair, response_status, rsp_prod};
use model::buffer::{GUEST_PAGE_BYTES, GUEST_WORDS};
use model::{Collected, Refusal};
use outstanding::{COLLECTED, end, index_at, outstanding, place_of};

// Any page, any words: the next response, or that there is none, or a refusal. rsp_prod is read once, and judged before any response is looked at.
pub fn collect(
    guest: &mut [u64; GUEST_WORDS],
    page: &mut [u8],
) -> Result<Option<Collected>, Refusal>
    ensures { CollectPromise guest.old page.old result guest.new page.new }
{
    let Some(page) = page.as_mut_array::<GUEST_PAGE_BYTES>() else {
        return Err(Refusal::WrongLength);
    };
    let index = index_at(guest, COLLECTED);
    let ahead = ring::distance(rsp_prod(page), index);
    if outstanding(guest) < ahead as usize {
        return Err(Refusal::BadRspProd);
    }
    if ahead == 0 {
        arm(page, index);
        return Ok(None);
    }
    let pair = response_pair(page, index);
    let status = response_status(page, index);
    let place = place_of(guest, pair).ok_or(Refusal::NotOutstanding)?;
    end(guest, place);
    Ok(Some(Collected { pair, status }))
}
