// kh_guest_put
ghost use Rattle.kernelharp.specs.Guest.{PutReturned};

use guest_answers::put_put;
use model::buffer::{GUEST_WORDS, PUT_WORDS, REQUEST_WORDS};

#[unsafe(no_mangle)]
#[tactic(auto, using(crate::proofs::Returns::returns))]
pub extern "C" fn kh_guest_put(
    guest: &mut [u64; GUEST_WORDS],
    page: &mut [u8],
    request: &[u64; REQUEST_WORDS],
    answer: &mut [u64; PUT_WORDS],
) -> u32
    ensures { PutReturned guest.old page.old request.now answer.old (record { number = result; guest = guest.new; page = page.new; answer = answer.new }) }
{
    let put = frontend::put(guest, page, request);
    put_put(answer, put)
}
