// kh_guest_collect
ghost use Rattle.kernelharp.specs.Guest.{CollectReturned};

use guest_answers::put_collected;
use model::buffer::{COLLECT_WORDS, GUEST_WORDS};

#[unsafe(no_mangle)]
#[tactic(auto, using(crate::proofs::Returns::returns))]
pub extern "C" fn kh_guest_collect(
    guest: &mut [u64; GUEST_WORDS],
    page: &mut [u8],
    answer: &mut [u64; COLLECT_WORDS],
) -> u32
    ensures { CollectReturned guest.old page.old answer.old (record { number = result; guest = guest.new; page = page.new; answer = answer.new }) }
{
    let collected = frontend::collect(guest, page);
    put_collected(answer, collected)
}
