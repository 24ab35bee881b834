// kh_complete
ghost use Rattle.kernelharp.specs.Run.{kh_complete, Promise};

use completion_answers::put_completed;
use memory::WORDS;
use model::buffer::DONE_WORDS;
use model::{PortId, Serial, TagId};

#[unsafe(no_mangle)]
#[tactic(auto, using(crate::proofs::Returns::returns))]
pub extern "C" fn kh_complete(
    memory: &mut [u64; WORDS],
    rings: &mut [u8],
    port: u32,
    tag: u32,
    serial: u32,
    res: i32,
    answer: &mut [u64; DONE_WORDS],
) -> u32
    ensures { Promise memory.old (kh_complete rings.old port tag serial res answer.old) (record { number = result; rings = rings.new; answer = answer.new; memory = memory.new }) }
{
    let completed = completion::complete(
        memory,
        rings,
        PortId(port),
        TagId(tag),
        Serial(serial),
        res,
    );
    put_completed(answer, completed)
}
