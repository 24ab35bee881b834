// kh_complete_many
ghost use Rattle.kernelharp.specs.Run.{kh_complete_many, Promise};

use completion_answers::put_many;
use memory::WORDS;
use model::PortId;
use model::buffer::MANY_WORDS;
use model::limit::ENTRY_WORDS;

#[unsafe(no_mangle)]
#[tactic(auto, using(crate::proofs::Returns::returns))]
pub extern "C" fn kh_complete_many(
    memory: &mut [u64; WORDS],
    rings: &mut [u8],
    port: u32,
    entries: &[u64],
    answer: &mut [u64; MANY_WORDS],
) -> u32
    ensures { Promise memory.old (kh_complete_many rings.old port entries.now answer.old) (record { number = result; rings = rings.new; answer = answer.new; memory = memory.new }) }
{
    let completed = lists::complete_many(memory, rings, PortId(port), entries, answer);
    put_many(answer, completed, entries.len() / ENTRY_WORDS)
}
