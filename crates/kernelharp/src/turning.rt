// kh_turn
ghost use Rattle.kernelharp.specs.Run.{kh_turn, Promise};

use memory::WORDS;
use model::buffer::TURN_WORDS;
use turn_answers::put_turned;

#[unsafe(no_mangle)]
#[tactic(auto, using(crate::proofs::Returns::returns))]
pub extern "C" fn kh_turn(
    memory: &mut [u64; WORDS],
    rings: &mut [u8],
    grants: &[u8],
    answer: &mut [u64; TURN_WORDS],
) -> u32
    ensures { Promise memory.old (kh_turn rings.old grants.now answer.old) (record { number = result; rings = rings.new; answer = answer.new; memory = memory.new }) }
{
    let turned = turn::turn(memory, rings, grants, answer);
    put_turned(answer, turned)
}
