// kh_open
ghost use Rattle.kernelharp.specs.Run.{kh_open, Promise};

use answers::number;
use memory::WORDS;
use model::PortId;

#[unsafe(no_mangle)]
#[tactic(auto, using(crate::proofs::Returns::returns))]
pub extern "C" fn kh_open(memory: &mut [u64; WORDS], port: u32, sheet: &[u8]) -> u32
    ensures { Promise memory.old (kh_open port sheet.now) (record { number = result; memory = memory.new }) }
{
    let reply = backend::open(memory, PortId(port), sheet);
    number(reply)
}
