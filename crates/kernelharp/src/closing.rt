// kh_close
ghost use Rattle.kernelharp.specs.Run.{kh_close, Promise};

use answers::number;
use memory::WORDS;
use model::PortId;

#[unsafe(no_mangle)]
#[tactic(auto, using(crate::proofs::Returns::returns))]
pub extern "C" fn kh_close(memory: &mut [u64; WORDS], port: u32) -> u32
    ensures { Promise memory.old (kh_close port) (record { number = result; memory = memory.new }) }
{
    let reply = backend::close(memory, PortId(port));
    number(reply)
}
