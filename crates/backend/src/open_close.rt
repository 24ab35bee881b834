// Opening and closing a port. Neither is lent a ring.
ghost use Rattle.std.specs.Prelude.{◌≡◌};
ghost use Rattle.model.specs.Calls.{Open, Close};
ghost use Rattle.model.specs.Port.{closed_port, open_port};
ghost use Rattle.memory.specs.Promise.{Promised};

use memory::WORDS;
use model::{Abi, Pages, Params, Port, PortId, PortIndex, Refusal, SectorSize, State};

// A port just opened: both indices at 0, no tag busy.
fn opened(params: Params) -> Port
    ensures { result ≡ open_port params }
{
    Port {
        state: State::Open,
        params,
        consumed: 0,
        produced: 0,
        busy: 0,
    }
}

// Opens a port from its node sheet.
#[tactic(auto, using(crate::proofs::OpenClose::opens))]
pub fn open(memory: &mut [u64; WORDS], port: PortId, sheet: &[u8]) -> Result<(), Refusal>
    ensures { Promised memory.old (Open port sheet.now) result memory.new }
{
    let k = PortIndex::try_from(port)?;
    match memory::state(memory, k) {
        State::Closed => {
            let params = nodes::read_sheet(sheet)?;
            records::set_port(memory, k, opened(params));
            Ok(())
        }
        State::Open | State::Broken => Err(Refusal::NotClosed),
    }
}

// A closed port keeps only zeros.
fn closed() -> Port
    ensures { result ≡ closed_port }
{
    Port {
        state: State::Closed,
        params: Params {
            writable: false,
            barrier: false,
            flush: false,
            discard: false,
            secure: false,
            sector: SectorSize::Bytes512,
            sectors: 0,
            abi: Abi::Bits64,
            pages: Pages::One,
        },
        consumed: 0,
        produced: 0,
        busy: 0,
    }
}

// Closes a port that is open or broken, unless a request is in flight.
#[tactic(auto, using(crate::proofs::OpenClose::closes))]
pub fn close(memory: &mut [u64; WORDS], port: PortId) -> Result<(), Refusal>
    ensures { Promised memory.old (Close port) result memory.new }
{
    let k = PortIndex::try_from(port)?;
    match memory::state(memory, k) {
        State::Closed => Err(Refusal::IsClosed),
        State::Open | State::Broken => {
            if marks::in_flight(memory::busy_marks(memory, k)) != 0 {
                return Err(Refusal::InFlight);
            }
            records::set_port(memory, k, closed());
            Ok(())
        }
    }
}
