// A port's words, all of them: the port whole.
ghost use Rattle.std.specs.Prelude.{◌≡◌};
ghost use Rattle.model.specs.Backend.{with_port};
ghost use Rattle.memory.specs.Backend.{backend_of, Becomes};
ghost use Rattle.memory.specs.Words.{words_of};

use crate::words::put_run;
use memory::{
    Field, PORT_WORDS, STRIDE, WORDS, abi, busy_marks, consumed, field_at, pages, produced, state,
};
use model::{Params, Port, PortIndex};

// Which of a port's words is which, of those that are not read singly.
const WRITABLE: usize = 1;

const BARRIER: usize = 2;

const FLUSH: usize = 3;

const DISCARD: usize = 4;

const SECURE: usize = 5;

const SECTOR_SIZE: usize = 6;

const SECTORS: usize = 7;

#[tactic(auto, using(memory::proofs::Backend::records), unfolding(memory::specs::Words::params_from, memory::specs::Words::port_from, memory::specs::Words::port_at))]
fn params(m: &[u64; WORDS], k: PortIndex) -> Params
    ensures { result ≡ ((backend_of m.now).port k.index).params }
{
    Params {
        sector: field_at(m, k, SECTOR_SIZE),
        abi: abi(m, k),
        pages: pages(m, k),
        writable: field_at(m, k, WRITABLE),
        barrier: field_at(m, k, BARRIER),
        flush: field_at(m, k, FLUSH),
        discard: field_at(m, k, DISCARD),
        secure: field_at(m, k, SECURE),
        sectors: field_at(m, k, SECTORS),
    }
}

pub fn port_at(m: &[u64; WORDS], k: PortIndex) -> Port
    ensures { result ≡ (backend_of m.now).port k.index }
{
    Port {
        state: state(m, k),
        params: params(m, k),
        consumed: consumed(m, k),
        produced: produced(m, k),
        busy: busy_marks(m, k),
    }
}

fn words_of(p: Port) -> [u64; PORT_WORDS]
    ensures { result ≡ words_of p }
{
    [
        p.state.word(),
        p.params.writable.word(),
        p.params.barrier.word(),
        p.params.flush.word(),
        p.params.discard.word(),
        p.params.secure.word(),
        p.params.sector.word(),
        p.params.sectors.word(),
        p.params.abi.word(),
        p.params.pages.word(),
        p.consumed.word(),
        p.produced.word(),
        p.busy.word(),
    ]
}

pub fn set_port(m: &mut [u64; WORDS], k: PortIndex, p: Port)
    ensures { Becomes m.old (with_port (backend_of m.old) k.index p) m.new }
{
    put_run(m, STRIDE * k.get(), &words_of(p));
}
