// A port's words: its fields singly, of which a turn reads and writes few.
#![tactic(auto, using(crate::proofs::Backend::records), unfolding(crate::specs::Words::params_from, crate::specs::Words::port_from, crate::specs::Words::port_at))]

ghost use Rattle.std.specs.Prelude.{◌≡◌};
ghost use Rattle.model.specs.Backend.{with_port};
ghost use Rattle.memory.specs.Backend.{backend_of, Becomes, with_state, with_consumed, with_produced, with_busy};

use crate::WORDS;
use crate::words::{field_at, put_field};
use model::{Abi, Format, Pages, PortIndex, State};

// Which of a port's words is which; `records` has the others, words 1 to 7.
const STATE: usize = 0;

const ABI: usize = 8;

const PAGES: usize = 9;

const CONSUMED: usize = 10;

const PRODUCED: usize = 11;

const BUSY: usize = 12;

pub fn state(m: &[u64; WORDS], k: PortIndex) -> State
    ensures { result ≡ ((backend_of m.now).port k.index).state }
{
    field_at(m, k, STATE)
}

pub fn set_state(m: &mut [u64; WORDS], k: PortIndex, s: State)
    ensures { Becomes m.old (with_port (backend_of m.old) k.index (with_state ((backend_of m.old).port k.index) s)) m.new }
{
    put_field(m, k, STATE, s);
}

// How the port's guest lays out its records.
pub fn abi(m: &[u64; WORDS], k: PortIndex) -> Abi
    ensures { result ≡ ((backend_of m.now).port k.index).params.abi }
{
    field_at(m, k, ABI)
}

// How many pages the port's ring has.
pub fn pages(m: &[u64; WORDS], k: PortIndex) -> Pages
    ensures { result ≡ ((backend_of m.now).port k.index).params.pages }
{
    field_at(m, k, PAGES)
}

// Both of them.
pub fn format(m: &[u64; WORDS], k: PortIndex) -> Format
    ensures { (result.abi ≡ ((backend_of m.now).port k.index).params.abi) × (result.pages ≡ ((backend_of m.now).port k.index).params.pages) }
{
    Format {
        abi: abi(m, k),
        pages: pages(m, k),
    }
}

// req_cons, the index of the request to take next.
pub fn consumed(m: &[u64; WORDS], k: PortIndex) -> u32
    ensures { result ≡ ((backend_of m.now).port k.index).consumed }
{
    field_at(m, k, CONSUMED)
}

pub fn set_consumed(m: &mut [u64; WORDS], k: PortIndex, v: u32)
    ensures { Becomes m.old (with_port (backend_of m.old) k.index (with_consumed ((backend_of m.old).port k.index) v)) m.new }
{
    put_field(m, k, CONSUMED, v);
}

// rsp_prod_pvt, the index of the response to give next.
pub fn produced(m: &[u64; WORDS], k: PortIndex) -> u32
    ensures { result ≡ ((backend_of m.now).port k.index).produced }
{
    field_at(m, k, PRODUCED)
}

pub fn set_produced(m: &mut [u64; WORDS], k: PortIndex, v: u32)
    ensures { Becomes m.old (with_port (backend_of m.old) k.index (with_produced ((backend_of m.old).port k.index) v)) m.new }
{
    put_field(m, k, PRODUCED, v);
}

// The marks of the busy tags.
pub fn busy_marks(m: &[u64; WORDS], k: PortIndex) -> u64
    ensures { result ≡ ((backend_of m.now).port k.index).busy }
{
    field_at(m, k, BUSY)
}

pub fn set_busy_marks(m: &mut [u64; WORDS], k: PortIndex, marks: u64)
    ensures { Becomes m.old (with_port (backend_of m.old) k.index (with_busy ((backend_of m.old).port k.index) marks)) m.new }
{
    put_field(m, k, BUSY, marks);
}
