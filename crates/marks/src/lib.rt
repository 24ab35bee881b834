// The marks of a port's busy tags: one word, a bit to a tag. How many requests they leave room for.
#![tactic(auto)]

ghost use Rattle.std.specs.Prelude.{◌≡◌, true, false, not, ◌+◌, ◌<◌, ◌≤◌, leb, ltb};
ghost use Rattle.model.specs.Base.{least};
ghost use Rattle.model.specs.Port.{busy_bits, is_busy, set_busy, clear_busy, in_flight_of};
ghost use Rattle.model.specs.Ring.{page_slots, ring_for};
ghost use Rattle.model.specs.declared.Abi.{Abi};

use layout::{PAGE_SLOTS, ring_size};
use model::{Pages, TagIndex};

// The lowest tag whose mark is clear: 64 where all are set.
pub fn lowest_free(marks: u64) -> u32
    ensures { result ≡ least busy_bits (λ t. not (is_busy marks t)) }
{
    (!marks).trailing_zeros()
}

pub fn is_busy(marks: u64, t: TagIndex) -> bool
    ensures { result ≡ is_busy marks t.index }
{
    (marks >> t.get()) % 2 == 1
}

// A sum and no `|`: the definition is a sum, and the mark was clear.
pub fn set_mark(marks: u64, t: TagIndex) -> u64
    requires { is_busy marks t.index ≡ false }
    ensures { result ≡ set_busy marks t.index }
{
    marks + (1u64 << t.get())
}

pub fn clear_mark(marks: u64, t: TagIndex) -> u64
    requires { is_busy marks t.index ≡ true }
    ensures { result ≡ clear_busy marks t.index }
{
    marks - (1u64 << t.get())
}

// How many tags are busy.
pub fn in_flight(marks: u64) -> u32
    ensures { result ≡ in_flight_of marks }
{
    marks.count_ones()
}

// Whether all marks are below n: then at most n tags are busy, and none has to be counted. The lowest free tag is used
// first, so they often are.
fn all_below(marks: u64, n: u32) -> bool
    requires { n < busy_bits }
    ensures { result ≡ true → in_flight_of marks ≤ n }
{
    marks >> n == 0
}

// Whether at most n tags are busy.
pub fn at_most(marks: u64, n: u32) -> bool
    requires { n < busy_bits }
    ensures { result ≡ leb (in_flight_of marks) n }
{
    all_below(marks, n) || in_flight(marks) <= n
}

// Whether one page has room for a distance d beside the requests in flight, as far as that is seen without counting.
// Then every ring has.
fn fits_one_page(marks: u64, d: u32) -> bool
    requires { d ≡ 0 → ⊥ }
    ensures { result ≡ true → d + in_flight_of marks ≤ page_slots }
{
    d <= PAGE_SLOTS && all_below(marks, PAGE_SLOTS - d)
}

// Whether a distance d is more than the ring has room for beside the requests in flight. How many pages it has is
// looked at only where one is too few.
pub fn overruns(pages: Pages, marks: u64, d: u32) -> bool
    requires { d ≡ 0 → ⊥ }
    ensures { (abi : Abi) → result ≡ ltb (ring_for abi pages).size (d + in_flight_of marks) }
{
    if fits_one_page(marks, d) {
        return false;
    }
    let size = ring_size(pages);
    if size < d {
        return true;
    }
    !at_most(marks, size - d)
}
