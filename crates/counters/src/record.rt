// The record by value.
ghost use Rattle.std.specs.Prelude.{◌≡◌};
ghost use Rattle.model.specs.Counters.{raised_by};

use crate::place::raise;
use model::{Counter, Counters};

// The record with one of its numbers raised, or none.
pub fn raised(mut counters: Counters, which: Option<Counter>) -> Counters
    ensures { result ≡ raised_by which counters }
{
    raise(&mut counters, which);
    counters
}
