// The record where it stands: the host lends it, and one field of it is raised, or none. A number that got to the top
// stays there (rule 15.2).
ghost use Rattle.std.specs.Prelude.{◌≡◌};
ghost use Rattle.model.specs.Counters.{raised_by};

use model::{Counter, Counters};

#[tactic(auto, unfolding(model::specs::Counters::one_more_of))]
pub fn raise(counters: &mut Counters, which: Option<Counter>)
    ensures { counters.new ≡ raised_by which counters.old }
{
    match which {
        Some(Counter::Taken) => counters.taken = counters.taken.saturating_add(1),
        Some(Counter::Okay) => counters.okay = counters.okay.saturating_add(1),
        Some(Counter::Error) => counters.error = counters.error.saturating_add(1),
        Some(Counter::NotSupported) => {
            counters.unsupported = counters.unsupported.saturating_add(1)
        }
        None => {}
    }
}
