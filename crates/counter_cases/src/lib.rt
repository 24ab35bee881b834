// A record and an answer in, the record out: which number is raised goes by the case of the answer.
#![tactic(auto)]

ghost use Rattle.std.specs.Prelude.{◌≡◌};
ghost use Rattle.model.specs.Counters.{status_counter, turn_taken, turn_status, after_turned, after_completed};
ghost use Rattle.model.specs.Complete.{of_one};

use counters::raised;
use model::{Completed, Counter, Counters, Refusal, Status, Turned};

// The number of a status.
fn of_status(status: Status) -> Counter
    ensures { result ≡ status_counter status }
{
    match status {
        Status::Okay => Counter::Okay,
        Status::Error => Counter::Error,
        Status::NotSupported => Counter::NotSupported,
    }
}

// taken, where the turn took a request.
fn taken_by(turned: Result<Turned, Refusal>) -> Option<Counter>
    ensures { result ≡ turn_taken turned }
{
    match turned {
        Err(_) | Ok(Turned::Idle | Turned::Overrun(_)) => None,
        Ok(Turned::Started(..) | Turned::Answered(..)) => Some(Counter::Taken),
    }
}

// The number of the status, where the turn answered.
fn answered_by(turned: Result<Turned, Refusal>) -> Option<Counter>
    ensures { result ≡ turn_status turned }
{
    match turned {
        Err(_) | Ok(Turned::Idle | Turned::Overrun(_) | Turned::Started(..)) => None,
        Ok(Turned::Answered(_, fault, _)) => Some(of_status(fault.status)),
    }
}

pub fn after_turn(counters: Counters, turned: Result<Turned, Refusal>) -> Counters
    ensures { result ≡ after_turned turned counters }
{
    let taken = raised(counters, taken_by(turned));
    raised(taken, answered_by(turned))
}

// A completion of one request raises the number of its status.
pub fn after_completion(counters: Counters, completed: Result<Completed, Refusal>) -> Counters
    ensures { result ≡ after_completed (of_one completed) counters }
{
    match completed {
        Ok(done) => raised(counters, Some(of_status(done.status))),
        Err(_) => counters,
    }
}
