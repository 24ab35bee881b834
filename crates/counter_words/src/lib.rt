// Which number an answer raises, by what the call returned and the words that it left, whatever they are.
#![tactic(auto)]

ghost use Rattle.std.specs.Prelude.{◌≡◌};
ghost use Rattle.model.specs.Counters.{kind_taken, word_counter, kind_status, taken_in, status_in, done_in};

use completion_answers::completed::DONE_STATUS;
use model::Counter;
use model::buffer::{DONE_WORDS, TURN_WORDS};
use turn_answers::{ANSWERED, KIND, OVERRUN, STARTED, STATUS};

// What a call returns that was done (rule 14.5).
pub const DONE: u32 = 0;

fn of_kind(kind: u64) -> Option<Counter>
    ensures { result ≡ kind_taken kind }
{
    match kind {
        STARTED | ANSWERED => Some(Counter::Taken),
        // An overrun takes no request.
        OVERRUN => None,
        _ => None,
    }
}

pub fn of_word(status: u64) -> Option<Counter>
    ensures { result ≡ word_counter status }
{
    match status {
        0 => Some(Counter::Okay),
        1 => Some(Counter::Error),
        2 => Some(Counter::NotSupported),
        _ => None,
    }
}

fn of_answered(kind: u64, status: u64) -> Option<Counter>
    ensures { result ≡ kind_status kind status }
{
    if kind == ANSWERED {
        return of_word(status);
    }
    None
}

// taken, where the words are those of a turn that took a request. Of a refused call no word is looked at, here and
// below.
pub fn taken_counter(returned: u32, answer: &[u64; TURN_WORDS]) -> Option<Counter>
    ensures { result ≡ taken_in returned answer.now }
{
    if returned != DONE {
        return None;
    }
    of_kind(answer[KIND])
}

// The number of the status, where the words are those of a turn that answered.
pub fn status_counter(returned: u32, answer: &[u64; TURN_WORDS]) -> Option<Counter>
    ensures { result ≡ status_in returned answer.now }
{
    if returned != DONE {
        return None;
    }
    of_answered(answer[KIND], answer[STATUS])
}

// The number of the status, where the words are a completion's.
pub fn done_counter(returned: u32, answer: &[u64; DONE_WORDS]) -> Option<Counter>
    ensures { result ≡ done_in returned answer.now }
{
    if returned != DONE {
        return None;
    }
    of_word(answer[DONE_STATUS])
}
