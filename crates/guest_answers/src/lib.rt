// The answers of the guest's half as the words and the number that C reads.
#![tactic(auto)]

ghost use Rattle.std.specs.Prelude.{◌≡◌};
ghost use Rattle.model.specs.Answers.{put_number, collected_number, put_left, collected_left};

use model::buffer::{COLLECT_WORDS, PUT_WORDS};
use model::{Collected, Refusal};

// Which word of a put's answer is which, and which of a collect's.
const PUT_NOTIFY: usize = 0;

const COLLECT_FOUND: usize = 0;

const COLLECT_ID: usize = 1;

const COLLECT_OPERATION: usize = 2;

const COLLECT_STATUS: usize = 3;

// The answer of a put as a word, and the number to return.
pub fn put_put(answer: &mut [u64; PUT_WORDS], put: Result<bool, Refusal>) -> u32
    ensures { (result ≡ put_number put) × (answer.new ≡ put_left put answer.old) }
{
    match put {
        Ok(notify) => {
            answer[PUT_NOTIFY] = u64::from(notify);
            0
        }
        Err(refusal) => u32::from(refusal),
    }
}

// The answer of a collect as words, and the number to return.
pub fn put_collected(
    answer: &mut [u64; COLLECT_WORDS],
    collected: Result<Option<Collected>, Refusal>,
) -> u32
    ensures { (result ≡ collected_number collected) × (answer.new ≡ collected_left collected answer.old) }
{
    match collected {
        Ok(None) => {
            *answer = [0; COLLECT_WORDS];
            0
        }
        Ok(Some(found)) => {
            answer[COLLECT_FOUND] = 1;
            answer[COLLECT_ID] = found.pair.id;
            answer[COLLECT_OPERATION] = u64::from(found.pair.operation);
            answer[COLLECT_STATUS] = u64::from(found.status);
            0
        }
        Err(refusal) => u32::from(refusal),
    }
}
