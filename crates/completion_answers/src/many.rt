// The answer to a list of completions. Its statuses are written where each is found, and the words before them last.
ghost use Rattle.std.specs.Prelude.{◌≡◌};
ghost use Rattle.completion_answers.specs.Many.{many_number, many_put};

use model::buffer::MANY_WORDS;
use model::{CompletedMany, Refusal};

// Which word of the answer is which. The fourth is 0.
const MANY_PORT: usize = 0;

pub const MANY_COUNT: usize = 1;

const MANY_NOTIFY: usize = 2;

pub const MANY_STATUSES: usize = 4;

// The answer to a list of so many entries, and the number to return.
pub fn put_many(
    answer: &mut [u64; MANY_WORDS],
    completed: Result<CompletedMany, Refusal>,
    count: usize,
) -> u32
    ensures { (result ≡ many_number completed) × (answer.new ≡ many_put completed count answer.old) }
{
    match completed {
        Ok(done) => {
            answer[MANY_PORT] = u64::from(done.port.0);
            answer[MANY_COUNT] = count as u64;
            answer[MANY_NOTIFY] = u64::from(done.notify);
            answer[3] = 0;
            0
        }
        Err(refusal) => u32::from(refusal),
    }
}
