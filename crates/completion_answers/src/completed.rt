// A completion's answer.
ghost use Rattle.std.specs.Prelude.{◌≡◌};
ghost use Rattle.model.specs.Answers.{completed_number, done_left};
ghost use Rattle.model.specs.Complete.{of_one};

use answers::magnitude;
use model::buffer::DONE_WORDS;
use model::{Completed, Refusal};

// Which word of the answer is which. The last is 0.
const DONE_PORT: usize = 0;

pub const DONE_STATUS: usize = 1;

const DONE_NOTIFY: usize = 2;

// The answer of a completion as words, and the number to return.
pub fn put_completed(answer: &mut [u64; DONE_WORDS], completed: Result<Completed, Refusal>) -> u32
    ensures { (result ≡ completed_number (of_one completed)) × (answer.new ≡ done_left (of_one completed) answer.old) }
{
    match completed {
        Ok(done) => {
            answer[DONE_PORT] = u64::from(done.port.0);
            answer[DONE_STATUS] = magnitude(done.status);
            answer[DONE_NOTIFY] = u64::from(done.notify);
            answer[3] = 0;
            0
        }
        Err(refusal) => u32::from(refusal),
    }
}
