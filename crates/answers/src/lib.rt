// What answers share: the number of a refusal, a status by its magnitude.
#![tactic(auto)]

ghost use Rattle.std.specs.Prelude.{◌≡◌};
ghost use Rattle.model.specs.Answers.{reply_number, magnitude};

use model::{Refusal, Status};

pub fn number(reply: Result<(), Refusal>) -> u32
    ensures { result ≡ reply_number reply }
{
    match reply {
        Ok(()) => 0,
        Err(refusal) => u32::from(refusal),
    }
}

// The number that a response carries, without its sign.
pub fn magnitude(status: Status) -> u64
    ensures { result ≡ magnitude status }
{
    u64::from(i16::from(status).unsigned_abs())
}
