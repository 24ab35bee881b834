// The status that a request's result comes to.
#![tactic(auto)]

ghost use Rattle.std.specs.Prelude.{◌≡◌};
ghost use Rattle.model.specs.Complete.{status_of};

use model::Status;
use model::result::NOT_SUPPORTED;

// The host's result against the count that was due. Both are widened, so that a count above 2^31 is no negative number;
// a result that comes as a word is one in two's complement.
#[tactic(auto, unfolding(model::specs::Complete::status_of))]
pub fn status_of(expected: u32, res: i64) -> Status
    ensures { result ≡ status_of expected res }
{
    if res == i64::from(expected) {
        return Status::Okay;
    }
    if res == NOT_SUPPORTED {
        Status::NotSupported
    } else {
        Status::Error
    }
}
