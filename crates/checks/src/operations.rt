// Checks 21 to 25: what a request asks for, before any of its segments is looked at.
ghost use Rattle.std.specs.Prelude.{cond, ◌≡◌};
ghost use Rattle.model.specs.Checks.{operation_checks, first_failed};
ghost use Rattle.layout.specs.Copy.{request_in};
ghost use Rattle.checks.specs.Reasons.{with_status};

use layout::{COPY_SEGMENTS, REQUEST_COUNT, REQUEST_OPERATION, SLOT_BYTES};
use model::limit::MOST_SEGMENTS;
use model::{Operation, Params, Reason};
use wire::Integer;

// One check: its reason where the request does not pass.
fn check(passes: bool, reason: Reason) -> Result<(), Reason>
    ensures { result ≡ cond passes (Ok tt) (Err reason) }
{
    if passes { Ok(()) } else { Err(reason) }
}

// The checks 21 to 25, in number order, of which each operation has its own; a discard's flag is not asked.
#[tactic(auto, unfolding(model::specs::Checks::operation_checks, // the table
model::specs::Checks::unknown_operation, // 21
model::specs::Checks::feature_off, // 22
model::specs::Checks::read_only, // 24
model::specs::Checks::wrong_amount, // 25
model::specs::Ring::request_of))]
pub fn check_operation(params: Params, slot: &[u8; SLOT_BYTES]) -> Result<(), Reason>
    ensures { with_status result ≡ first_failed (operation_checks params (request_in slot.now)) }
{
    let n = slot[REQUEST_COUNT];
    match Operation::try_from(slot[REQUEST_OPERATION])? {
        Operation::Read => check(1 <= n && n <= MOST_SEGMENTS, Reason::WrongAmount)?,
        Operation::Write => {
            check(params.writable, Reason::ReadOnly)?;
            check(1 <= n && n <= MOST_SEGMENTS, Reason::WrongAmount)?;
        }
        Operation::Barrier => {
            check(params.barrier, Reason::FeatureOff)?;
            check(params.writable, Reason::ReadOnly)?;
            check(n <= MOST_SEGMENTS, Reason::WrongAmount)?;
        }
        Operation::Flush => {
            check(params.flush, Reason::FeatureOff)?;
            check(n == 0, Reason::WrongAmount)?;
        }
        Operation::Discard => {
            check(params.discard, Reason::FeatureOff)?;
            check(params.writable, Reason::ReadOnly)?;
            check(u64::load(slot, COPY_SEGMENTS) != 0, Reason::WrongAmount)?;
        }
    }
    Ok(())
}
