// One request, judged: the checks 21 to 29 over the copy of its slot, and the plan of a request that passes them.
// Only the copy is read, so nothing that a guest writes meanwhile can change a field between its check and its use.
#![tactic(auto)]

ghost use Rattle.std.specs.Prelude.{◌≡◌, IfOk};
ghost use Rattle.model.specs.Plan.{verdict_of};
ghost use Rattle.layout.specs.Copy.{request_in};
ghost use Rattle.checks.specs.Reasons.{with_status};
ghost use Rattle.verdicts.specs.Judge.{InFront, Judged};

use layout::{COPY_ID, REQUEST_COUNT, REQUEST_OPERATION, SLOT_BYTES};
use model::buffer::PORT_GRANTS;
use model::limit::PLAN_WORDS;
use model::{Fault, Operation, Pair, Params, Plan, Reason};
use wire::Integer;

// What the guest tells this request apart by: its id and operation.
#[tactic(auto, unfolding(model::specs::Ring::request_of))]
pub fn pair_of(slot: &[u8; SLOT_BYTES]) -> Pair
    ensures { result ≡ (request_in slot.now).pair }
{
    Pair {
        id: u64::load(slot, COPY_ID),
        operation: slot[REQUEST_OPERATION],
    }
}

// The verdict on the request in a slot's copy; a plan's extents go to the front of `words`.
#[tactic(auto, using(crate::proofs::Asked::of_request))]
fn decide(
    params: Params,
    slot: &[u8; SLOT_BYTES],
    grants: &[u8; PORT_GRANTS],
    words: &mut [u64; PLAN_WORDS],
) -> Result<Plan, Reason>
    ensures verdict { with_status result ≡ verdict_of params grants.now (request_in slot.now) }
    ensures front { IfOk result (InFront (request_in slot.now) words.new) }
{
    checks::check_operation(params, slot)?;
    let operation = slot[REQUEST_OPERATION];
    if operation == Operation::Discard as u8 {
        return verdicts::decide_discard(params, slot);
    }
    if slot[REQUEST_COUNT] == 0 {
        return Ok(plans::empty(operation));
    }
    verdicts::decide_data(params, slot, grants, words)
}

// The same with the status that goes with a reason, and `words` whole: four to each extent, zero where there is none.
// A refused request has none.
#[tactic(auto, using(crate::proofs::Asked::of_words))]
pub fn judge(
    params: Params,
    slot: &[u8; SLOT_BYTES],
    grants: &[u8; PORT_GRANTS],
    words: &mut [u64; PLAN_WORDS],
) -> Result<Plan, Fault>
    ensures { Judged params grants.now slot.now result words.new }
{
    match decide(params, slot, grants, words) {
        Ok(plan) => {
            extents::clear_from(words, plan.extents as usize);
            Ok(plan)
        }
        Err(reason) => {
            extents::no_extents(words);
            Err(reason.into())
        }
    }
}
