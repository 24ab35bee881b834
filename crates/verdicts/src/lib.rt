// A request that passed the checks 21 to 25, judged: a discard, or a read, write or barrier with segments.
// Only the copy of its slot is read.
#![tactic(auto)]

ghost use Rattle.std.specs.Prelude.{true, ◌≡◌, ◌≤◌, List, ℕ, IfOk, get_or};
ghost use Rattle.model.specs.Base.{all};
ghost use Rattle.model.specs.Checks.{max_segments, is_within_frame, total_sectors};
ghost use Rattle.model.specs.Checks.{operation_checks, disk_checks, first_failed};
ghost use Rattle.model.specs.Plan.{verdict_of};
ghost use Rattle.model.specs.Ring.{request_operation_at, request_count_at, discard, segments_of};
ghost use Rattle.layout.specs.Copy.{copy_layout, request_in};
ghost use Rattle.checks.specs.Reasons.{with_status};
ghost use Rattle.verdicts.specs.Judge.{InFront};

use layout::{COPY_SEGMENTS, COPY_START, REQUEST_COUNT, REQUEST_OPERATION, SLOT_BYTES};
use model::buffer::PORT_GRANTS;
use model::limit::PLAN_WORDS;
use model::{Params, Plan, Reason};
use wire::Integer;

// A discard that passed the checks 21 to 25. It has no segments, so no grant is looked at.
#[tactic(auto, using(crate::proofs::Verdict::of_discard))]
pub fn decide_discard(params: Params, slot: &[u8; SLOT_BYTES]) -> Result<Plan, Reason>
    requires asked { first_failed (operation_checks params (request_in slot.now)) ≡ Ok tt }
    requires operation { get_or slot.now request_operation_at 0 ≡ discard }
    ensures { (grants : List ℕ) → with_status result ≡ verdict_of params grants (request_in slot.now) }
{
    let start = u64::load(slot, COPY_START);
    let count = u64::load(slot, COPY_SEGMENTS);
    ranges::check_range(params, start, count)?;
    let secure = plans::is_secure(slot[REQUEST_COUNT], params.secure);
    Ok(plans::discard(start, count, secure))
}

// 28 and 29 of a request whose first n segments, `count` sectors in all, lie within their frames.
#[tactic(auto, using(crate::proofs::Verdict::of_place))]
fn check_place(
    params: Params,
    slot: &[u8; SLOT_BYTES],
    n: usize,
    start: u64,
    count: u64,
) -> Result<(), Reason>
    requires few { n ≤ max_segments }
    requires within { all is_within_frame (segments_of n copy_layout slot.now 0) ≡ true }
    requires counted { count ≡ total_sectors (segments_of n copy_layout slot.now 0) }
    ensures { let segments = segments_of n copy_layout slot.now 0 in
        with_status result ≡ first_failed (disk_checks params start count segments) }
{
    ranges::check_range(params, start, count)?;
    if boundaries::keep_to_sectors(params.sector, slot, n, count) {
        return Ok(());
    }
    Err(Reason::Unaligned)
}

// A read, write or barrier with segments that passed the checks 21 to 25; its extents go to the front of `words`.
#[tactic(auto, using(crate::proofs::Verdict::of_data))]
pub fn decide_data(
    params: Params,
    slot: &[u8; SLOT_BYTES],
    grants: &[u8; PORT_GRANTS],
    words: &mut [u64; PLAN_WORDS],
) -> Result<Plan, Reason>
    requires asked { first_failed (operation_checks params (request_in slot.now)) ≡ Ok tt }
    requires no_discard { get_or slot.now request_operation_at 0 ≡ discard → ⊥ }
    requires some { get_or slot.now request_count_at 0 ≡ 0 → ⊥ }
    ensures verdict { with_status result ≡ verdict_of params grants.now (request_in slot.now) }
    ensures front { IfOk result (InFront (request_in slot.now) words.new) }
{
    let operation = slot[REQUEST_OPERATION];
    let n = usize::from(slot[REQUEST_COUNT]);
    let start = u64::load(slot, COPY_START);
    let Some(count) = segments::scan(slot, n, grants, operation, start, words) else {
        return Err(segments::fault_reason(slot, n));
    };
    check_place(params, slot, n, start, count)?;
    Ok(plans::data(operation, start, count, n as u64))
}
