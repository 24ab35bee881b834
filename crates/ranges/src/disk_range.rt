// Checks 28 and 29 of a range: whether it is on the disk, and whether it keeps to whole sectors.
ghost use Rattle.std.specs.Prelude.{[], ◌≡◌};
ghost use Rattle.model.specs.Checks.{past_end, disk_checks, first_failed};
ghost use Rattle.checks.specs.Reasons.{with_status};

use crate::alignment::{IN_4096, are_aligned, unit_of};
use model::{Params, Reason};

// Whether the range ends past the last sector. Found by a difference: a sum of start and count could wrap.
#[tactic(auto, unfolding(model::specs::Checks::past_end))]
fn is_past(params: Params, start: u64, count: u64) -> bool
    ensures { result ≡ past_end params start count }
{
    params.sectors < count || params.sectors - count < start
}

// 28 and 29 of a range alone, without segments. On a disk of 512-byte sectors every number of sectors is whole; and
// what keeps to the largest sector size keeps to all, which spares a look at which it is.
#[tactic(auto, using(crate::proofs::DiskRange::of_range))]
pub fn check_range(params: Params, start: u64, count: u64) -> Result<(), Reason>
    ensures { with_status result ≡ first_failed (disk_checks params start count []) }
{
    if is_past(params, start, count) {
        return Err(Reason::PastEnd);
    }
    if unit_of(params.sector) == 1 {
        return Ok(());
    }
    if start % IN_4096 == 0 && count % IN_4096 == 0 {
        return Ok(());
    }
    if are_aligned(params.sector, start, count) {
        return Ok(());
    }
    Err(Reason::Unaligned)
}
