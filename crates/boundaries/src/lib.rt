// Check 29 over a request's segments. Where it takes a second look at them, it is at the copy.
#![tactic(auto)]

ghost use Rattle.std.specs.Prelude.{true, ◌≡◌, ◌≤◌};
ghost use Rattle.model.specs.Base.{all};
ghost use Rattle.model.specs.Checks.{max_segments, is_within_frame, total_sectors, is_on_boundaries};
ghost use Rattle.model.specs.Ring.{segments_of};
ghost use Rattle.layout.specs.Copy.{copy_layout};

use layout::{SEGMENT_FIRST, SEGMENT_LAST, SLOT_BYTES};
use model::SectorSize;

// The sectors of a frame.
const IN_FRAME: u64 = 8;

// Whether each of the first n segments begins and ends where a sector of the disk does.
#[tactic(auto, using(crate::proofs::WholeFrames::by_segment), unfolding(model::specs::Ring::segment_of))]
fn are_on_boundaries(sector: SectorSize, slot: &[u8; SLOT_BYTES], n: usize) -> bool
    requires { n ≤ max_segments }
    ensures { result ≡ all (is_on_boundaries sector) (segments_of n copy_layout slot.now 0) }
{
    for i in 0..n {
        let at = layout::segment_at(i);
        let first = u64::from(slot[at + SEGMENT_FIRST]);
        let end = u64::from(slot[at + SEGMENT_LAST]) + 1;
        if !ranges::are_aligned(sector, first, end) {
            return false;
        }
    }
    true
}

// The same of segments within their frames, `count` sectors in all, mostly without a look at one. As many sectors as n
// frames have can only be n whole frames, which suit every sector size; fewer never suit sectors as large as a frame.
#[tactic(auto, using(crate::proofs::WholeFrames::by_count))]
pub fn keep_to_sectors(sector: SectorSize, slot: &[u8; SLOT_BYTES], n: usize, count: u64) -> bool
    requires few { n ≤ max_segments }
    requires within { all is_within_frame (segments_of n copy_layout slot.now 0) ≡ true }
    requires counted { count ≡ total_sectors (segments_of n copy_layout slot.now 0) }
    ensures { result ≡ all (is_on_boundaries sector) (segments_of n copy_layout slot.now 0) }
{
    let unit = ranges::unit_of(sector);
    if unit == 1 {
        return true;
    }
    if count == IN_FRAME * n as u64 {
        return true;
    }
    if unit == IN_FRAME {
        return false;
    }
    are_on_boundaries(sector, slot, n)
}
