// Checks 26 and 27 over a request's segments, and the extents that they become.
#![tactic(auto)]

ghost use Rattle.std.specs.Prelude.{◌≡◌, ◌≤◌, cond};
ghost use Rattle.model.specs.Base.{all};
ghost use Rattle.model.specs.Checks.{max_segments, suffices, is_within_frame};
ghost use Rattle.model.specs.Ring.{segments_of};
ghost use Rattle.layout.specs.Copy.{copy_layout};
ghost use Rattle.segments.specs.Segments.{Scanned};

use layout::{COPY_SEGMENTS, SEGMENT_BYTES, SEGMENT_FIRST, SEGMENT_LAST, SLOT_BYTES};
use model::buffer::PORT_GRANTS;
use model::limit::{EXTENT_WORDS, FRAMES, LAST_IN_FRAME, PLAN_WORDS};
use model::{Operation, Reason};
use wire::Integer;

// The bytes of a segment to each word of its extent.
const STEP: usize = SEGMENT_BYTES / EXTENT_WORDS;

// Whether a grant byte suffices for an operation: a read has the frame written.
fn suffices(grant: u8, operation: u8) -> bool
    ensures { result ≡ suffices operation grant }
{
    if grant == model::grant::READ_WRITE {
        return true;
    }
    if operation == Operation::Read as u8 {
        return false;
    }
    grant == model::grant::READ
}

// The first n segments in one pass for both checks, their extents put into `words`: the sectors of all, or nothing
// where one does not pass. Which of the two it failed is looked for only then. A disk sector may pass 2^64 here, since
// check 28 comes later; it wraps, and the request is refused.
#[tactic(auto, using(crate::proofs::Pass::of_scan), unfolding(model::specs::Ring::segment_of))]
pub fn scan(
    slot: &[u8; SLOT_BYTES],
    n: usize,
    grants: &[u8; PORT_GRANTS],
    operation: u8,
    start: u64,
    words: &mut [u64; PLAN_WORDS],
) -> Option<u64>
    requires { n ≤ max_segments }
    ensures { Scanned grants.now operation start (segments_of n copy_layout slot.now 0) result words.new }
{
    let mut sector = start;
    // It counts the words, four to a segment: one number for both places. A `for` over the segments takes two
    // instructions more for each, measured.
    let mut place: usize = 0;
    while place < EXTENT_WORDS * n {
        let at = COPY_SEGMENTS + STEP * place;
        let first = slot[at + SEGMENT_FIRST];
        let last = slot[at + SEGMENT_LAST];
        if last < first {
            return None;
        }
        if LAST_IN_FRAME < last {
            return None;
        }
        let frame = u32::load(slot, at);
        if FRAMES <= frame {
            return None;
        }
        if !suffices(grants[frame as usize], operation) {
            return None;
        }
        let len = u64::from(last - first + 1);
        extents::put(words, place, frame.into(), first.into(), len, sector);
        sector = sector.wrapping_add(len);
        place += EXTENT_WORDS;
    }
    Some(sector.wrapping_sub(start))
}

// Which of 26 and 27 the first n segments fail, where they fail one: 26 where any is not within its frame.
#[tactic(auto, using(crate::proofs::Slot::of_frames), unfolding(model::specs::Ring::segment_of))]
pub fn fault_reason(slot: &[u8; SLOT_BYTES], n: usize) -> Reason
    requires { n ≤ max_segments }
    ensures { result
        ≡ cond (all is_within_frame (segments_of n copy_layout slot.now 0)) Reason.NotGranted Reason.WrongSegment }
{
    for i in 0..n {
        let at = layout::segment_at(i);
        let first = slot[at + SEGMENT_FIRST];
        let last = slot[at + SEGMENT_LAST];
        if last < first || LAST_IN_FRAME < last {
            return Reason::WrongSegment;
        }
    }
    Reason::NotGranted
}
