// A request as its words say it, and whether it is one that may be put: refusal 33.
ghost use Rattle.std.specs.Prelude.{not, ◌&&◌, ◌||◌, ◌≡◌, ◌≤◌, leb};
ghost use Rattle.model.specs.Base.{all};
ghost use Rattle.model.specs.Checks.{max_segments, is_within_frame, wrong_amount};
ghost use Rattle.asking.specs.Request.{segments_in, request_in, is_foreign, is_narrow};

use model::Operation;
use model::buffer::REQUEST_WORDS;

// Which of the words is which. The segments' are frame, first and last sector.
pub const OPERATION: usize = 0;

pub const ID: usize = 1;

pub const START: usize = 2;

pub const COUNT: usize = 3;

pub const FLAG: usize = 4;

pub const SECTORS: usize = 5;

pub const SEGMENTS: usize = 8;

pub const SEGMENT_WORDS: usize = 3;

// The operations that a guest puts: its own list, whatever a backend knows besides.
const READ: u64 = Operation::Read as u64;

const WRITE: u64 = Operation::Write as u64;

pub const BARRIER: u64 = Operation::Barrier as u64;

pub const FLUSH: u64 = Operation::Flush as u64;

pub const DISCARD: u64 = Operation::Discard as u64;

const MOST_SEGMENTS: u64 = model::limit::MOST_SEGMENTS as u64;

const LAST_IN_FRAME: u64 = model::limit::LAST_IN_FRAME as u64;

// The values of a frame's field.
pub const FRAME_VALUES: u64 = 4294967296;

// Check 25 of a read or write.
fn wrong_count(n: u64) -> bool
    ensures { result ≡ not (leb 1 n && leb n max_segments) }
{
    !(1..=MOST_SEGMENTS).contains(&n)
}

// Whether check 21 or 25 fails.
#[tactic(auto, unfolding(crate::specs::Request::is_foreign, crate::specs::Request::request_in, model::specs::Checks::wrong_amount))]
pub fn wrong_asking(request: &[u64; REQUEST_WORDS]) -> bool
    ensures { result ≡ (is_foreign (request_in request.now) || wrong_amount (request_in request.now)) }
{
    let n = request[COUNT];
    match request[OPERATION] {
        READ | WRITE => wrong_count(n),
        BARRIER => MOST_SEGMENTS < n,
        FLUSH => n != 0,
        DISCARD => request[SECTORS] == 0,
        _ => true,
    }
}

// Whether one of the first n segments fails check 26, or has a frame that its field has no room for.
pub fn wrong_segments(request: &[u64; REQUEST_WORDS], n: usize) -> bool
    requires { n ≤ max_segments }
    ensures { result ≡ not (all is_within_frame (segments_in n request.now 0) && all is_narrow (segments_in n request.now 0)) }
{
    let (segments, _) = request[SEGMENTS..].as_chunks::<SEGMENT_WORDS>();
    !segments[..n].iter().all(|[frame, first, last]| {
        first <= last && *last <= LAST_IN_FRAME && *frame < FRAME_VALUES
    })
}
