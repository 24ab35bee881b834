// kh_join_extents
ghost use Rattle.runs.specs.Answer.{JoinReturned};

use model::buffer::JOIN_WORDS;
use runs::{Run, fill, judge, put_joined, taken};

#[unsafe(no_mangle)]
pub extern "C" fn kh_join_extents(
    extents: &[u64],
    pieces: u64,
    frames: &[u64],
    list: &mut [Run],
    answer: &mut [u64; JOIN_WORDS],
) -> u32
    ensures { JoinReturned extents.now pieces frames.now list.old answer.old result list.new answer.new }
{
    let joined = judge(extents, pieces, frames, list.len());
    fill(list, extents, frames, taken(pieces, joined));
    put_joined(answer, joined)
}
