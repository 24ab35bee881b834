// The call: refused with 10, 8 or 9, or done. Its answer is the number of runs (rule 17.14).
ghost use Rattle.std.specs.Prelude.{◌≡◌};
ghost use Rattle.runs.specs.Answer.{joined, joined_number, joined_words, taken};

use crate::extent::{Extents, Placed};
use model::Refusal;
use model::buffer::JOIN_WORDS;
use model::limit::EXTENT_WORDS;

// The answer to extents and frames, where the list has `room` records. A frame is looked at only where there is one for each extent.
#[tactic(auto, using(crate::proofs::Judged::judged))]
pub fn judge(words: &[u64], count: u64, frames: &[u64], room: usize) -> Result<u64, Refusal>
    ensures { result ≡ joined words.now count frames.now room }
{
    let n = count as usize;
    if words.len() / EXTENT_WORDS < n {
        return Err(Refusal::NoPlan);
    }
    let extents = Extents { words, n };
    if !extents.are_sound() {
        return Err(Refusal::NoPlan);
    }
    if frames.len() < n {
        return Err(Refusal::TooFewFrames);
    }
    let runs = Placed { extents, frames }.count_runs();
    if room < runs {
        return Err(Refusal::TooFewRuns);
    }
    Ok(runs as u64)
}

// How many extents are to be joined.
pub fn taken(count: u64, joined: Result<u64, Refusal>) -> usize
    ensures { result ≡ taken count joined }
{
    match joined {
        Ok(_) => count as usize,
        Err(_) => 0,
    }
}

// The answer's word, which a refusal leaves alone, and the number to return.
pub fn put_joined(answer: &mut [u64; JOIN_WORDS], joined: Result<u64, Refusal>) -> u32
    ensures { (result ≡ joined_number joined) × (answer.new ≡ joined_words answer.old joined) }
{
    match joined {
        Ok(runs) => {
            answer[0] = runs;
            0
        }
        Err(refusal) => u32::from(refusal),
    }
}
