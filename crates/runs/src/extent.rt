// One extent, and how it stands to another. Sums that may be too large for a word are told by differences.
ghost use Rattle.std.specs.Prelude.{◌≡◌, [], ◌+◌, ◌*◌, ◌<◌, ◌≤◌, eqb, length};
ghost use Rattle.runs.specs.Join.{extent_at, is_sound, follows, joins};

use crate::Run;
use model::limit::EXTENT_WORDS;

// How many sectors a frame has (rule 8.26).
const FRAME_SECTORS: u64 = 8;

// The first n extents of a plan's words.
#[derive(Clone, Copy)]
pub struct Extents<'a> {
    pub words: &'a [u64],
    pub n: usize,
    ghost in_words: { 4 * n ≤ length words.now },
}

impl Extents<'_> {
    // The one at place i, in no machine frame.
    #[tactic(auto, unfolding(crate::specs::Join::extent_at))]
    pub fn get(&self, i: usize) -> Run
        requires { i < self.now.n }
        ensures { result ≡ extent_at self.now.words.now [] i }
    {
        let at = EXTENT_WORDS * i;
        Run {
            frame: 0,
            first: self.words[at + 1],
            length: self.words[at + 2],
            sector: self.words[at + 3],
        }
    }
}

// The same with the machine frames that the host names for them.
#[derive(Clone, Copy)]
pub struct Placed<'a, 'b> {
    pub extents: Extents<'a>,
    pub frames: &'b [u64],
    ghost in_frames: { extents.n ≤ length frames.now },
}

impl Placed<'_, '_> {
    // The one at place i, in its machine frame.
    #[tactic(auto, unfolding(crate::specs::Join::extent_at))]
    pub fn get(&self, i: usize) -> Run
        requires { i < self.now.extents.n }
        ensures { result ≡ extent_at self.now.extents.words.now self.now.frames.now i }
    {
        Run {
            frame: self.frames[i],
            ..self.extents.get(i)
        }
    }
}

#[tactic(auto, using(crate::proofs::Tests::sound_tests))]
pub fn is_sound(e: Run) -> bool
    ensures { result ≡ is_sound e }
{
    if e.length == 0 {
        return false;
    }
    if FRAME_SECTORS < e.length {
        return false;
    }
    if FRAME_SECTORS - e.length < e.first {
        return false;
    }
    e.length <= u64::MAX - e.sector
}

#[tactic(auto, using(crate::proofs::Tests::sums), unfolding(crate::specs::Join::follows))]
pub fn follows(e: Run, f: Run) -> bool
    ensures { result ≡ follows e f }
{
    if f.sector < e.length {
        return false;
    }
    f.sector - e.length == e.sector
}

// Whether the sector `at` of e's frame is the one behind its last.
fn ends_at(e: Run, at: u64) -> bool
    ensures { result ≡ eqb at (e.first + e.length) }
{
    if at < e.length {
        return false;
    }
    at - e.length == e.first
}

#[tactic(auto, using(crate::proofs::Tests::join_tests))]
pub fn joins(e: Run, f: Run) -> bool
    ensures { result ≡ joins e f }
{
    if f.frame == e.frame {
        return ends_at(e, f.first);
    }
    if f.first != 0 {
        return false;
    }
    if e.frame == u64::MAX {
        return false;
    }
    if f.frame != e.frame + 1 {
        return false;
    }
    ends_at(e, FRAME_SECTORS)
}
