// The runs of extents: how many they are, and one after another.
ghost use Rattle.std.specs.Prelude.{◌≡◌, true, ◌+◌, ◌-◌, ◌<◌, length};
ghost use Rattle.runs.specs.Join.{extent_at, extents_at, joins_next, are_sound, runs_of};
ghost use Rattle.runs.specs.Found.{Found};

use crate::FirstRun;
use crate::extent::{Placed, joins};

impl Placed<'_, '_> {
    // Extent i joins the next one, if there is one.
    #[tactic(auto, using(crate::proofs::Extents::neighbours))]
    fn joins_next(&self, i: usize) -> bool
        requires { i < self.now.extents.n }
        ensures { result ≡ joins_next (extent_at self.now.extents.words.now self.now.frames.now i) (extents_at self.now.extents.words.now self.now.frames.now (i + 1) (self.now.extents.n - (i + 1))) }
    {
        i + 1 != self.extents.n && joins(self.get(i), self.get(i + 1))
    }

    // A run ends with each extent that does not join the next one.
    #[tactic(auto, using(crate::proofs::Runs::count_left))]
    pub fn count_runs(&self) -> usize
        ensures { result ≡ length (runs_of (extents_at self.now.extents.words.now self.now.frames.now 0 self.now.extents.n)) }
    {
        let mut count = 0;
        for i in 0..self.extents.n {
            if !self.joins_next(i) {
                count += 1;
            }
        }
        count
    }

    // The first run of the extents from i on, which are sound.
    pub fn first_run(&self, i: usize) -> FirstRun
        requires { (i < self.now.extents.n) × (are_sound (extents_at self.now.extents.words.now self.now.frames.now i (self.now.extents.n - i)) ≡ true) }
        ensures { Found self.now.extents.words.now self.now.frames.now i self.now.extents.n result }
    {
        let mut run = self.get(i);
        let mut last = run;
        for next in i + 1..self.extents.n {
            let e = self.get(next);
            if !joins(last, e) {
                return FirstRun { run, next };
            }
            run.length += e.length;
            last = e;
        }
        FirstRun {
            run,
            next: self.extents.n,
        }
    }
}
