// Whether extents are such as a plan has.
ghost use Rattle.std.specs.Prelude.{◌≡◌, ◌&&◌, [], ◌+◌, ◌-◌, ◌<◌};
ghost use Rattle.runs.specs.Join.{extent_at, extents_at, is_sound, followed, are_sound};

use crate::extent::{Extents, follows, is_sound};

impl Extents<'_> {
    // Extent i is sound, and the next one, if there is one, follows it.
    #[tactic(auto, using(crate::proofs::Extents::neighbours))]
    fn sound_at(&self, i: usize) -> bool
        requires { i < self.now.n }
        ensures { result ≡ is_sound (extent_at self.now.words.now [] i) && followed (extent_at self.now.words.now [] i) (extents_at self.now.words.now [] (i + 1) (self.now.n - (i + 1))) }
    {
        let e = self.get(i);
        is_sound(e) && (i + 1 == self.n || follows(e, self.get(i + 1)))
    }

    #[tactic(auto, using(crate::proofs::Extents::sound_left))]
    pub fn are_sound(&self) -> bool
        ensures { result ≡ are_sound (extents_at self.now.words.now [] 0 self.now.n) }
    {
        for i in 0..self.n {
            if !self.sound_at(i) {
                return false;
            }
        }
        true
    }
}
