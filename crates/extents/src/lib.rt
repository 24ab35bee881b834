// The words of the extents: four to each of eleven places, in the order frame, first sector, number of sectors, disk
// sector.
#![tactic(auto)]

ghost use Rattle.std.specs.Prelude.{◌≡◌, [], ◌∷◌, ◌++◌, ◌+◌, ◌*◌, ◌-◌, ◌≤◌, take};
ghost use Rattle.std.proofs.lemmas.List.Edits.{sets};
ghost use Rattle.model.specs.Checks.{max_segments};
ghost use Rattle.model.specs.Plan.{extent_words, plan_words, no_words};

use model::limit::{EXTENT_WORDS, PLAN_WORDS};

// The four words of an extent go to `at` and the places after it.
pub fn put(words: &mut [u64; PLAN_WORDS], at: usize, frame: u64, first: u64, len: u64, sector: u64)
    requires { at + 4 ≤ plan_words }
    ensures { words.new ≡ sets words.old at (frame ∷ first ∷ len ∷ sector ∷ []) }
{
    words[at] = frame;
    words[at + 1] = first;
    words[at + 2] = len;
    words[at + 3] = sector;
}

// Zeros in every place from `from` on.
#[tactic(auto, using(crate::proofs::Words::cleared_behind))]
pub fn clear_from(words: &mut [u64; PLAN_WORDS], from: usize)
    requires { from ≤ max_segments }
    ensures { words.new ≡ take (4 * from) words.old ++ extent_words (max_segments - from) [] }
{
    words[EXTENT_WORDS * from..].fill(0);
}

// The words of a turn that has no plan: all zero.
#[tactic(auto, unfolding(model::specs::Plan::extent_words))]
pub fn no_extents(words: &mut [u64; PLAN_WORDS])
    ensures { words.new ≡ no_words }
{
    words.fill(0);
}
