// The host's list, filled where it stands.
ghost use Rattle.std.specs.Prelude.{◌≡◌, true, ◌*◌, ◌≤◌, length};
ghost use Rattle.runs.specs.Join.{extents_at, are_sound};
ghost use Rattle.runs.specs.Answer.{runs_in, filled};

use crate::Run;
use crate::extent::{Extents, Placed};

// The runs of the first n extents, one to a record, from the first record on.
pub fn fill(list: &mut [Run], words: &[u64], frames: &[u64], n: usize)
    requires { (4 * n ≤ length words.now) × ((n ≤ length frames.now) × ((are_sound (extents_at words.now frames.now 0 n) ≡ true) × (length (runs_in words.now frames.now n) ≤ length list.old))) }
    ensures { list.new ≡ filled (runs_in words.now frames.now n) list.old }
{
    let extents = Extents { words, n };
    let placed = Placed { extents, frames };
    let mut from = 0;
    for run in list.iter_mut() {
        if from == n {
            return;
        }
        let found = placed.first_run(from);
        *run = found.run;
        from = found.next;
    }
}
