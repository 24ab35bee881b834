// The words of backend memory in runs.
ghost use Rattle.std.specs.Prelude.{◌≡◌, ◌+◌, ◌≤◌, length};
ghost use Rattle.std.proofs.lemmas.List.Edits.{sets};
ghost use Rattle.memory.specs.Layout.{memory_words};

use memory::WORDS;

// The words w go to the places from `from` on.
pub fn put_run(m: &mut [u64; WORDS], from: usize, w: &[u64])
    requires { from + length w.now ≤ memory_words }
    ensures { m.new ≡ sets m.old from w.now }
{
    m[from..from + w.len()].copy_from_slice(w);
}
