// The words of backend memory, singly, each as the field that it holds.
ghost use Rattle.std.specs.Prelude.{◌≡◌, ◌<◌};
ghost use Rattle.memory.specs.Layout.{stride};
ghost use Rattle.memory.specs.Words.{word as word_at, set_word};

use crate::fields::Field;
use crate::{STRIDE, WORDS};
use model::PortIndex;

// The field in word q of port k.
#[tactic(auto, unfolding(crate::specs::Words::word))]
pub fn field_at<F: Field>(m: &[u64; WORDS], k: PortIndex, q: usize) -> F
    requires { q < stride }
    ensures { result ≡ F.of (word_at m.now k.index q) }
{
    F::of_word(m[STRIDE * k.get() + q])
}

#[tactic(auto, unfolding(crate::specs::Words::set_word))]
pub fn put_field<F: Field>(m: &mut [u64; WORDS], k: PortIndex, q: usize, v: F)
    requires { q < stride }
    ensures { m.new ≡ set_word m.old k.index q (F.word v) }
{
    m[STRIDE * k.get() + q] = v.word();
}
