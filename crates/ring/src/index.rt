// The indices of a ring, modulo 2^32.
ghost use Rattle.std.specs.Prelude.{◌≡◌};
ghost use Rattle.model.specs.Port.{distance as distance_of, further, after};

// The index after i.
pub fn next_index(i: u32) -> u32
    ensures { result ≡ after i }
{
    i.wrapping_add(1)
}

// The index n after i.
pub fn index_after(i: u32, n: u32) -> u32
    ensures { result ≡ further i n }
{
    i.wrapping_add(n)
}

// How far the index i is ahead of j.
#[tactic(auto, unfolding(model::specs::Port::distance))]
pub fn distance(i: u32, j: u32) -> u32
    ensures { result ≡ distance_of i j }
{
    i.wrapping_sub(j)
}
