// A guest's memory: its two indices, and its outstanding requests. Reading is total: no content of the words is wrong (rule 16.16).
//
// 0 put · 1 collected · 2 how many are outstanding · from IDS their ids · from OPERATIONS their operations
#![tactic(auto)]

ghost use Rattle.std.specs.Prelude.{◌≡◌, ◌<◌, ◌≤◌, length};
ghost use Rattle.guest.specs.Guest.{most_outstanding, found, has, same_id, same_pair};
ghost use Rattle.outstanding.specs.Words.{count_at, index_in, guest_of, set_pair, words_put, words_ended};

use layout::PAGE_SLOTS;
use model::Pair;
use model::buffer::GUEST_WORDS;

// The words of the two indices.
pub const PUT: usize = 0;

pub const COLLECTED: usize = 1;

const COUNT: usize = 2;

const IDS: usize = 3;

const OPERATIONS: usize = IDS + MOST;

// As many requests may be outstanding as the ring has slots.
pub const MOST: usize = PAGE_SLOTS as usize;

// The values of an index: its word is taken modulo that.
const VALUES_32: u64 = 4294967296;

// An index: at PUT that of the next request, at COLLECTED that of the next response.
pub fn index_at(w: &[u64; GUEST_WORDS], at: usize) -> u32
    requires { at < count_at }
    ensures { result ≡ index_in w.now at }
{
    (w[at] % VALUES_32) as u32
}

// How many requests are outstanding.
#[tactic(auto, using(crate::proofs::Words::length_outstanding))]
pub fn outstanding(w: &[u64; GUEST_WORDS]) -> usize
    ensures { (result ≡ length (guest_of w.now).outstanding) × (result ≤ most_outstanding) }
{
    w[COUNT].min(MOST as u64) as usize
}

// Whether one of them has this id.
pub fn has_id(w: &[u64; GUEST_WORDS], id: u64) -> bool
    ensures { result ≡ has (same_id id) (guest_of w.now).outstanding }
{
    w[IDS..IDS + outstanding(w)].contains(&id)
}

// Where the first with this id and operation stands, if there is one.
pub fn place_of(w: &[u64; GUEST_WORDS], pair: Pair) -> Option<usize>
    ensures { result ≡ found (same_pair pair) (guest_of w.now).outstanding }
{
    let n = outstanding(w);
    w[IDS..IDS + n]
        .iter()
        .zip(&w[OPERATIONS..OPERATIONS + n])
        .position(|(id, operation)| pair.id == *id && pair.operation as u64 == *operation)
}

#[tactic(auto, unfolding(crate::specs::Words::set_pair))]
fn set_pair(w: &mut [u64; GUEST_WORDS], i: usize, id: u64, operation: u64)
    requires { i < most_outstanding }
    ensures { w.new ≡ set_pair w.old i (record { id = id; operation = operation }) }
{
    w[IDS + i] = id;
    w[OPERATIONS + i] = operation;
}

// One request more, put at our index.
pub fn add(w: &mut [u64; GUEST_WORDS], id: u64, operation: u64)
    requires { length (guest_of w.old).outstanding < most_outstanding }
    ensures { w.new ≡ words_put w.old (record { id = id; operation = operation }) }
{
    let n = outstanding(w);
    let next = ring::next_index(index_at(w, PUT));
    w[PUT] = next as u64;
    w[COUNT] = n as u64 + 1;
    set_pair(w, n, id, operation);
}

// One less: the request at place i has its response, and the last takes its place.
pub fn end(w: &mut [u64; GUEST_WORDS], i: usize)
    requires { i < length (guest_of w.old).outstanding }
    ensures { w.new ≡ words_ended w.old i }
{
    let last = outstanding(w) - 1;
    let id = w[IDS + last];
    let operation = w[OPERATIONS + last];
    let next = ring::next_index(index_at(w, COLLECTED));
    w[COLLECTED] = next as u64;
    w[COUNT] = last as u64;
    set_pair(w, i, id, operation);
}
