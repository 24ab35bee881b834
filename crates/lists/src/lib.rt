// Completing a list of started requests of one port: all of them, or none. Two passes over the entries: the first
// (`entries`) reads what they name and writes nothing, the second answers them. rsp_prod is stored once, behind the
// last response, and rsp_event read once, after that.
#![tactic(auto)]

ghost use Rattle.std.specs.Prelude.{◌≡◌, false, ◌+◌, ◌-◌, ◌*◌, ◌/◌, ◌%◌, ◌<◌, ◌≤◌, length, replicate};
ghost use Rattle.std.proofs.lemmas.List.Edits.{sets};
ghost use Rattle.model.specs.Calls.{most_completions};
ghost use Rattle.model.specs.Complete.{entry_words};
ghost use Rattle.model.specs.Ring.{ring_of};
ghost use Rattle.memory.specs.Backend.{backend_of};
ghost use Rattle.model.specs.Port.{is_closed};
ghost use Rattle.model.specs.Turn.{port_id};
ghost use Rattle.lists.specs.List.{EntryFinished, TagsNamed, AllFinished, AllResponded, ListTaken, ListFinished, ManyPromised, statuses_at};

use answers::magnitude;
use completion::{FREE_TAG, in_use};
use completion_answers::many::MANY_STATUSES;
use entries::left_busy;
use layout::ring_bytes;
use memory::WORDS;
use model::buffer::{MANY_WORDS, RING_SHARE, RINGS_BYTES};
use model::limit::{ENTRY_WORDS, MOST_COMPLETIONS};
use model::{CompletedMany, Params, Port, PortId, PortIndex, Refusal, Status, TagIndex};

// Answers the request of tag t with the response of this index, and zeroes the tag. Reads no ring byte.
fn finish_entry(
    memory: &mut [u64; WORDS],
    page: &mut [u8],
    k: PortIndex,
    params: Params,
    index: u32,
    t: TagIndex,
    res: u64,
) -> Status
    requires { length page.old ≡ (ring_of params).bytes }
    ensures { EntryFinished memory.old page.old k.index params.abi params.pages index t.index res page.new result memory.new }
{
    let x = records::tag_at(memory, k, t);
    records::set_tag(memory, k, t, FREE_TAG);
    let status = status::status_of(x.expected, res.cast_signed());
    response_bytes::put_response(page, params.format(), index, x.pair, status);
    status
}

// The second pass: every entry is answered, and its status noted. Reads no ring byte.
fn finish_all(
    memory: &mut [u64; WORDS],
    page: &mut [u8],
    k: PortIndex,
    p: Port,
    entries: &[u64],
    answer: &mut [u64; MANY_WORDS],
)
    requires { (length page.old ≡ (ring_of p.params).bytes) × (length entries.now ≤ entry_words * most_completions) × TagsNamed entries.now }
    ensures { AllFinished memory.old page.old k.index (ring_of p.params) p.produced entries.now answer.old page.new answer.new memory.new }
{
    let (whole, _) = entries.as_chunks::<ENTRY_WORDS>();
    let mut index = p.produced;
    for (i, entry) in whole.iter().enumerate() {
        let [tag, _, res] = *entry;
        let status = finish_entry(
            memory,
            page,
            k,
            p.params,
            index,
            TagIndex::new(tag as u32),
            res,
        );
        answer[MANY_STATUSES + i] = magnitude(status);
        index = ring::next_index(index);
    }
}

// The same, and published. Reads bytes 12 to 15 of the port's ring, once.
fn respond_all(
    memory: &mut [u64; WORDS],
    page: &mut [u8],
    k: PortIndex,
    p: Port,
    entries: &[u64],
    answer: &mut [u64; MANY_WORDS],
) -> bool
    requires { (length page.old ≡ (ring_of p.params).bytes) × (0 < length entries.now / entry_words) × (length entries.now ≤ entry_words * most_completions) × TagsNamed entries.now }
    ensures { AllResponded memory.old page.old k.index (ring_of p.params) p.produced entries.now answer.old page.new answer.new memory.new result }
{
    finish_all(memory, page, k, p, entries, answer);
    let n = entries.len() / ENTRY_WORDS;
    publishing::publish(page, p.produced, n as u32)
}

// Zeros for the statuses from the n-th on.
fn clear_rest(answer: &mut [u64; MANY_WORDS], n: usize)
    requires { n ≤ most_completions }
    ensures { answer.new ≡ sets answer.old (statuses_at + n) (replicate (most_completions - n) 0) }
{
    answer[MANY_STATUSES + n..].fill(0);
}

// Answers a list of some entries that all name busy requests, of port p, and leaves these marks.
fn finish_list(
    memory: &mut [u64; WORDS],
    rings: &mut [u8; RINGS_BYTES],
    k: PortIndex,
    p: Port,
    marks: u64,
    entries: &[u64],
    answer: &mut [u64; MANY_WORDS],
) -> CompletedMany
    requires { ListTaken (backend_of memory.old) k.index p entries.now }
    ensures { ListFinished memory.old rings.old (port_id k.index) marks entries.now answer.old rings.new result answer.new memory.new }
{
    let n = entries.len() / ENTRY_WORDS;
    let base = RING_SHARE * k.get();
    let end = base + ring_bytes(p.params.pages);
    let notify = respond_all(memory, &mut rings[base..end], k, p, entries, answer);
    clear_rest(answer, n);
    memory::set_produced(memory, k, ring::index_after(p.produced, n as u32));
    memory::set_busy_marks(memory, k, marks);
    CompletedMany {
        port: k.id(),
        notify,
    }
}

// Completes a list of a port that is open or broken.
fn complete_listed(
    memory: &mut [u64; WORDS],
    rings: &mut [u8; RINGS_BYTES],
    k: PortIndex,
    entries: &[u64],
    answer: &mut [u64; MANY_WORDS],
) -> Result<CompletedMany, Refusal>
    requires { (is_closed ((backend_of memory.old).port k.index).state ≡ false) × (length entries.now % entry_words ≡ 0) }
    ensures { ManyPromised memory.old rings.old (port_id k.index) entries.now answer.old rings.new result answer.new memory.new }
{
    if ENTRY_WORDS * MOST_COMPLETIONS < entries.len() {
        return Err(Refusal::TooMany);
    }
    if entries.len() < ENTRY_WORDS {
        clear_rest(answer, 0);
        return Ok(CompletedMany {
            port: k.id(),
            notify: false,
        });
    }
    let p = records::port_at(memory, k);
    let Some(marks) = left_busy(memory, k, p.params.pages, p.busy, entries) else {
        return Err(Refusal::NotBusy);
    };
    Ok(finish_list(memory, rings, k, p, marks, entries, answer))
}

// Completes a list of started requests of one port with the host's results. Statuses go into the answer from its fifth
// word on; the words before them stay.
pub fn complete_many(
    memory: &mut [u64; WORDS],
    rings: &mut [u8],
    port: PortId,
    entries: &[u64],
    answer: &mut [u64; MANY_WORDS],
) -> Result<CompletedMany, Refusal>
    ensures { ManyPromised memory.old rings.old port entries.now answer.old rings.new result answer.new memory.new }
{
    // The length first, and the array behind the refusals made here: with the first of them in the array's else each
    // takes four instructions more.
    if rings.len() != RINGS_BYTES {
        return Err(Refusal::WrongLength);
    }
    if entries.len() % ENTRY_WORDS != 0 {
        return Err(Refusal::WrongLength);
    }
    let k = in_use(memory, port)?;
    let Some(rings) = rings.as_mut_array::<RINGS_BYTES>() else {
        unreachable!();
    };
    complete_listed(memory, rings, k, entries, answer)
}
