// Completing one started request: the list of one (rule 6.23), in fewer instructions than a list takes. All that is
// remembered between calls is the lent memory. The call asks nothing of its arguments: what it cannot take it refuses,
// and then changes nothing.
#![tactic(auto)]

ghost use Rattle.std.specs.Prelude.{◌≡◌, false};
ghost use Rattle.model.specs.Calls.{Complete};
ghost use Rattle.model.specs.Complete.{the_one, of_one};
ghost use Rattle.memory.specs.Backend.{backend_of};
ghost use Rattle.model.specs.Port.{is_closed};
ghost use Rattle.model.specs.Turn.{port_id};
ghost use Rattle.memory.specs.Promise.{Promised};
ghost use Rattle.completion.specs.Steps.{TagHeld, Released, TagFinished, FoundInUse};

use layout::has_tag;
use memory::WORDS;
use model::buffer::RINGS_BYTES;
use model::{
    Completed, Pair, Port, PortId, PortIndex, Refusal, Serial, State, Tag, TagId, TagIndex,
};

// A free tag keeps only zeros.
pub const FREE_TAG: Tag = Tag {
    pair: Pair {
        id: 0,
        operation: 0,
    },
    serial: Serial(0),
    expected: 0,
};

// That there is such a port, and it is open or broken; else why it is refused.
pub fn in_use(memory: &[u64; WORDS], port: PortId) -> Result<PortIndex, Refusal>
    ensures { FoundInUse (backend_of memory.now) port result }
{
    let k = PortIndex::try_from(port)?;
    match memory::state(memory, k) {
        State::Closed => Err(Refusal::IsClosed),
        State::Open | State::Broken => Ok(k),
    }
}

// Tag t of port k is free again, and R rises by one.
fn release(memory: &mut [u64; WORDS], k: PortIndex, t: TagIndex, p: Port)
    requires { TagHeld (backend_of memory.old) k.index t.index p }
    ensures { Released memory.old k.index t.index memory.new }
{
    records::set_tag(memory, k, t, FREE_TAG);
    memory::set_produced(memory, k, ring::next_index(p.produced));
    memory::set_busy_marks(memory, k, marks::clear_mark(p.busy, t));
}

// Answers the request that tag x was started with, and releases the tag. Reads bytes 12 to 15 of the port's ring, once.
fn finish(
    memory: &mut [u64; WORDS],
    rings: &mut [u8; RINGS_BYTES],
    k: PortIndex,
    t: TagIndex,
    p: Port,
    x: Tag,
    res: i32,
) -> Completed
    requires { TagHeld (backend_of memory.old) k.index t.index p }
    ensures { TagFinished memory.old rings.old (port_id k.index) t.index x res rings.new result memory.new }
{
    release(memory, k, t, p);
    let status = status::status_of(x.expected, i64::from(res));
    let notify = response::respond(rings, k, p.params.format(), p.produced, x.pair, status);
    Completed {
        port: k.id(),
        status,
        notify,
    }
}

// Completes a request of a port that is open or broken: the one that the tag and serial name. Reads the ring only as
// `finish` does.
fn complete_named(
    memory: &mut [u64; WORDS],
    rings: &mut [u8; RINGS_BYTES],
    k: PortIndex,
    tag: TagId,
    serial: Serial,
    res: i32,
) -> Result<Completed, Refusal>
    requires { is_closed ((backend_of memory.old).port k.index).state ≡ false }
    ensures { Promised memory.old (Complete rings.old (port_id k.index) (the_one tag serial res)) (record { rings = rings.new; answer = of_one result }) memory.new }
{
    // Tested before the port is read: that takes fewer instructions than the other way round.
    if !has_tag(memory::pages(memory, k), tag.0) {
        return Err(Refusal::NotBusy);
    }
    let t = TagIndex::new(tag.0);
    let p = records::port_at(memory, k);
    if !marks::is_busy(p.busy, t) {
        return Err(Refusal::NotBusy);
    }
    let x = records::tag_at(memory, k, t);
    if x.serial.0 != serial.0 {
        return Err(Refusal::NotBusy);
    }
    Ok(finish(memory, rings, k, t, p, x, res))
}

// Completes a started request with the host's result. Reads the ring only as `finish` does.
pub fn complete(
    memory: &mut [u64; WORDS],
    rings: &mut [u8],
    port: PortId,
    tag: TagId,
    serial: Serial,
    res: i32,
) -> Result<Completed, Refusal>
    ensures { Promised memory.old (Complete rings.old port (the_one tag serial res)) (record { rings = rings.new; answer = of_one result }) memory.new }
{
    let Some(rings) = rings.as_mut_array::<RINGS_BYTES>() else {
        return Err(Refusal::WrongLength);
    };
    let k = in_use(memory, port)?;
    complete_named(memory, rings, k, tag, serial, res)
}
