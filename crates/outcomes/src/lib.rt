// What serving a port comes to: the port broken by an overrun, or one request started, or one answered at once.
#![tactic(auto)]

ghost use Rattle.std.specs.Prelude.{◌≡◌, ◌^◌, ◌<◌};
ghost use Rattle.model.specs.Complete.{expected_of};
ghost use Rattle.model.specs.Backend.{with_pointer};
ghost use Rattle.model.specs.Deeds.{port_after};
ghost use Rattle.memory.specs.Backend.{backend_of, Becomes};
ghost use Rattle.outcomes.specs.Outcomes.{Reads, Room, Broke, Began, Declined};

use memory::WORDS;
use model::buffer::RINGS_BYTES;
use model::{Fault, Operation, Pair, Plan, Port, PortIndex, Serial, State, Tag, TagIndex, Turned};

// The pointer goes to the port after k.
fn advance(memory: &mut [u64; WORDS], k: PortIndex)
    ensures { Becomes memory.old (with_pointer (backend_of memory.old) (port_after k.index)) memory.new }
{
    memory::set_pointer(memory, k.next());
}

// The port is broken, and no page byte changes. Reads no guest byte.
pub fn overrun(memory: &mut [u64; WORDS], k: PortIndex) -> Turned
    ensures { Broke memory.old k.index result memory.new }
{
    memory::set_state(memory, k, State::Broken);
    advance(memory, k);
    Turned::Overrun(k.id())
}

// The result that the host is to complete a plan with: the count of a read, write or barrier, 0 for a flush or discard.
#[tactic(auto, unfolding(model::specs::Complete::expected_of))]
fn expected_of(plan: Plan) -> u32
    requires { expected_of plan < 2 ^ 32 }
    ensures { result ≡ expected_of plan }
{
    if plan.operation == Operation::Flush as u8 || plan.operation == Operation::Discard as u8 {
        return 0;
    }
    plan.count as u32
}

// The request passed: the lowest free tag keeps what its completion needs. Reads no guest byte, and no page byte
// changes.
pub fn start(memory: &mut [u64; WORDS], k: PortIndex, p: Port, pair: Pair, plan: Plan) -> Turned
    requires { Room (backend_of memory.old) k.index p × (expected_of plan < 2 ^ 32) }
    ensures { Began memory.old k.index p pair plan result memory.new }
{
    let t = TagIndex::new(marks::lowest_free(p.busy));
    let serial = Serial(p.consumed);
    let x = Tag {
        pair,
        serial,
        expected: expected_of(plan),
    };
    records::set_tag(memory, k, t, x);
    memory::set_consumed(memory, k, ring::next_index(p.consumed));
    memory::set_busy_marks(memory, k, marks::set_mark(p.busy, t));
    advance(memory, k);
    Turned::Started(k.id(), t.id(), serial, plan)
}

// The request failed a check: it is answered at once. Reads rsp_event, once.
pub fn decline(
    memory: &mut [u64; WORDS],
    rings: &mut [u8; RINGS_BYTES],
    k: PortIndex,
    p: Port,
    pair: Pair,
    fault: Fault,
) -> Turned
    requires { Reads (backend_of memory.old) k.index p }
    ensures { Declined memory.old rings.old k.index pair fault rings.new result memory.new }
{
    memory::set_consumed(memory, k, ring::next_index(p.consumed));
    let format = memory::format(memory, k);
    let produced = memory::produced(memory, k);
    let notify = response::respond(rings, k, format, produced, pair, fault.status);
    memory::set_produced(memory, k, ring::next_index(produced));
    advance(memory, k);
    Turned::Answered(k.id(), fault, notify)
}
