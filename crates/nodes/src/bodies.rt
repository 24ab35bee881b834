// The bodies of a sheet, read in turn.
ghost use Rattle.contents.specs.Contents.{entries_in};
ghost use Rattle.nodes.specs.Values.{Readable, BodiesRead};

use contents::{Table, length_of, node_of};
use model::Refusal;
use model::node::PLACES;
use texts::read_body;

// What each node is where the sheet has no entry for it. There is no node 0.
const ABSENT: [u64; PLACES] = [0, 0, 0, 0, 0, 0, 512, 0, 0, 0];

// The value of each node, or the first body's refusal. Each body is read once, in place. The nodes rise, so no value is
// stored over another.
pub fn read_bodies(table: &Table) -> Result<[u64; PLACES], Refusal>
    requires { Readable table.now.entries.now table.now.bodies.now }
    ensures { BodiesRead (entries_in table.now.entries.now table.now.bodies.now) result }
{
    let mut values = ABSENT;
    let mut rest = table.bodies;
    for entry in table.entries {
        let node = node_of(entry);
        let (body, behind) = rest.split_at(length_of(entry));
        let read = read_body(node, body);
        let Ok(value) = read else {
            // the refusal as it came
            return read.and(Ok(values));
        };
        values[node] = value;
        rest = behind;
    }
    Ok(values)
}
