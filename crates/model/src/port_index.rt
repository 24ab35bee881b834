// A port that there is, by its place among them: what a PortId comes to once it is known to be one.
ghost use Rattle.std.specs.Prelude.{◌≡◌, ◌+◌, ◌%◌, ◌<◌, ◌≤◌, MatchResult};
ghost use Rattle.model.specs.Buffers.{ports};

use crate::buffer::PORTS;
use crate::{PortId, Refusal};

// 0 to 7 (rule 1.1).
#[derive(Clone, Copy)]
pub struct PortIndex {
    index: usize,
    ghost in_range: { index < ports },
}

// Any other number is refused (rule 7.2).
impl TryFrom<PortId> for PortIndex {
    type Error = Refusal;

    ghost use Rattle.model.specs.declared.Refusal.{Refusal};

    ghost try_from_gives = { λ port r. MatchResult r (λ k. (k.index ≡ port.0) × (port.0 < ports)) (λ e. (e ≡ Refusal.NoPort) × (ports ≤ port.0)) };

    fn try_from(port: PortId) -> Result<PortIndex, Refusal> {
        let index = port.0 as usize;
        if index < PORTS {
            return Ok(PortIndex { index });
        }
        Err(Refusal::NoPort)
    }
}

impl PortIndex {
    ghost use Rattle.model.specs.Deeds.{port_after};
    ghost use Rattle.model.specs.Turn.{port_id};

    // The port at this place.
    pub fn new(index: usize) -> PortIndex
        requires { index < ports }
        ensures { result.index ≡ index }
    {
        PortIndex { index }
    }

    // Its place.
    pub fn get(self) -> usize
        ensures { result ≡ self.index }
    {
        self.index
    }

    // Its number, as the host is told it.
    pub fn id(self) -> PortId
        ensures { result ≡ port_id self.index }
    {
        PortId(self.index as u32)
    }

    // The port so many after it; the first follows the last.
    pub fn after(self, n: usize) -> PortIndex
        requires { n ≤ ports }
        ensures { result.index ≡ (self.index + n) % ports }
    {
        PortIndex {
            index: (self.index + n) % PORTS,
        }
    }

    // The port after it (rule 5.4).
    pub fn next(self) -> PortIndex
        ensures { result.index ≡ port_after self.index }
    {
        self.after(1)
    }
}
