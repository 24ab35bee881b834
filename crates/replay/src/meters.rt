// The counters of all ports, as the host's own records: each answer is handed over to those of the port that it names.
use model::buffer::{MANY_WORDS, PORTS};
use model::{Completed, Counters, PortId, Refusal, Turned};

pub const ZERO: Counters = Counters {
    taken: 0,
    okay: 0,
    error: 0,
    unsupported: 0,
};

#[derive(Drop)]
pub struct PortCounters([Counters; PORTS]);

impl PortCounters {
    pub fn new() -> PortCounters {
        PortCounters([ZERO; PORTS])
    }

    // Those of a port, whatever its number.
    pub fn of(&mut self, port: PortId) -> &mut Counters {
        &mut self.0[port.0 as usize % PORTS]
    }

    pub fn after_turn(&mut self, turned: Result<Turned, Refusal>) {
        let port = match turned {
            Ok(Turned::Overrun(port) | Turned::Started(port, ..) | Turned::Answered(port, ..)) =>
                port,
            // What names no port raises nothing.
            Ok(Turned::Idle) | Err(_) => return,
        };
        let counters = self.of(port);
        *counters = counter_cases::after_turn(*counters, turned);
    }

    pub fn after_completion(&mut self, completed: Result<Completed, Refusal>) {
        if let Ok(done) = completed {
            let counters = self.of(done.port);
            *counters = counter_cases::after_completion(*counters, completed);
        }
    }

    // What the call returned, and the words that it left, go to the counters of the port that was named.
    pub fn after_many(&mut self, port: PortId, returned: u32, answer: &[u64; MANY_WORDS]) {
        let counters = self.of(port);
        *counters = counters::after_many(*counters, returned, answer);
    }
}
