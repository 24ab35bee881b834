// What a line asks for, by its letter and its numbers.
use lines::input::{narrow, signed};
use model::buffer::{GRANTS_BYTES, PORT_GRANTS, PORTS, RING_SHARE, RINGS_BYTES};
use model::{PortId, Serial, TagId};

// A call, with its arguments and how many bytes of the buffers are lent to it.
pub enum Call<'a> {
    // The port, and the bytes of its sheet behind it.
    Open(&'a [u64]),
    Close(PortId),
    Turn {
        rings: usize,
        grants: usize,
    },
    Complete {
        rings: usize,
        port: PortId,
        tag: TagId,
        serial: Serial,
        outcome: i32,
    },
    CompleteMany {
        rings: usize,
        port: PortId,
        entries: &'a [u64],
    },
}

// A call, or something else that the host does, which changes no ring byte that would be told.
pub enum Command<'a> {
    // Bytes into the rings or the grants, from a place on.
    PutRings(usize, &'a [u64]),
    PutGrants(usize, &'a [u64]),
    Call(Call<'a>),
    ShowCounters(PortId),
    ZeroCounters(PortId),
}

// A number that the line does not have is 0.
fn number(numbers: &[u64], place: usize) -> u64 {
    numbers.get(place).copied().unwrap_or(0)
}

fn port(numbers: &[u64], place: usize) -> PortId {
    PortId(narrow(number(numbers, place)))
}

// The numbers from a place on.
fn behind(numbers: &[u64], place: usize) -> &[u64] {
    numbers.get(place..).unwrap_or(&[])
}

impl<'a> Command<'a> {
    // What the line asks for, if it does.
    pub fn parse(line: &'a [u8], numbers: &'a [u64]) -> Option<Command<'a>> {
        let first = number(numbers, 0) as usize;
        let second = number(numbers, 1) as usize;
        match *line.first()? {
            b'b' => {
                let place = first % PORTS * RING_SHARE + second % RING_SHARE;
                Some(Command::PutRings(place, behind(numbers, 2)))
            }
            b'g' => {
                let place = first % PORTS * PORT_GRANTS + second % PORT_GRANTS;
                Some(Command::PutGrants(place, behind(numbers, 2)))
            }
            b'm' => Some(Command::ShowCounters(port(numbers, 0))),
            b'z' => Some(Command::ZeroCounters(port(numbers, 0))),
            letter => Some(Command::Call(Call::parse(letter, line, numbers)?)),
        }
    }
}

impl<'a> Call<'a> {
    fn parse(letter: u8, line: &[u8], numbers: &'a [u64]) -> Option<Call<'a>> {
        // Only an outcome can be negative, so a minus sign anywhere is its own.
        let is_negative = line.contains(&b'-');
        let first = number(numbers, 0) as usize;
        match letter {
            b'o' => Some(Call::Open(numbers)),
            b'c' => Some(Call::Close(port(numbers, 0))),
            b't' => Some(Call::Turn {
                rings: RINGS_BYTES,
                grants: GRANTS_BYTES,
            }),
            b'T' => Some(Call::Turn {
                rings: first,
                grants: number(numbers, 1) as usize,
            }),
            b'f' => Some(Call::complete(RINGS_BYTES, numbers, is_negative)),
            b'F' => Some(Call::complete(first, behind(numbers, 1), is_negative)),
            b'l' => Call::complete_many(RINGS_BYTES, numbers),
            b'L' => Call::complete_many(first, behind(numbers, 1)),
            _ => None,
        }
    }

    fn complete(rings: usize, numbers: &[u64], is_negative: bool) -> Call<'a> {
        Call::Complete {
            rings,
            port: port(numbers, 0),
            tag: TagId(narrow(number(numbers, 1))),
            serial: Serial(narrow(number(numbers, 2))),
            outcome: signed(number(numbers, 3), is_negative),
        }
    }

    // A list names its port.
    fn complete_many(rings: usize, numbers: &'a [u64]) -> Option<Call<'a>> {
        let (_, entries) = numbers.split_first()?;
        Some(Call::CompleteMany {
            rings,
            port: port(numbers, 0),
            entries,
        })
    }
}
