// The types that every layer shares. What they mean, and all the rules, stand in specs/.
#![tactic(auto)]

ghost use Rattle.std.specs.Prelude.{◌≡◌};
ghost use Rattle.model.specs.Numbers.{fault_of, number_refusal, operation_of, reason_number, refusal_number};
ghost use Rattle.model.specs.Ring.{status_number};

pub mod buffer;
pub mod grant;
pub mod limit;
pub mod node;
mod port_index;
pub mod result;
mod tag_index;

pub use port_index::PortIndex;
pub use tag_index::TagIndex;

// A port's number, as the host hands it in: any u32, 0 to 7 are ports (rules 1.1 and 7.2).
#[derive(Clone, Copy)]
pub struct PortId(pub u32);

// The number of a tag (ticket): a started request's place in its port (rule 4.7).
#[derive(Clone, Copy)]
pub struct TagId(pub u32);

// The request index that a started request was taken at (rule 5.21).
#[derive(Clone, Copy)]
pub struct Serial(pub u32);

// How a guest lays out requests and responses (rule 1.16).
#[derive(Clone, Copy)]
pub enum Abi {
    Bits64,
    Bits32,
}

// How many pages a guest's ring has (rule 2.3).
#[derive(Clone, Copy)]
pub enum Pages {
    One,
    Two,
}

// How a guest lays out its ring: the records in it, and the pages that it has.
#[derive(Clone, Copy)]
pub struct Format {
    pub abi: Abi,
    pub pages: Pages,
}

// The disk's sector size, in bytes (rule 3.5).
#[derive(Clone, Copy)]
pub enum SectorSize {
    Bytes512,
    Bytes1024,
    Bytes2048,
    Bytes4096,
}

// What a node sheet says of a port (rule 3.5).
#[derive(Clone, Copy)]
pub struct Params {
    pub writable: bool,
    pub barrier: bool,
    pub flush: bool,
    pub discard: bool,
    pub secure: bool,
    pub sector: SectorSize,
    pub sectors: u64,
    pub abi: Abi,
    pub pages: Pages,
}

impl Params {
    // How the port's guest lays out its ring.
    pub fn format(self) -> Format
        ensures { (result.abi ≡ self.abi) × (result.pages ≡ self.pages) }
    {
        Format {
            abi: self.abi,
            pages: self.pages,
        }
    }
}

// Why the bytes of a body are not the decimal digits of a number (rules 3.7 and 3.8).
#[derive(Clone, Copy)]
pub enum NumberError {
    TooBig,
    NotANumber,
}

// Why a call is refused, by its number (rules 7.1 to 7.7 and 7.11 to 7.15; 17.5 to 17.10 of joining; 16.3 and 16.10 of the guest's half).
#[derive(Clone, Copy)]
pub enum Refusal {
    WrongLength = 1,
    NoPort = 2,
    NotClosed = 3,
    IsClosed = 4,
    InFlight = 5,
    NotBusy = 6,
    TooMany = 7,
    // Those of joining.
    TooFewFrames = 8,
    TooFewRuns = 9,
    NoPlan = 10,
    // Those of a node sheet.
    SheetShape = 11,
    SheetNodes = 12,
    SheetText = 13,
    SheetNumber = 14,
    SheetMissing = 15,
    // Those of the guest's half.
    RingFull = 31,
    IdOutstanding = 32,
    BadRequest = 33,
    BadRspProd = 34,
    NotOutstanding = 35,
}

impl From<Refusal> for u32 {
    ghost from_gives = { λ refusal number. number ≡ refusal_number refusal };

    fn from(refusal: Refusal) -> u32 {
        refusal as u32
    }
}

impl From<NumberError> for Refusal {
    ghost from_gives = { λ error refusal. refusal ≡ number_refusal error };

    fn from(error: NumberError) -> Refusal {
        match error {
            NumberError::TooBig => Refusal::SheetNumber,
            NumberError::NotANumber => Refusal::SheetText,
        }
    }
}

// What a port can be (rule 4.1).
#[derive(Clone, Copy)]
pub enum State {
    Closed,
    Open,
    Broken,
}

// A port. consumed is ring.h's req_cons (taken, C), produced its rsp_prod_pvt (answered, R) (rule 4.2); busy has a mark for each tag (rule 4.7).
#[derive(Clone, Copy)]
pub struct Port {
    pub state: State,
    pub params: Params,
    pub consumed: u32,
    pub produced: u32,
    pub busy: u64,
}

// The operations of a request, by their numbers (rule 2.14).
#[derive(Clone, Copy)]
pub enum Operation {
    Read = 0,
    Write = 1,
    Barrier = 2,
    Flush = 3,
    Discard = 5,
}

// Every other number is unknown (rule 8.21).
impl TryFrom<u8> for Operation {
    type Error = Reason;

    ghost try_from_gives = { λ number operation. operation ≡ operation_of number };

    fn try_from(number: u8) -> Result<Operation, Reason> {
        match number {
            0 => Ok(Operation::Read),
            1 => Ok(Operation::Write),
            2 => Ok(Operation::Barrier),
            3 => Ok(Operation::Flush),
            5 => Ok(Operation::Discard),
            _ => Err(Reason::UnknownOperation),
        }
    }
}

// What a guest tells its requests apart by (rule 12.12).
#[derive(Clone, Copy)]
pub struct Pair {
    pub id: u64,
    pub operation: u8,
}

// What a tag keeps of a started request until it is completed (rule 5.20).
#[derive(Clone, Copy)]
pub struct Tag {
    pub pair: Pair,
    pub serial: Serial,
    pub expected: u32,
}

// What a port's req_prod says (rule 4.12).
#[derive(Clone, Copy)]
pub enum Pending {
    Nothing,
    Waits,
    Overrun,
}

// One segment of a request: sectors first to last of a frame (rules 2.6 and 2.7).
#[derive(Clone, Copy)]
pub struct Segment {
    pub frame: u32,
    pub first: u8,
    pub last: u8,
}

// The status of a response (rule 2.12).
#[derive(Clone, Copy)]
pub enum Status {
    Okay,
    Error,
    NotSupported,
}

// The number that a response carries, below 0 for a failure.
impl From<Status> for i16 {
    ghost from_gives = { λ status number. number ≡ status_number status };

    fn from(status: Status) -> i16 {
        match status {
            Status::Okay => 0,
            Status::Error => -1,
            Status::NotSupported => -2,
        }
    }
}

// What the host is to do (rule 5.22; operation is the plan's kind). Its extents stand beside it, in words that the caller lends (rule 5.33).
#[derive(Clone, Copy)]
pub struct Plan {
    pub operation: u8,
    pub start: u64,
    pub count: u64,
    pub secure: bool,
    pub extents: u64,
}

// The check that a request fails, by its number, in the order in which they are made. 23 is withdrawn: its number stays unused.
#[derive(Clone, Copy)]
pub enum Reason {
    UnknownOperation = 21,
    FeatureOff = 22,
    ReadOnly = 24,
    WrongAmount = 25,
    WrongSegment = 26,
    NotGranted = 27,
    PastEnd = 28,
    Unaligned = 29,
}

impl From<Reason> for u32 {
    ghost from_gives = { λ reason number. number ≡ reason_number reason };

    fn from(reason: Reason) -> u32 {
        reason as u32
    }
}

// Why a request is refused: the first check that it fails, and the status due (rule 8.2).
#[derive(Clone, Copy)]
pub struct Fault {
    pub reason: Reason,
    pub status: Status,
}

// Each check has its own status: what the backend does not know or offer is not supported (rules 8.21 to 8.29).
impl From<Reason> for Fault {
    ghost from_gives = { λ reason fault. fault ≡ fault_of reason };

    fn from(reason: Reason) -> Fault {
        let status = match reason {
            Reason::UnknownOperation | Reason::FeatureOff => Status::NotSupported,
            _ => Status::Error,
        };
        Fault { reason, status }
    }
}

// What a turn did, where it was not refused (rule 11.4).
#[derive(Clone, Copy)]
pub enum Turned {
    Idle,
    Overrun(PortId),
    Started(PortId, TagId, Serial, Plan),
    // Which check the request failed, and whether to notify the guest (rule 5.32).
    Answered(PortId, Fault, bool),
}

// What a completion did, and whether to notify the guest (rule 6.13).
#[derive(Clone, Copy)]
pub struct Completed {
    pub port: PortId,
    pub status: Status,
    pub notify: bool,
}

// The same of a list. Its statuses stand beside it, in words that the caller lends (rules 6.22 and 14.15).
#[derive(Clone, Copy)]
pub struct CompletedMany {
    pub port: PortId,
    pub notify: bool,
}

// A response that the guest collected: the id and operation that it carries, and the 16 bits of its status (rule 16.14).
#[derive(Clone, Copy)]
pub struct Collected {
    pub pair: Pair,
    pub status: u16,
}

// A port's counters (meter): requests taken, and answers by their status (rule 15.1). The host's record, laid out as in C.
#[repr(C)]
#[derive(Clone, Copy)]
pub struct Counters {
    pub taken: u64,
    pub okay: u64,
    pub error: u64,
    pub unsupported: u64,
}

// One of them (rule 15.4).
#[derive(Clone, Copy)]
pub enum Counter {
    Taken,
    Okay,
    Error,
    NotSupported,
}
