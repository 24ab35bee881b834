// A turn's answer as the words and the number that C reads.
#![tactic(auto)]

ghost use Rattle.std.specs.Prelude.{◌≡◌, replicate};
ghost use Rattle.model.specs.Answers.{turned_number, turned_words, extents_in, turn_answer, turn_left};

use answers::magnitude;
use model::buffer::{TURN_EXTENTS, TURN_EXTENTS_END, TURN_WORDS};
use model::{Refusal, Turned};

// Which word of the answer is which.
pub const KIND: usize = 0;

const PORT: usize = 1;

const TAG: usize = 2;

const SERIAL: usize = 3;

const OPERATION: usize = 4;

const START: usize = 5;

const COUNT: usize = 6;

const SECURE: usize = 7;

const EXTENT_COUNT: usize = 8;

const REASON: usize = 9;

pub const STATUS: usize = 10;

const NOTIFY: usize = 11;

// What a turn did, in the word KIND.
const IDLE: u64 = 0;

pub const STARTED: u64 = 1;

pub const ANSWERED: u64 = 2;

pub const OVERRUN: u64 = 3;

// Zeros in every word but those of the extents, which the turn has written.
fn clear_values(answer: &mut [u64; TURN_WORDS])
    ensures { answer.new ≡ turn_answer (replicate 12 0) (extents_in answer.old) }
{
    answer[..TURN_EXTENTS].fill(0);
    answer[TURN_EXTENTS_END..].fill(0);
}

// The values of what a turn did, around the extents; a value that its kind has no use for is 0.
fn put_values(answer: &mut [u64; TURN_WORDS], did: Turned)
    ensures { answer.new ≡ turn_answer (turned_words did) (extents_in answer.old) }
{
    clear_values(answer);
    match did {
        Turned::Idle => answer[KIND] = IDLE,
        Turned::Overrun(port) => {
            answer[KIND] = OVERRUN;
            answer[PORT] = u64::from(port.0);
        }
        Turned::Started(port, tag, serial, plan) => {
            answer[KIND] = STARTED;
            answer[PORT] = u64::from(port.0);
            answer[TAG] = u64::from(tag.0);
            answer[SERIAL] = u64::from(serial.0);
            answer[OPERATION] = u64::from(plan.operation);
            answer[START] = plan.start;
            answer[COUNT] = plan.count;
            answer[SECURE] = u64::from(plan.secure);
            answer[EXTENT_COUNT] = plan.extents;
        }
        Turned::Answered(port, fault, notify) => {
            answer[KIND] = ANSWERED;
            answer[PORT] = u64::from(port.0);
            answer[REASON] = u64::from(u32::from(fault.reason));
            answer[STATUS] = magnitude(fault.status);
            answer[NOTIFY] = u64::from(notify);
        }
    }
}

// The answer of a turn as words, around the extents that it wrote, and the number to return.
pub fn put_turned(answer: &mut [u64; TURN_WORDS], turned: Result<Turned, Refusal>) -> u32
    ensures { (result ≡ turned_number turned) × (answer.new ≡ turn_left turned answer.old (extents_in answer.old)) }
{
    match turned {
        Ok(did) => {
            put_values(answer, did);
            0
        }
        Err(refusal) => u32::from(refusal),
    }
}
