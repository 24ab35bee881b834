// One turn: the look for a port with something to serve, and then its service, or the arming of all open ports.
#![tactic(auto)]

ghost use Rattle.std.specs.Prelude.{◌≡◌, length};
ghost use Rattle.model.specs.Calls.{Turn};
ghost use Rattle.model.specs.Plan.{plan_words};
ghost use Rattle.memory.specs.Promise.{Promised};
ghost use Rattle.turn.specs.Promise.{TurnPromised};

use idle::rest;
use memory::WORDS;
use model::buffer::{GRANTS_BYTES, RINGS_BYTES, TURN_EXTENTS, TURN_EXTENTS_END, TURN_WORDS};
use model::limit::PLAN_WORDS;
use model::{Refusal, Turned};
use rotation::pick_port;
use serve::serve;

// A turn whose extents go to `words`. Of the rings it reads each open port's req_prod as far as it looks, once; of the
// port that it serves one slot, once; and rsp_event, once, where it responds.
fn turn_into(
    memory: &mut [u64; WORDS],
    rings: &mut [u8],
    grants: &[u8],
    words: &mut [u64],
) -> Result<Turned, Refusal>
    requires { length words.old ≡ plan_words }
    ensures { Promised memory.old (Turn rings.old grants.now words.old) (record { rings = rings.new; words = words.new; answer = result }) memory.new }
{
    // The lengths first: with the refusals in the arrays' else a turn takes 27 instructions more.
    if rings.len() != RINGS_BYTES {
        return Err(Refusal::WrongLength);
    }
    if grants.len() != GRANTS_BYTES {
        return Err(Refusal::WrongLength);
    }
    let Some(rings) = rings.as_mut_array::<RINGS_BYTES>() else {
        unreachable!();
    };
    let Some(grants) = grants.as_array::<GRANTS_BYTES>() else {
        unreachable!();
    };
    let Some(words) = words.as_mut_array::<PLAN_WORDS>() else {
        unreachable!();
    };
    match pick_port(memory, rings) {
        None => Ok(rest(memory, rings, words)),
        Some((k, published)) => Ok(serve(memory, rings, grants, words, k, published)),
    }
}

// Takes a turn. A plan's extents stand in the answer's words from TURN_EXTENTS on, written there without a copy; no
// other word of it is touched. Reads the rings only as `turn_into` does.
pub fn turn(
    memory: &mut [u64; WORDS],
    rings: &mut [u8],
    grants: &[u8],
    answer: &mut [u64; TURN_WORDS],
) -> Result<Turned, Refusal>
    ensures { TurnPromised memory.old rings.old grants.now answer.old result rings.new answer.new memory.new }
{
    turn_into(
        memory,
        rings,
        grants,
        &mut answer[TURN_EXTENTS..TURN_EXTENTS_END],
    )
}
