// kh_meter_turn, kh_meter_completion and kh_meter_many: a host's record of a port, raised by what a call returned and left.
ghost use Rattle.std.specs.Prelude.{◌≡◌};
ghost use Rattle.model.specs.Counters.{turn_metered, done_metered, many_metered};

use counter_words::{done_counter, status_counter, taken_counter};
use counters::{after_many, raise};
use model::Counters;
use model::buffer::{DONE_WORDS, MANY_WORDS, TURN_WORDS};

#[unsafe(no_mangle)]
pub extern "C" fn kh_meter_turn(meter: &mut Counters, returned: u32, answer: &[u64; TURN_WORDS])
    ensures { meter.new ≡ turn_metered returned answer.now meter.old }
{
    raise(meter, taken_counter(returned, answer));
    raise(meter, status_counter(returned, answer));
}

#[unsafe(no_mangle)]
pub extern "C" fn kh_meter_completion(
    meter: &mut Counters,
    returned: u32,
    answer: &[u64; DONE_WORDS],
)
    ensures { meter.new ≡ done_metered returned answer.now meter.old }
{
    raise(meter, done_counter(returned, answer));
}

// A list of completions raises any of the three numbers, each any number of times: the record is raised by value and stored whole.
#[unsafe(no_mangle)]
pub extern "C" fn kh_meter_many(meter: &mut Counters, returned: u32, answer: &[u64; MANY_WORDS])
    ensures { meter.new ≡ many_metered returned answer.now meter.old }
{
    *meter = after_many(*meter, returned, answer);
}
