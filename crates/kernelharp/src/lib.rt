// The C interface, as include/kernelharp.h declares it: a file to a call. Each function is one call of the library, with its answer written out as words; none
// asks anything of its arguments.
#![tactic(auto)]

ghost use Rattle.std.specs.Prelude.{◌≡◌};
ghost use Rattle.outstanding.specs.Words.{guest_words};
ghost use Rattle.memory.specs.Layout.{memory_words};

use memory::WORDS;
use model::buffer::GUEST_WORDS;

mod closing;
mod collecting;
mod completing;
mod joining;
mod listing;
mod metering;
mod opening;
mod putting;
mod turning;

pub use closing::kh_close;
pub use collecting::kh_guest_collect;
pub use completing::kh_complete;
pub use joining::kh_join_extents;
pub use listing::kh_complete_many;
pub use metering::{kh_meter_completion, kh_meter_many, kh_meter_turn};
pub use opening::kh_open;
pub use putting::kh_guest_put;
pub use turning::kh_turn;

// major * 10000 + minor * 100 + patch
const VERSION: u32 = 1100;

// Which version the archive is.
#[unsafe(no_mangle)]
pub extern "C" fn kh_version() -> u32
    ensures { result ≡ 1100 }
{
    VERSION
}

// How many words of memory the archive asks for.
#[unsafe(no_mangle)]
pub extern "C" fn kh_memory_words() -> u32
    ensures { result ≡ memory_words }
{
    WORDS as u32
}

// How many words of memory the archive asks of a guest.
#[unsafe(no_mangle)]
pub extern "C" fn kh_guest_words() -> u32
    ensures { result ≡ guest_words }
{
    GUEST_WORDS as u32
}
