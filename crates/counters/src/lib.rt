// A port's counters: the record by value, and the record lent and raised in place. Which number an answer raises is
// found first, from the answer's case (`counter_cases`) or from its words (`counter_words`), and then one function
// raises that number.
#![tactic(auto)]

mod many;
mod place;
mod record;

pub use many::after_many;
pub use place::raise;
pub use record::raised;
