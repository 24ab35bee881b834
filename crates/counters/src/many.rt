// A list of completions, by what the call returned and the words that it left, whatever they are: each status raises
// its number.
ghost use Rattle.std.specs.Prelude.{◌≡◌, map, ◌+◌, ◌≤◌, min, length, take, drop};
ghost use Rattle.model.specs.Calls.{most_completions};
ghost use Rattle.model.specs.Counters.{word_counter, raised_by_all, many_metered};

use crate::place::raise;
use completion_answers::many::{MANY_COUNT, MANY_STATUSES};
use counter_words::{DONE, of_word};
use model::Counters;
use model::buffer::MANY_WORDS;
use model::limit::MOST_COMPLETIONS;

// The record raised by one status after another.
fn raised_by_each(mut counters: Counters, statuses: &[u64]) -> Counters
    ensures { result ≡ raised_by_all (map word_counter statuses.now) counters }
{
    for status in statuses {
        raise(&mut counters, of_word(*status));
    }
    counters
}

// By the first n statuses among the words of an answer.
fn raised_by_first(counters: Counters, words: &[u64], n: usize) -> Counters
    requires { 4 + n ≤ length words.now }
    ensures { result ≡ raised_by_all (map word_counter (take n (drop 4 words.now))) counters }
{
    let end = MANY_STATUSES + n;
    raised_by_each(counters, &words[MANY_STATUSES..end])
}

// How many statuses count: as many as the word says, and never more than there is room for.
fn listed(count: u64) -> usize
    ensures { result ≡ min most_completions count }
{
    count.min(MOST_COMPLETIONS as u64) as usize
}

// The record raised by the statuses of an answer. Of a refused call no word is looked at.
pub fn after_many(counters: Counters, returned: u32, answer: &[u64; MANY_WORDS]) -> Counters
    ensures { result ≡ many_metered returned answer.now counters }
{
    if returned != DONE {
        return counters;
    }
    raised_by_first(counters, answer, listed(answer[MANY_COUNT]))
}
