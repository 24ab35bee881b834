// The decimal reader: what the digits of a text spell.
#![tactic(auto)]

ghost use Rattle.std.specs.Prelude.{◌≡◌, ◌+◌, ◌*◌, ◌%◌, ◌^◌, ◌≤◌, length, MatchOption};
ghost use Rattle.model.specs.NodeSheet.{digits_of, number_of};
ghost use Rattle.decimal.specs.Digits.{digits_after};

use digits::{DIGIT_0, are_digits, eight_are_digits, value_of};
use model::NumberError;

const TEN_TO_THE_8: u64 = 100_000_000;

// The number that eight digits of value d make after those of value a, if it is not too big.
fn after_eight(a: u64, d: u64) -> Option<u64>
    ensures { MatchOption result (2 ^ 64 ≤ a * 10 ^ 8 + d) (λ v. v ≡ a * 10 ^ 8 + d) }
{
    a.checked_mul(TEN_TO_THE_8)?.checked_add(d)
}

// What whole eights make of a number that is too big, as 2^64 is: digits leave it so, any other byte makes it no
// number.
#[tactic(auto, using(crate::proofs::Reading::from_big))]
fn read_too_big(text: &[u8]) -> Result<u64, NumberError>
    requires { length text.now % 8 ≡ 0 }
    ensures { result ≡ digits_after (2 ^ 64) text.now }
{
    for more in text.as_chunks::<8>().0 {
        if !eight_are_digits(more) {
            return Err(NumberError::NotANumber);
        }
    }
    Err(NumberError::TooBig)
}

// What text makes of a number of value a. Once that is too big, only what is no digit matters.
#[tactic(auto, using(crate::proofs::Reading::from_eights))]
fn by_eights(a: u64, text: &[u8]) -> Result<u64, NumberError>
    requires { length text.now % 8 ≡ 0 }
    ensures { result ≡ digits_after a text.now }
{
    let (eights, _) = text.as_chunks::<8>();
    let mut value = a;
    for eight in eights {
        if !eight_are_digits(eight) {
            return Err(NumberError::NotANumber);
        }
        let Some(more) = after_eight(value, value_of(eight)) else {
            return read_too_big(text);
        };
        value = more;
    }
    Ok(value)
}

// What the bytes of text spell, zeros in front or not. The bytes that make no whole eight are read first: they can't be
// too big, and the eights end with the text.
#[tactic(auto, using(crate::proofs::Reading::from_ones))]
fn read_digits(text: &[u8]) -> Result<u64, NumberError>
    ensures { result ≡ digits_of text.now }
{
    let (ones, eights) = text.split_at(text.len() % 8);
    if !are_digits(ones) {
        return Err(NumberError::NotANumber);
    }
    by_eights(value_of(ones), eights)
}

// The number that text spells, at any length.
#[tactic(auto, using(crate::proofs::Reading::of_number))]
pub fn read_number(text: &[u8]) -> Result<u64, NumberError>
    ensures { result ≡ number_of text.now }
{
    if text.is_empty() || text.len() > 1 && text[0] == DIGIT_0 {
        return Err(NumberError::NotANumber);
    }
    read_digits(text)
}
