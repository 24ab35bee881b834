// Lines, and the decimal numbers in them, as what a call takes. In a line, what is no digit only parts the numbers.
ghost use Rattle.std.specs.Prelude.{◌≤◌, length};

// Of a line so many are read.
pub const NUMBERS: usize = 256;

// The number of its digits. A digit that would lead past 64 bits is passed over.
fn number(digits: &[u8]) -> u64 {
    let digits = digits
        .iter()
        .filter_map(|byte| char::from(*byte).to_digit(10));
    digits.fold(0u64, |number, digit| {
        let longer = number
            .checked_mul(10)
            .and_then(|tens| tens.checked_add(u64::from(digit)));
        longer.unwrap_or(number)
    })
}

// The numbers of a line, as many as there are places for.
pub fn numbers<'a>(line: &[u8], places: &'a mut [u64]) -> &'a [u64]
    ensures { length result.now ≤ length places.old }
{
    let mut parts = line
        .split(|byte| !byte.is_ascii_digit())
        .filter(|part| !part.is_empty());
    for count in 0..places.len() {
        let Some(digits) = parts.next() else {
            return &places[..count];
        };
        places[count] = number(digits);
    }
    places
}

// The lower 32 bits, where a line has a larger number.
pub fn narrow(number: u64) -> u32 {
    (number % 4294967296) as u32
}

// A result with its sign.
pub fn signed(number: u64, is_negative: bool) -> i32 {
    let size = (number % 2147483648) as i32;
    if is_negative { -size } else { size }
}
