// Decimal digits: whether the bytes of a text are digits, and the number that they spell.
#![tactic(auto)]

ghost use Rattle.std.specs.Prelude.{◌≡◌, true, ◌-◌, ◌≤◌, ◌<◌, ◌^◌, length};
ghost use Rattle.model.specs.Base.{all};
ghost use Rattle.model.specs.NodeSheet.{is_digit, digits_from};

pub const DIGIT_0: u8 = b'0';

#[tactic(auto, unfolding(model::specs::NodeSheet::is_digit))]
fn is_digit(byte: u8) -> bool
    ensures { result ≡ is_digit byte }
{
    byte.is_ascii_digit()
}

#[tactic(auto, using(crate::proofs::Digits::digit_range))]
fn digit(byte: u8) -> u64
    requires { is_digit byte ≡ true }
    ensures { result ≡ byte - 48 }
{
    u64::from(byte - DIGIT_0)
}

// Whether all bytes of a text are digits.
pub fn are_digits(text: &[u8]) -> bool
    ensures { result ≡ all is_digit text.now }
{
    text.iter().all(|byte| is_digit(*byte))
}

// Whether eight bytes are. Each is looked at, also behind one that is no digit: of a test with no branch the compiler
// makes a few vector instructions.
pub fn eight_are_digits(eight: &[u8; 8]) -> bool
    ensures { result ≡ all is_digit eight.now }
{
    eight
        .iter()
        .fold(true, |digits, byte| digits & is_digit(*byte))
}

// The number that digits spell, of which there are few enough that it fits.
pub fn value_of(text: &[u8]) -> u64
    requires few { length text.now ≤ 19 }
    requires digits { all is_digit text.now ≡ true }
    ensures value { result ≡ digits_from 0 text.now }
    ensures below { result < 10 ^ length text.now }
{
    let mut value = 0;
    for byte in text {
        value = value * 10 + digit(*byte);
    }
    value
}
