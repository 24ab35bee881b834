// What a field is as a word, and a word as a field: reading is total.
ghost use Rattle.std.specs.Prelude.{◌≡◌, ℕ};
ghost use Rattle.memory.specs.Words.{
  state_of,
  state_word,
  flag_of,
  flag_word,
  sector_of,
  sector_word,
  abi_of,
  abi_word,
  pages_from,
  pages_word,
  narrow8,
  narrow32,
};

use model::{Abi, Pages, SectorSize, State};

// The values of a field of 32 bits: its word is taken modulo that. Of one of 8 bits likewise.
const VALUES_32: u64 = 4294967296;

const VALUES_8: u64 = 256;

// A field of a port or of a tag, as the word that holds it.
pub trait Field {
    ghost of: { ℕ → Self };

    ghost word: { Self → ℕ };

    fn of_word(x: u64) -> Self
        ensures { result ≡ of x };

    fn word(self) -> u64
        ensures { result ≡ word self };
}

impl Field for State {
    ghost of = { state_of };

    ghost word = { state_word };

    fn of_word(x: u64) -> State {
        match x {
            0 => State::Closed,
            1 => State::Open,
            _ => State::Broken,
        }
    }

    fn word(self) -> u64 {
        match self {
            State::Closed => 0,
            State::Open => 1,
            State::Broken => 2,
        }
    }
}

impl Field for bool {
    ghost of = { flag_of };

    ghost word = { flag_word };

    fn of_word(x: u64) -> bool {
        x != 0
    }

    fn word(self) -> u64 {
        if self { 1 } else { 0 }
    }
}

impl Field for SectorSize {
    ghost of = { sector_of };

    ghost word = { sector_word };

    fn of_word(x: u64) -> SectorSize {
        match x % 4 {
            0 => SectorSize::Bytes512,
            1 => SectorSize::Bytes1024,
            2 => SectorSize::Bytes2048,
            _ => SectorSize::Bytes4096,
        }
    }

    fn word(self) -> u64 {
        match self {
            SectorSize::Bytes512 => 0,
            SectorSize::Bytes1024 => 1,
            SectorSize::Bytes2048 => 2,
            SectorSize::Bytes4096 => 3,
        }
    }
}

impl Field for Abi {
    ghost of = { abi_of };

    ghost word = { abi_word };

    fn of_word(x: u64) -> Abi {
        match x {
            0 => Abi::Bits64,
            _ => Abi::Bits32,
        }
    }

    fn word(self) -> u64 {
        match self {
            Abi::Bits64 => 0,
            Abi::Bits32 => 1,
        }
    }
}

impl Field for Pages {
    ghost of = { pages_from };

    ghost word = { pages_word };

    // Bit 5, so that the compiler has the number of slots without a test: 32 and that bit.
    fn of_word(x: u64) -> Pages {
        match x / 32 % 2 {
            0 => Pages::One,
            _ => Pages::Two,
        }
    }

    fn word(self) -> u64 {
        match self {
            Pages::One => 0,
            Pages::Two => 32,
        }
    }
}

impl Field for u8 {
    ghost of = { narrow8 };

    ghost word = { λ x. x };

    fn of_word(x: u64) -> u8 {
        (x % VALUES_8) as u8
    }

    fn word(self) -> u64 {
        u64::from(self)
    }
}

impl Field for u32 {
    ghost of = { narrow32 };

    ghost word = { λ x. x };

    fn of_word(x: u64) -> u32 {
        (x % VALUES_32) as u32
    }

    fn word(self) -> u64 {
        u64::from(self)
    }
}

impl Field for u64 {
    ghost of = { λ x. x };

    ghost word = { λ x. x };

    fn of_word(x: u64) -> u64 {
        x
    }

    fn word(self) -> u64 {
        self
    }
}
