// Numbers of sectors against the sectors of a disk: a request's always have 512 bytes, the disk's may have 1,024, 2,048
// or 4,096.
ghost use Rattle.std.specs.Prelude.{◌&&◌, ◌≡◌};
ghost use Rattle.model.specs.Checks.{unit_of, is_aligned};

use model::SectorSize;

const IN_1024: u64 = 2;

const IN_2048: u64 = 4;

pub const IN_4096: u64 = 8;

// How many of a request's sectors one of the disk's has.
pub fn unit_of(sector: SectorSize) -> u64
    ensures { result ≡ unit_of sector }
{
    match sector {
        SectorSize::Bytes512 => 1,
        SectorSize::Bytes1024 => IN_1024,
        SectorSize::Bytes2048 => IN_2048,
        SectorSize::Bytes4096 => IN_4096,
    }
}

// Whether a number is a multiple of that. Each sector size divides by a constant, so no divisor can be 0, and none is a
// variable, by which a division is slow.
#[tactic(auto, unfolding(model::specs::Checks::is_aligned))]
fn is_aligned(sector: SectorSize, x: u64) -> bool
    ensures { result ≡ is_aligned sector x }
{
    match sector {
        SectorSize::Bytes512 => true,
        SectorSize::Bytes1024 => x % IN_1024 == 0,
        SectorSize::Bytes2048 => x % IN_2048 == 0,
        SectorSize::Bytes4096 => x % IN_4096 == 0,
    }
}

// Whether two numbers are: a range's start and count, or a segment's two ends.
pub fn are_aligned(sector: SectorSize, x: u64, y: u64) -> bool
    ensures { result ≡ is_aligned sector x && is_aligned sector y }
{
    is_aligned(sector, x) && is_aligned(sector, y)
}
