// Little-endian numbers in a slice of bytes.
// The bytes are taken and put one by one, so that no read asks for an aligned address; the compiler joins them to one load or store.
#![tactic(auto, unfolding(crate::specs::LittleEndian::load, crate::specs::LittleEndian::store))]

ghost use Rattle.std.specs.Prelude.{◌≡◌, ℕ, ◌+◌, ◌≤◌, length};
ghost use Rattle.std.specs.Int.{w16};
ghost use Rattle.std.proofs.Common.{of_z};
ghost use Rattle.wire.specs.LittleEndian.{load, store};

// An integer of a fixed width.
pub trait Integer: Sized {
    // How many bytes it has.
    ghost width: { ℕ };

    // Their value.
    ghost value: { Self → ℕ };

    // The number in the bytes from i.
    fn load(b: &[u8], i: usize) -> Self
        requires { i + width ≤ length b.now }
        ensures { value result ≡ load width b.now i };

    // The bytes of v go to i.
    fn store(b: &mut [u8], i: usize, v: Self)
        requires { i + width ≤ length b.old }
        ensures { b.new ≡ store width b.old i (value v) };
}

impl Integer for u16 {
    ghost width = { 2 };

    ghost value = { λ v. v };

    fn load(b: &[u8], i: usize) -> u16 {
        b[i] as u16 + b[i + 1] as u16 * 256
    }

    // The high byte is cut by % 256 too, as in the definition of a store.
    fn store(b: &mut [u8], i: usize, v: u16) {
        b[i] = (v % 256) as u8;
        b[i + 1] = (v / 256 % 256) as u8;
    }
}

impl Integer for u32 {
    ghost width = { 4 };

    ghost value = { λ v. v };

    fn load(b: &[u8], i: usize) -> u32 {
        b[i] as u32 + b[i + 1] as u32 * 256 + b[i + 2] as u32 * 65536 + b[i + 3] as u32 * 16777216
    }

    // The highest byte is cut too.
    fn store(b: &mut [u8], i: usize, v: u32) {
        b[i] = (v % 256) as u8;
        b[i + 1] = (v / 256 % 256) as u8;
        b[i + 2] = (v / 65536 % 256) as u8;
        b[i + 3] = (v / 16777216 % 256) as u8;
    }
}

// Two numbers of four bytes, the low one first.
impl Integer for u64 {
    ghost width = { 8 };

    ghost value = { λ v. v };

    fn load(b: &[u8], i: usize) -> u64 {
        let high = i + 4;
        u32::load(b, i) as u64 + u32::load(b, high) as u64 * 4294967296
    }

    fn store(b: &mut [u8], i: usize, v: u64) {
        let high = i + 4;
        u32::store(b, i, (v % 4294967296) as u32);
        u32::store(b, high, (v / 4294967296) as u32);
    }
}

// The two bytes of the signed v go to i.
pub fn store_signed(b: &mut [u8], i: usize, v: i16)
    requires { i + 2 ≤ length b.old }
    ensures { b.new ≡ store 2 b.old i (of_z w16 v) }
{
    u16::store(b, i, v.cast_unsigned());
}
