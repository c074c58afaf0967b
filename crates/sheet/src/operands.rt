// The operands of a command, little-endian.
ghost use Rattle.std.specs.Prelude.{◌≡◌, from_bits};
ghost use Rattle.std.specs.Float.{binary64};
ghost use Rattle.sheet.specs.Bytes.{field};

use crate::bytes::bytes_at;
use std::num::f64_from_bits_with_nan;

// The operand bytes of a command, and the place of the command's byte.
#[derive(Clone, Copy)]
pub struct Operands<'a> {
    pub place: usize,
    pub bytes: &'a [u8],
}

impl Operands<'_> {
    // A method for each width: `from_le_bytes` belongs to no trait.
    pub(crate) fn u8_at(self, i: usize) -> u8
        ensures value { result ≡ field i 1 self.entry.bytes.now }
    {
        u8::from_le_bytes(bytes_at(self.bytes, i))
    }

    pub(crate) fn u16_at(self, i: usize) -> u16
        ensures value { result ≡ field i 2 self.entry.bytes.now }
    {
        u16::from_le_bytes(bytes_at(self.bytes, i))
    }

    pub(crate) fn u32_at(self, i: usize) -> u32
        ensures value { result ≡ field i 4 self.entry.bytes.now }
    {
        u32::from_le_bytes(bytes_at(self.bytes, i))
    }

    // The binary64 number in the eight bytes from `i` on.
    pub(crate) fn f64_at(self, i: usize) -> f64
        ensures value { result ≡ from_bits binary64 (field i 8 self.entry.bytes.now) }
    {
        f64_from_bits_with_nan(u64::from_le_bytes(bytes_at(self.bytes, i)))
    }
}
