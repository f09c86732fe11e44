//! Eight blocks in eight registers of 16 bytes, row by row: bit j of byte 4 r + c of register i is bit i of the byte in
//! row r of column c of block j.

ghost use Rattle.std.specs.Prelude.{◌≡◌, length};

use std::simd::prelude::*;

/// Eight registers of 16 bytes. Register i has bit i of each byte of eight blocks.
#[derive(Clone, Copy)]
pub(crate) struct Registers {
    pub(crate) bit0: u8x16,
    pub(crate) bit1: u8x16,
    pub(crate) bit2: u8x16,
    pub(crate) bit3: u8x16,
    pub(crate) bit4: u8x16,
    pub(crate) bit5: u8x16,
    pub(crate) bit6: u8x16,
    pub(crate) bit7: u8x16,
    ghost wide: { (length bit0 ≡ 16)
        × (length bit1 ≡ 16)
        × (length bit2 ≡ 16)
        × (length bit3 ≡ 16)
        × (length bit4 ≡ 16)
        × (length bit5 ≡ 16)
        × (length bit6 ≡ 16)
        × (length bit7 ≡ 16) },
}
