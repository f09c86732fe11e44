//! Eight blocks into registers and back: at each byte, a transposition of eight by eight bits, and of the bytes a
//! transposition of four by four, since they stand column by column in a block and row by row in a register.

ghost use Rattle.std.specs.Prelude.{◌≡◌, ◌<◌, ℕ, length, slice_index, slice_index_or, map, All, []};
ghost use Rattle.aes_core.specs.Sliced.{bits_of, lane, registers_of, block_of, low_of, high_of, columns, flipped};

use super::registers::Registers;
use std::simd::prelude::*;

// Where each byte comes from as rows and columns change places.
const FLIPPED: [usize; 16] = [0, 4, 8, 12, 1, 5, 9, 13, 2, 6, 10, 14, 3, 7, 11, 15];

// Swaps the bits of `high` at the mask with those of `low` that stand higher by `by`.
#[inline(always)]
fn exchange(low: u8x16, high: u8x16, mask: u8, by: u8) -> (u8x16, u8x16)
    requires by { by < 8 }
    requires low { length low ≡ 16 }
    requires high { length high ≡ 16 }
    ensures wide { (length result.0 ≡ 16) × (length result.1 ≡ 16) }
    ensures low { (p : ℕ) → p < 16
        → slice_index result.0 p ≡ low_of mask by (slice_index low p) (slice_index high p) }
    ensures high { (p : ℕ) → p < 16
        → slice_index result.1 p ≡ high_of mask by (slice_index low p) (slice_index high p) }
    ensures bytes { (p : ℕ) → p < 16
        → (slice_index result.0 p < 256) × (slice_index result.1 p < 256) }
{
    let moved = ((low >> u8x16::splat(by)) ^ high) & u8x16::splat(mask);
    (low ^ (moved << u8x16::splat(by)), high ^ moved)
}

// Bit j of register i and bit i of register j in each other's place, at each byte.
#[inline(always)]
fn transposed(r: Registers) -> Registers
    ensures turned { (p : ℕ) → p < 16
        → map bits_of (lane p (registers_of result))
        ≡ columns (map bits_of (lane p (registers_of r))) }
    ensures bytes { (p : ℕ) → p < 16 → All (λ b. b < 256) (lane p (registers_of result)) }
{
    let (a0, a1) = exchange(r.bit0, r.bit1, 0x55, 1);
    let (a2, a3) = exchange(r.bit2, r.bit3, 0x55, 1);
    let (a4, a5) = exchange(r.bit4, r.bit5, 0x55, 1);
    let (a6, a7) = exchange(r.bit6, r.bit7, 0x55, 1);
    let (b0, b2) = exchange(a0, a2, 0x33, 2);
    let (b1, b3) = exchange(a1, a3, 0x33, 2);
    let (b4, b6) = exchange(a4, a6, 0x33, 2);
    let (b5, b7) = exchange(a5, a7, 0x33, 2);
    let (bit0, bit4) = exchange(b0, b4, 0x0f, 4);
    let (bit1, bit5) = exchange(b1, b5, 0x0f, 4);
    let (bit2, bit6) = exchange(b2, b6, 0x0f, 4);
    let (bit3, bit7) = exchange(b3, b7, 0x0f, 4);
    Registers {
        bit0,
        bit1,
        bit2,
        bit3,
        bit4,
        bit5,
        bit6,
        bit7,
    }
}

// Rows and columns in each other's place.
#[inline(always)]
fn flipped(r: Registers) -> Registers
    ensures { (j : ℕ) → block_of result j ≡ flipped (block_of r j) }
{
    Registers {
        bit0: r.bit0.swizzle(FLIPPED),
        bit1: r.bit1.swizzle(FLIPPED),
        bit2: r.bit2.swizzle(FLIPPED),
        bit3: r.bit3.swizzle(FLIPPED),
        bit4: r.bit4.swizzle(FLIPPED),
        bit5: r.bit5.swizzle(FLIPPED),
        bit6: r.bit6.swizzle(FLIPPED),
        bit7: r.bit7.swizzle(FLIPPED),
    }
}

// The bytes of a block.
#[inline(always)]
fn register(block: [u8; 16]) -> u8x16
    ensures wide { length result ≡ 16 }
    ensures bytes { (p : ℕ) → slice_index result p < 256 }
    ensures same { result ≡ block }
{
    u8x16::from_array(block)
}

// Eight blocks into registers.
#[inline(always)]
pub(crate) fn gathered(blocks: &[[u8; 16]; 8]) -> Registers
    ensures { (j : ℕ) → j < 8 → block_of result j ≡ slice_index_or blocks.now j [] }
{
    flipped(transposed(Registers {
        bit0: register(blocks[0]),
        bit1: register(blocks[1]),
        bit2: register(blocks[2]),
        bit3: register(blocks[3]),
        bit4: register(blocks[4]),
        bit5: register(blocks[5]),
        bit6: register(blocks[6]),
        bit7: register(blocks[7]),
    }))
}

// The eight blocks.
#[inline(always)]
pub(crate) fn scattered(r: Registers) -> [[u8; 16]; 8]
    ensures eight { length result ≡ 8 }
    ensures blocks { (j : ℕ) → j < 8 → slice_index_or result j [] ≡ block_of r j }
{
    let blocks = transposed(flipped(r));
    [
        blocks.bit0.to_array(),
        blocks.bit1.to_array(),
        blocks.bit2.to_array(),
        blocks.bit3.to_array(),
        blocks.bit4.to_array(),
        blocks.bit5.to_array(),
        blocks.bit6.to_array(),
        blocks.bit7.to_array(),
    ]
}
