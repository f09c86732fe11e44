//! What a round does to eight blocks in registers (FIPS 197, section 5.1). A register has its 16 bytes row by row, so
//! that a column turns up by a shuffle of the four rows, each a word of 32 bits.

ghost use Rattle.std.specs.Prelude.{◌≡◌, ◌<◌, ℕ};
ghost use Rattle.aes_core.specs.State.{shift_rows, mix_columns};
ghost use Rattle.aes_core.specs.Sliced.{block_of, sum_of, turned, times_x_each};

use super::registers::Registers;
use std::simd::prelude::*;

// Where each byte comes from as row r turns to the left by r.
const SHIFTED_ROWS: [usize; 16] = [0, 1, 2, 3, 5, 6, 7, 4, 10, 11, 8, 9, 15, 12, 13, 14];

// Where each byte comes from as its column turns up by one byte.
const TURNED_BY_ONE: [usize; 16] = [4, 5, 6, 7, 8, 9, 10, 11, 12, 13, 14, 15, 0, 1, 2, 3];

// Where each byte comes from as its column turns up by two bytes.
const TURNED_BY_TWO: [usize; 16] = [8, 9, 10, 11, 12, 13, 14, 15, 0, 1, 2, 3, 4, 5, 6, 7];

// The sums of the blocks, byte by byte.
#[inline(always)]
pub(crate) fn add(a: Registers, b: Registers) -> Registers
    ensures { (j : ℕ) → block_of result j ≡ sum_of (block_of a j) (block_of b j) }
{
    Registers {
        bit0: a.bit0 ^ b.bit0,
        bit1: a.bit1 ^ b.bit1,
        bit2: a.bit2 ^ b.bit2,
        bit3: a.bit3 ^ b.bit3,
        bit4: a.bit4 ^ b.bit4,
        bit5: a.bit5 ^ b.bit5,
        bit6: a.bit6 ^ b.bit6,
        bit7: a.bit7 ^ b.bit7,
    }
}

// Row r turns to the left by r.
#[inline(always)]
pub(crate) fn shift_rows(r: Registers) -> Registers
    ensures { (j : ℕ) → block_of result j ≡ shift_rows (block_of r j) }
{
    Registers {
        bit0: r.bit0.swizzle(SHIFTED_ROWS),
        bit1: r.bit1.swizzle(SHIFTED_ROWS),
        bit2: r.bit2.swizzle(SHIFTED_ROWS),
        bit3: r.bit3.swizzle(SHIFTED_ROWS),
        bit4: r.bit4.swizzle(SHIFTED_ROWS),
        bit5: r.bit5.swizzle(SHIFTED_ROWS),
        bit6: r.bit6.swizzle(SHIFTED_ROWS),
        bit7: r.bit7.swizzle(SHIFTED_ROWS),
    }
}

// Each column turns up by one byte.
#[inline(always)]
fn turn_by_one(r: Registers) -> Registers
    ensures { (j : ℕ) → block_of result j ≡ turned 1 (block_of r j) }
{
    Registers {
        bit0: r.bit0.swizzle(TURNED_BY_ONE),
        bit1: r.bit1.swizzle(TURNED_BY_ONE),
        bit2: r.bit2.swizzle(TURNED_BY_ONE),
        bit3: r.bit3.swizzle(TURNED_BY_ONE),
        bit4: r.bit4.swizzle(TURNED_BY_ONE),
        bit5: r.bit5.swizzle(TURNED_BY_ONE),
        bit6: r.bit6.swizzle(TURNED_BY_ONE),
        bit7: r.bit7.swizzle(TURNED_BY_ONE),
    }
}

// Each column turns up by two bytes.
#[inline(always)]
fn turn_by_two(r: Registers) -> Registers
    ensures { (j : ℕ) → block_of result j ≡ turned 2 (block_of r j) }
{
    Registers {
        bit0: r.bit0.swizzle(TURNED_BY_TWO),
        bit1: r.bit1.swizzle(TURNED_BY_TWO),
        bit2: r.bit2.swizzle(TURNED_BY_TWO),
        bit3: r.bit3.swizzle(TURNED_BY_TWO),
        bit4: r.bit4.swizzle(TURNED_BY_TWO),
        bit5: r.bit5.swizzle(TURNED_BY_TWO),
        bit6: r.bit6.swizzle(TURNED_BY_TWO),
        bit7: r.bit7.swizzle(TURNED_BY_TWO),
    }
}

// The polynomial x times each byte. The modulus is taken away where the product has a term x^8.
#[inline(always)]
fn times_x(r: Registers) -> Registers
    ensures { (j : ℕ) → block_of result j ≡ times_x_each (block_of r j) }
{
    Registers {
        bit0: r.bit7,
        bit1: r.bit0 ^ r.bit7,
        bit2: r.bit1,
        bit3: r.bit2 ^ r.bit7,
        bit4: r.bit3 ^ r.bit7,
        bit5: r.bit4,
        bit6: r.bit5,
        bit7: r.bit6,
    }
}

// Each column times the matrix of 02 03 01 01: 2 a + 3 b + c + d is 2 (a + b) + b + (c + d).
#[inline(always)]
pub(crate) fn mix_columns(r: Registers) -> Registers
    ensures { (j : ℕ) → block_of result j ≡ mix_columns (block_of r j) }
{
    let next = turn_by_one(r);
    let sum = add(r, next);
    add(add(times_x(sum), next), turn_by_two(sum))
}
