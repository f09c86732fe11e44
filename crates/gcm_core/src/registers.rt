//! Registers of 16 bytes.

ghost use Rattle.std.specs.Prelude.{◌≡◌, ◌+◌, ◌*◌, ◌/◌, ◌%◌, ◌<◌, ◌≤◌, ◌++◌, ℕ, length, slice_index};
ghost use Rattle.std.specs.Simd.Lanes.{chunk, put_chunk};

use std::simd::prelude::*;

/// The 16 bytes from this place on.
#[inline(always)]
pub(crate) fn load(bytes: &[u8], start: usize) -> u8x16
    requires { start + 16 ≤ length bytes.now }
    ensures value { result ≡ chunk start 16 bytes.now }
    ensures length { length result ≡ 16 }
{
    u8x16::from_slice(&bytes[start..])
}

/// Writes 16 bytes from this place on.
#[inline(always)]
pub(crate) fn store(register: u8x16, bytes: &mut [u8], start: usize)
    requires room { start + 16 ≤ length bytes.old }
    requires lanes { length register ≡ 16 }
    ensures { bytes.new ≡ put_chunk start bytes.old register }
{
    register.copy_to_slice(&mut bytes[start..]);
}

/// The bytes of both registers in turn, in two registers.
#[inline(always)]
pub(crate) fn interleaved(left: u8x16, right: u8x16) -> (u8x16, u8x16)
    requires left { length left ≡ 16 }
    requires right { length right ≡ 16 }
    ensures lengths { (length result.0 ≡ 16) × (length result.1 ≡ 16) }
    ensures first { (j : ℕ) → j < 16
        → slice_index result.0 j ≡ slice_index (left ++ right) (j / 2 + 16 * (j % 2)) }
    ensures second { (j : ℕ) → j < 16
        → slice_index result.1 j ≡ slice_index (left ++ right) (8 + j / 2 + 16 * (j % 2)) }
{
    left.interleave(right)
}
