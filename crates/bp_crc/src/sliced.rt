//! The register after more bytes: sixteen at a time, each by the table of its place, or byte by byte by the first table.

ghost use Rattle.std.specs.Prelude.{◌≡◌, ◌*◌, ◌<◌, ◌^◌, ◌++◌, ℕ, List};
ghost use Rattle.std.specs.List.{concat};
ghost use Rattle.bp_crc.specs.Check.{IsWidth};
ghost use Rattle.bp_crc.specs.Table.{bits_remainder, register_of};

use crate::tables::tables;

// The remainder of four bytes with so many words of zero bytes behind them.
#[inline(always)]
fn word_remainder<const BITS: usize>(word: u32, words: usize) -> u32
    requires width { IsWidth BITS }
    requires within { words < 4 }
    ensures { result ≡ bits_remainder BITS 32 (4 * words) word }
{
    let tables = tables::<BITS>(words);
    tables[3][(word & 0xff) as usize]
        ^ tables[2][((word >> 8) & 0xff) as usize]
        ^ tables[1][((word >> 16) & 0xff) as usize]
        ^ tables[0][(word >> 24) as usize]
}

// The register after sixteen bytes too.
#[inline(always)]
fn with_group<const BITS: usize>(register: u32, group: &[u8; 16]) -> u32
    requires { IsWidth BITS }
    ensures stands { (fed : List ℕ) → register ≡ register_of BITS fed
        → result ≡ register_of BITS (fed ++ group.now) }
    ensures within { result < 2 ^ BITS }
{
    let first = u32::from_le_bytes([group[0], group[1], group[2], group[3]]);
    let second = u32::from_le_bytes([group[4], group[5], group[6], group[7]]);
    let third = u32::from_le_bytes([group[8], group[9], group[10], group[11]]);
    let last = u32::from_le_bytes([group[12], group[13], group[14], group[15]]);
    word_remainder::<BITS>(register ^ first, 3)
        ^ word_remainder::<BITS>(second, 2)
        ^ word_remainder::<BITS>(third, 1)
        ^ word_remainder::<BITS>(last, 0)
}

/// The register after these groups of sixteen bytes too.
pub(crate) fn with_groups<const BITS: usize>(register: u32, groups: &[[u8; 16]]) -> u32
    requires width { IsWidth BITS }
    requires fits { register < 2 ^ BITS }
    ensures stands { (fed : List ℕ) → register ≡ register_of BITS fed
        → result ≡ register_of BITS (fed ++ concat groups.now) }
    ensures within { result < 2 ^ BITS }
{
    let mut register = register;
    for group in groups {
        register = with_group::<BITS>(register, group);
    }
    register
}

/// The register after these bytes too.
pub(crate) fn with_bytes<const BITS: usize>(register: u32, bytes: &[u8]) -> u32
    requires width { IsWidth BITS }
    requires fits { register < 2 ^ BITS }
    ensures stands { (fed : List ℕ) → register ≡ register_of BITS fed
        → result ≡ register_of BITS (fed ++ bytes.now) }
    ensures within { result < 2 ^ BITS }
{
    let mut register = register;
    let table = &tables::<BITS>(0)[0];
    for byte in bytes {
        let index = (register ^ u32::from(*byte)) & 0xff;
        register = table[index as usize] ^ (register >> 8);
    }
    register
}
