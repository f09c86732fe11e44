//! GHASH of many blocks (NIST SP 800-38D, section 6.4) in sixteen streams: block n goes to stream n mod 16, each stream
//! is multiplied by H^16 before its next block is added, and in the end stream j is multiplied by H^(16 - j).
//!
//! Register b holds byte b of the streams. A product with H^16 is the sum of the products of the 32 half bytes, and of
//! each of these a shuffle looks up one byte for all streams at once. So from block to block no memory is read at a place
//! that the text or the key gives.

ghost use Rattle.std.specs.Prelude.{◌≡◌, ◌+◌, ◌*◌, ◌/◌, ◌%◌, ◌<◌, ◌≤◌, ◌++◌, ℕ, Bool, List, length, bit_xor, slice_index, take, drop};
ghost use Rattle.gcm_core.specs.Block.{bits, polynomial_of, block_of, block_product};
ghost use Rattle.gcm_core.specs.Polynomial.{polynomial_sum};
ghost use Rattle.gcm_core.specs.Hash.{block_at, Hashes, times_power};
ghost use Rattle.std.specs.Simd.Lanes.{put_chunk};
ghost use Rattle.gcm_core.specs.Streams.{stream_in, sum_below, half_byte, HasProducts};

use crate::hash::{absorb_blocks, filled_block};
use crate::registers::{interleaved, load, store};
use crate::subkey::{Subkey, multiples, times_x};
use std::simd::prelude::*;

/// The first half's bytes and the second half's in turn.
fn woven(bytes: &[u8]) -> [u8; 256]
    requires { length bytes.now ≡ 256 }
    ensures { (k : ℕ) → k < 256
        → slice_index result k ≡ slice_index bytes.now (k / 2 + 128 * (k % 2)) }
{
    let mut woven = [0; 256];
    for row in 0..8 {
        let (first, second) = interleaved(load(bytes, 16 * row), load(bytes, 128 + 16 * row));
        store(first, &mut woven, 32 * row);
        store(second, &mut woven, 32 * row + 16);
    }
    woven
}

/// Sixteen rows of 16 bytes with rows and columns in each other's place.
fn transposed(rows: &[u8]) -> [u8; 256]
    requires { length rows.now ≡ 256 }
    ensures { (i j : ℕ) → i < 16 → j < 16
        → slice_index result (16 * i + j) ≡ slice_index rows.now (16 * j + i) }
{
    let once = woven(rows);
    let twice = woven(&once);
    let thrice = woven(&twice);
    woven(&thrice)
}

/// The half bytes of the streams: row 2 b has the upper ones of register b, and row 2 b + 1 the lower ones.
fn half_bytes(streams: &[u8; 256]) -> [u8; 512]
    ensures places { (k : ℕ) → slice_index result k < 16 }
    ensures rows { (q j : ℕ) → q < 32 → j < 16
        → slice_index result (16 * q + j)
        ≡ half_byte q (slice_index streams.now (16 * (q / 2) + j)) }
{
    let mut halves = [0; 512];
    for register in 0..16 {
        let bytes = load(streams, 16 * register);
        store(bytes >> u8x16::splat(4), &mut halves, 32 * register);
        store(bytes & u8x16::splat(15), &mut halves, 32 * register + 16);
    }
    halves
}

/// Byte b of the products of all streams: the sum of what the table has for it at the half bytes.
#[inline(always)]
fn looked_up(table: &[u8; 8192], halves: &[u8; 512], byte: usize) -> u8x16
    requires byte { byte < 16 }
    requires halves { (k : ℕ) → slice_index halves.now k < 16 }
    ensures length { length result ≡ 16 }
    ensures sums { (j : ℕ) → j < 16 → slice_index result j ≡ sum_below 32
        (λ q. slice_index table.now (256 * q + (16 * byte + slice_index halves.now (16 * q + j)))) }
{
    let mut sum = u8x16::splat(0);
    for half in 0..32 {
        let entries = load(table, 256 * half + 16 * byte);
        sum ^= entries.swizzle_dyn(load(halves, 16 * half));
    }
    sum
}

/// Each stream's product with the block whose products the table has.
fn products(table: &[u8; 8192], streams: &[u8; 256]) -> [u8; 256]
    ensures { (h : List Bool) → HasProducts h table.now → (j : ℕ) → j < 16
        → polynomial_of (stream_in result j)
        ≡ block_product (polynomial_of (stream_in streams.now j)) h }
{
    let halves = half_bytes(streams);
    let mut products = [0; 256];
    for byte in 0..16 {
        store(looked_up(table, &halves, byte), &mut products, 16 * byte);
    }
    products
}

/// Two times sixteen streams, each added to the other of its place.
fn sums(left: &[u8; 256], right: &[u8; 256]) -> [u8; 256]
    ensures { (k : ℕ) → k < 256
        → slice_index result k ≡ bit_xor (slice_index left.now k) (slice_index right.now k) }
{
    let mut sums = [0; 256];
    for register in 0..16 {
        let sum = load(left, 16 * register) ^ load(right, 16 * register);
        store(sum, &mut sums, 16 * register);
    }
    sums
}

/// The bytes of 16 blocks, one after the other.
fn rows_of(blocks: &[u128; 16]) -> [u8; 256]
    ensures { (m b : ℕ) → m < 16 → b < 16
        → slice_index result (16 * m + b)
        ≡ slice_index (block_of (bits 128 (slice_index blocks.now m))) b }
{
    let mut rows = [0; 256];
    for row in 0..16 {
        store(load(&blocks[row].to_be_bytes(), 0), &mut rows, 16 * row);
    }
    rows
}

/// Writes 256 bytes from this place on.
fn put_rows(table: &mut [u8], start: usize, rows: &[u8; 256])
    requires { start + 256 ≤ length table.old }
    ensures { table.new ≡ put_chunk start table.old rows.now }
{
    table[start..start + 256].copy_from_slice(rows);
}

/// The products of a block with every half byte at every place.
fn product_table(block: u128) -> [u8; 8192]
    ensures { HasProducts (bits 128 block) result }
{
    let mut table = [0; 8192];
    let mut power = block;
    for half in 0..32 {
        let entries = multiples(power);
        let products = transposed(&rows_of(&entries));
        put_rows(&mut table, 256 * half, &products);
        power = times_x(entries[1]);
    }
    table
}

/// The 16th power of the subkey.
fn sixteenth_power(subkey: &Subkey) -> u128
    ensures power { bits 128 result ≡ times_power subkey.now 15 subkey.now }
    ensures length { length subkey.now ≡ 128 }
{
    let mut power = subkey.block();
    for _times in 0..15u32 {
        power = subkey.product(power);
    }
    power
}

/// The streams after the first 16 blocks, the hash added to the first of these.
fn first_streams(hash: u128, bytes: &[u8]) -> [u8; 256]
    requires { 256 ≤ length bytes.now }
    ensures zeroth { polynomial_of (stream_in result 0)
        ≡ polynomial_sum (bits 128 hash) (block_at bytes.now 0) }
    ensures others { (j : ℕ) → 0 < j → j < 16
        → polynomial_of (stream_in result j) ≡ block_at bytes.now j }
{
    let mut rows = [0; 256];
    rows.copy_from_slice(&bytes[..256]);
    let first = hash ^ filled_block(&bytes[..16]);
    store(load(&first.to_be_bytes(), 0), &mut rows, 0);
    transposed(&rows)
}

/// The hash after these bytes too, which are a multiple of 16 blocks.
pub(crate) fn absorb_groups(subkey: &Subkey, hash: u128, bytes: &[u8]) -> u128
    requires whole { length bytes.now % 256 ≡ 0 }
    requires some { 0 < length bytes.now }
    ensures { (before : List ℕ) → Hashes subkey.now before hash
        → Hashes subkey.now (before ++ bytes.now) result }
{
    let table = product_table(sixteenth_power(subkey));
    let mut streams = first_streams(hash, bytes);
    for group in 1..bytes.len() / 256 {
        let blocks = transposed(&bytes[256 * group..256 * group + 256]);
        let next = sums(&products(&table, &streams), &blocks);
        streams = next;
    }
    absorb_blocks(subkey, 0, &transposed(&streams))
}
