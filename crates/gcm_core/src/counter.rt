//! Counter mode (NIST SP 800-38D, sections 6.2 and 6.5).

ghost use Rattle.std.specs.Prelude.{◌≡◌, ◌+◌, ◌*◌, ◌/◌, ◌≤◌, ◌^◌, ◌++◌, ℕ, List, length, map, take, drop};
ghost use Rattle.aes_core.specs.Cipher.{cipher};
ghost use Rattle.gcm_core.specs.Counter.{counted, counters_from, counter_mode, counter_mode_from, bytes_sum};

use aes_core::{Aes, SlicedAes};
use gf2_polynomial::add_bytes;
use std::simd::prelude::*;

/// From this length on a body goes eight blocks at a time: below it the setting up takes longer than it saves.
const LONG: usize = 256;

/// The encrypted block.
pub(crate) fn encrypted<const NK: usize>(aes: &Aes<NK>, block: &[u8; 16]) -> [u8; 16]
    ensures { result ≡ cipher NK aes.now block.now }
{
    let mut encrypted = *block;
    aes.encrypt(&mut encrypted);
    encrypted
}

/// The block with a count added to its last four bytes, modulo 2^32.
fn counted(block: &[u8; 16], count: u32) -> [u8; 16]
    ensures { result ≡ counted block.now count }
{
    let last = u32::from_be_bytes([block[12], block[13], block[14], block[15]]);
    let mut counter = *block;
    counter[12..].copy_from_slice(&last.wrapping_add(count).to_be_bytes());
    counter
}

/// Adds a block to at most 16 bytes, bit by bit.
pub(crate) fn add(bytes: &mut [u8], block: &[u8; 16])
    requires { length bytes.old ≤ 16 }
    ensures { bytes.new ≡ bytes_sum bytes.old block.now }
{
    if bytes.len() == 16 {
        add_whole(bytes, block);
        return;
    }
    add_bytes(bytes, block);
}

/// Adds a block to 16 bytes.
fn add_whole(bytes: &mut [u8], block: &[u8; 16])
    requires { length bytes.old ≡ 16 }
    ensures { bytes.new ≡ bytes_sum bytes.old block.now }
{
    let sum = u8x16::from_slice(bytes) ^ u8x16::from_slice(block);
    sum.copy_to_slice(bytes);
}

/// The eight counters after the first `done`.
fn eight_counters(first: &[u8; 16], done: usize) -> [[u8; 16]; 8]
    requires { done ≤ 2 ^ 28 }
    ensures { result ≡ counters_from first.now done 8 }
{
    let mut counters = [[0; 16]; 8];
    for place in 0..8 {
        counters[place] = counted(first, (done + place + 1) as u32);
    }
    counters
}

/// Adds eight blocks of the key stream to the body, after the first `done` blocks.
fn add_eight(body: &mut [u8], done: usize, streams: &[[u8; 16]; 8])
    requires { 16 * (done + 8) ≤ length body.old }
    ensures { (e : List ℕ → List ℕ) → ((block : List ℕ) → length (e block) ≡ 16)
        → (first whole : List ℕ)
        → streams.now ≡ map e (counters_from first done 8)
        → body.old ≡ counter_mode_from e first 0 (take (16 * done) whole) ++ drop (16 * done) whole
        → body.new ≡ counter_mode_from e first 0 (take (16 * (done + 8)) whole)
        ++ drop (16 * (done + 8)) whole }
{
    for place in 0..8 {
        let start = 16 * (done + place);
        add(&mut body[start..start + 16], &streams[place]);
    }
}

/// Runs eight blocks at a time, as often as there are eight more, and returns how many blocks that was.
fn run_by_eight<const NK: usize>(aes: &SlicedAes<NK>, first: &[u8; 16], body: &mut [u8]) -> usize
    requires { length body.old ≤ 2 ^ 32 }
    ensures count { result ≡ 8 * (length body.old / 128) }
    ensures body { body.new
        ≡ counter_mode_from (cipher NK aes.now) first.now 0 (take (16 * result) body.old)
        ++ drop (16 * result) body.old }
{
    let groups = body.len() / 128;
    for group in 0..groups {
        let mut streams = eight_counters(first, 8 * group);
        aes.encrypt(&mut streams);
        add_eight(body, 8 * group, &streams);
    }
    8 * groups
}

/// Enciphers the body, or deciphers it, with the counters after the block `first`.
pub(crate) fn run_counter_mode<const NK: usize>(aes: &Aes<NK>, first: &[u8; 16], body: &mut [u8])
    requires { length body.old ≤ 2 ^ 32 }
    ensures { body.new ≡ counter_mode (cipher NK aes.now) first.now body.old }
{
    let done = if body.len() < LONG {
        0
    } else {
        run_by_eight(&SlicedAes::new(aes), first, body)
    };
    for block in done..body.len().div_ceil(16) {
        let start = 16 * block;
        let end = body.len().min(start + 16);
        let stream = encrypted(aes, &counted(first, (block + 1) as u32));
        add(&mut body[start..end], &stream);
    }
}
