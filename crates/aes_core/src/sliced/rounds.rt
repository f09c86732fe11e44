//! Round keys in registers, and eight blocks through the rounds (FIPS 197, section 5.1).

ghost use Rattle.std.specs.Prelude.{◌≡◌, ◌+◌, ◌*◌, ◌≤◌, ◌<◌, ℕ, List, length};
ghost use Rattle.aes_core.specs.Cipher.{encryption};
ghost use Rattle.aes_core.specs.Sliced.{block_of, round_key, AreRoundKeys};

use super::registers::Registers;
use super::s_box::sub_bytes;
use super::steps::{add, mix_columns, shift_rows};
use super::transposition::gathered;

/// The most round keys, those of a key of 8 words.
pub(crate) const MOST: usize = 15;

// Round key n of the expanded key w, for each of eight blocks.
fn round_key(w: &[u8], n: usize) -> Registers
    requires { 16 * n + 16 ≤ length w.now }
    ensures { (j : ℕ) → j < 8 → block_of result j ≡ round_key w.now n }
{
    let mut block = [0; 16];
    block.copy_from_slice(&w[16 * n..16 * n + 16]);
    gathered(&[block; 8])
}

/// The round keys of the expanded key w, and zeros after them.
pub(crate) fn round_keys(w: &[u8], count: usize) -> [Registers; MOST]
    requires most { count ≤ MOST }
    requires words { length w.now ≡ 16 * count }
    ensures { AreRoundKeys w.now count result }
{
    let mut keys = [gathered(&[[0; 16]; 8]); MOST];
    for n in 0..count {
        keys[n] = round_key(w, n);
    }
    keys
}

/// Eight blocks through nr rounds, with these round keys. The rows turn before the substitution, which does the same to
/// each byte wherever it stands.
#[inline(always)]
pub(crate) fn encryption(keys: &[Registers; MOST], nr: usize, state: Registers) -> Registers
    requires some { 1 ≤ nr }
    requires most { nr < MOST }
    ensures { (w : List ℕ) → AreRoundKeys w (nr + 1) keys.now → (j : ℕ) → j < 8
        → block_of result j ≡ encryption w nr (block_of state j) }
{
    let mut state = add(state, keys[0]);
    for n in 1..nr {
        state = add(mix_columns(sub_bytes(shift_rows(state))), keys[n]);
    }
    // The last round has no multiplication.
    add(sub_bytes(shift_rows(state)), keys[nr])
}
