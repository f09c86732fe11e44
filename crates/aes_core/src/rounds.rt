//! A block through the rounds and back, with an expanded key (FIPS 197, sections 5.1 and 5.3).

ghost use Rattle.std.specs.Prelude.{◌≡◌, ◌+◌, ◌*◌, ◌≤◌, ◌<◌, length, slice_index};
ghost use Rattle.aes_core.specs.Boxes.{sub_byte, inverse_sub_byte};
ghost use Rattle.aes_core.specs.State.{sub_bytes, shift_rows, mix_columns};
ghost use Rattle.aes_core.specs.State.{inverse_sub_bytes, inverse_shift_rows, inverse_mix_columns};
ghost use Rattle.aes_core.specs.Cipher.{encryption, decryption};
ghost use Rattle.aes_core.specs.Words.{IsColumn, state_in, AreInverseKeys};

use crate::boxes::{inverse_sub_byte, sub_byte};
use crate::inverse_keys::MOST_KEYS;
use crate::tables::{mixed_column, unmixed_column};
use crate::words::{add_round_key, bytes_of, diagonal, sum, words_of};

// A column through the S-box.
#[inline(always)]
fn boxed_column(column: [u8; 4]) -> u32
    ensures { IsColumn result (λ r. sub_byte (slice_index column r)) }
{
    u32::from_le_bytes([
        sub_byte(column[0]),
        sub_byte(column[1]),
        sub_byte(column[2]),
        sub_byte(column[3]),
    ])
}

// A column through the inverse of the S-box.
#[inline(always)]
fn unboxed_column(column: [u8; 4]) -> u32
    ensures { IsColumn result (λ r. inverse_sub_byte (slice_index column r)) }
{
    u32::from_le_bytes([
        inverse_sub_byte(column[0]),
        inverse_sub_byte(column[1]),
        inverse_sub_byte(column[2]),
        inverse_sub_byte(column[3]),
    ])
}

// A round, up to its key: row r turns to the left by r, so that a column comes from a diagonal.
#[inline(always)]
fn round(state: [u32; 4]) -> [u32; 4]
    ensures { state_in result ≡ mix_columns (shift_rows (sub_bytes (state_in state))) }
{
    let [a, b, c, d] = state;
    [
        mixed_column(diagonal(a, b, c, d)),
        mixed_column(diagonal(b, c, d, a)),
        mixed_column(diagonal(c, d, a, b)),
        mixed_column(diagonal(d, a, b, c)),
    ]
}

// The last round, up to its key: it has no multiplication.
#[inline(always)]
fn last_round(state: [u32; 4]) -> [u32; 4]
    ensures { state_in result ≡ shift_rows (sub_bytes (state_in state)) }
{
    let [a, b, c, d] = state;
    [
        boxed_column(diagonal(a, b, c, d)),
        boxed_column(diagonal(b, c, d, a)),
        boxed_column(diagonal(c, d, a, b)),
        boxed_column(diagonal(d, a, b, c)),
    ]
}

// A round back, up to its key: row r turns to the right by r.
#[inline(always)]
fn inverse_round(state: [u32; 4]) -> [u32; 4]
    ensures { state_in result
        ≡ inverse_mix_columns (inverse_sub_bytes (inverse_shift_rows (state_in state))) }
{
    let [a, b, c, d] = state;
    [
        unmixed_column(diagonal(a, d, c, b)),
        unmixed_column(diagonal(b, a, d, c)),
        unmixed_column(diagonal(c, b, a, d)),
        unmixed_column(diagonal(d, c, b, a)),
    ]
}

// The last round back, up to its key.
#[inline(always)]
fn last_inverse_round(state: [u32; 4]) -> [u32; 4]
    ensures { state_in result ≡ inverse_sub_bytes (inverse_shift_rows (state_in state)) }
{
    let [a, b, c, d] = state;
    [
        unboxed_column(diagonal(a, d, c, b)),
        unboxed_column(diagonal(b, a, d, c)),
        unboxed_column(diagonal(c, b, a, d)),
        unboxed_column(diagonal(d, c, b, a)),
    ]
}

// The block through nr rounds, with the expanded key w.
pub(crate) fn encryption(w: &[u8], nr: usize, block: &mut [u8; 16])
    requires some { 1 ≤ nr }
    requires words { length w.now ≡ 16 * (nr + 1) }
    ensures { block.new ≡ encryption w.now nr block.old }
{
    let mut state = add_round_key(w, 0, words_of(block));
    for n in 1..nr {
        state = add_round_key(w, n, round(state));
    }
    *block = bytes_of(add_round_key(w, nr, last_round(state)));
}

// The block back through nr rounds, with the expanded key w: the round keys between the first and the last are added
// after the multiplication, and so were multiplied themselves (section 5.3.5).
pub(crate) fn decryption(
    w: &[u8],
    inverse_keys: &[[u32; 4]; MOST_KEYS],
    nr: usize,
    block: &mut [u8; 16],
)
    requires some { 1 ≤ nr }
    requires most { nr < MOST_KEYS }
    requires words { length w.now ≡ 16 * (nr + 1) }
    requires inverse { AreInverseKeys w.now (nr + 1) inverse_keys.now }
    ensures { block.new ≡ decryption w.now nr block.old }
{
    let mut state = add_round_key(w, nr, words_of(block));
    for n in (1..nr).rev() {
        state = sum(inverse_round(state), inverse_keys[n]);
    }
    *block = bytes_of(add_round_key(w, 0, last_inverse_round(state)));
}
