//! The round keys of decryption, which the inverse matrix was applied to (FIPS 197, section 5.3.5).

ghost use Rattle.std.specs.Prelude.{◌≡◌, ◌+◌, ◌*◌, ◌≤◌, length};
ghost use Rattle.std.specs.Int.{byte_at};
ghost use Rattle.aes_core.specs.State.{unmixed, inverse_mix_columns};
ghost use Rattle.aes_core.specs.Sliced.{round_key};
ghost use Rattle.aes_core.specs.Words.{IsColumn, state_in, AreInverseKeys};

use crate::boxes::sub_byte;
use crate::tables::unmixed_column;
use crate::words::key_column;

/// The most round keys, those of a key of 8 words.
pub(crate) const MOST_KEYS: usize = 15;

// A column times the inverse matrix: the S-box goes before the table, whose box undoes it.
fn unmixed_word(word: u32) -> u32
    ensures { IsColumn result (unmixed (λ r. byte_at r word)) }
{
    let [a, b, c, d] = word.to_le_bytes();
    unmixed_column([sub_byte(a), sub_byte(b), sub_byte(c), sub_byte(d)])
}

// Round key n of the expanded key w, times the inverse matrix.
fn inverse_key(w: &[u8], n: usize) -> [u32; 4]
    requires { 16 * n + 16 ≤ length w.now }
    ensures { state_in result ≡ inverse_mix_columns (round_key w.now n) }
{
    [
        unmixed_word(key_column(w, n, 0)),
        unmixed_word(key_column(w, n, 1)),
        unmixed_word(key_column(w, n, 2)),
        unmixed_word(key_column(w, n, 3)),
    ]
}

/// Each round key of the expanded key w, times the inverse matrix, and zeros after them.
pub(crate) fn inverse_keys(w: &[u8], count: usize) -> [[u32; 4]; MOST_KEYS]
    requires most { count ≤ MOST_KEYS }
    requires words { length w.now ≡ 16 * count }
    ensures { AreInverseKeys w.now count result }
{
    let mut keys = [[0; 4]; MOST_KEYS];
    for n in 0..count {
        keys[n] = inverse_key(w, n);
    }
    keys
}
