//! AES under a key.

ghost use Rattle.std.specs.Prelude.{◌≡◌, ◌+◌, ◌*◌, ◌<◌, ◌↔◌, ℕ, List, All, length, IsSome, IfSome};
ghost use Rattle.aes_core.specs.KeyExpansion.{IsKeySize, IsKey, key_expansion};
ghost use Rattle.aes_core.specs.Cipher.{cipher, inverse_cipher};

use crate::inverse_keys::{MOST_KEYS, inverse_keys};
use crate::key_expansion::{MOST, expand};
use crate::rounds::{decryption, encryption};
use std::marker::Model;

/// AES under a key of NK words of four bytes (FIPS 197): NK is 4 for AES-128, and 8 for AES-256. A contract sees it as the
/// list of the key's bytes.
#[derive(Drop)]
pub struct Aes<const NK: usize> {
    round_keys: [u8; MOST],
    inverse_keys: [[u32; 4]; MOST_KEYS],
}

impl<const NK: usize> Model for Aes<NK> {
    ghost use Rattle.std.specs.Prelude.{◌≡◌, ◌+◌, ◌*◌, ℕ, List, take};
    ghost use Rattle.aes_core.specs.KeyExpansion.{IsKey, key_expansion};
    ghost use Rattle.aes_core.specs.Words.{AreInverseKeys};

    ghost Value = { List ℕ };

    ghost view = { λ a. take (4 * NK) a.round_keys };

    // The round keys are the expansion of the key that they begin with, and those of decryption are the same times the
    // inverse matrix.
    ghost invariant = { λ a. IsKey NK (take (4 * NK) a.round_keys)
        × (take (16 * (NK + 7)) a.round_keys ≡ key_expansion NK (take (4 * NK) a.round_keys))
        × AreInverseKeys (key_expansion NK (take (4 * NK) a.round_keys)) (NK + 7) a.inverse_keys };
}

impl<const NK: usize> Aes<NK> {
    /// AES under these bytes, or None exactly where their number is not 4 NK.
    pub fn new(key: &[u8]) -> Option<Aes<NK>>
        requires { IsKeySize NK }
        ensures some { IsSome result ↔ (length key.now ≡ 4 * NK) }
        ensures key { IfSome result (λ aes. aes ≡ key.now) }
    {
        if key.len() != 4 * NK {
            return None;
        }
        let round_keys = expand(NK, key);
        let inverse_keys = inverse_keys(&round_keys[..16 * (NK + 7)], NK + 7);
        Some(Aes {
            round_keys,
            inverse_keys,
        })
    }

    /// AES under the same key.
    pub fn copy(&self) -> Aes<NK>
        ensures key { IsKey NK self.now }
        ensures same { result ≡ self.now }
    {
        Aes {
            round_keys: self.round_keys,
            inverse_keys: self.inverse_keys,
        }
    }

    /// The round keys, one after another: the expanded key.
    pub(crate) fn round_keys(&self) -> &[u8]
        ensures key { IsKey NK self.now }
        ensures expanded { result.now ≡ key_expansion NK self.now }
        ensures words { length result.now ≡ 16 * (NK + 7) }
    {
        let round_keys = &self.round_keys;
        &round_keys[..16 * (NK + 7)]
    }

    /// Encrypts a block in place (section 5.1).
    pub fn encrypt(&self, block: &mut [u8; 16])
        ensures key { IsKey NK self.now }
        ensures encrypted { block.new ≡ cipher NK self.now block.old }
    {
        let round_keys = &self.round_keys;
        encryption(&round_keys[..16 * (NK + 7)], NK + 6, block);
    }

    /// Decrypts a block in place (section 5.3).
    pub fn decrypt(&self, block: &mut [u8; 16])
        ensures key { IsKey NK self.now }
        ensures decrypted { block.new ≡ inverse_cipher NK self.now block.old }
        ensures undoes { (plain : List ℕ) → length plain ≡ 16 → All (λ b. b < 256) plain
            → block.old ≡ cipher NK self.now plain → block.new ≡ plain }
    {
        let round_keys = &self.round_keys;
        decryption(
            &round_keys[..16 * (NK + 7)],
            &self.inverse_keys,
            NK + 6,
            block,
        );
    }
}
