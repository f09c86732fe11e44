//! AES on eight blocks at once.

ghost use Rattle.std.specs.Prelude.{◌≡◌, map};
ghost use Rattle.aes_core.specs.KeyExpansion.{IsKey};
ghost use Rattle.aes_core.specs.Cipher.{cipher};

mod registers;
mod rounds;
mod s_box;
mod steps;
mod transposition;

use crate::cipher::Aes;
use registers::Registers;
use rounds::{MOST, encryption, round_keys};
use std::marker::Model;
use transposition::{gathered, scattered};

/// AES under a key of NK words of four bytes, for eight blocks at once (FIPS 197). The blocks stand side by side in
/// registers and go through the same sums, products and shuffles of bits, so that no table is read, and no place that
/// is read depends on the key or a block. A contract sees it as the list of the key's bytes.
#[derive(Drop)]
pub struct SlicedAes<const NK: usize> {
    round_keys: [Registers; MOST],
}

impl<const NK: usize> Model for SlicedAes<NK> {
    ghost use Rattle.std.specs.Prelude.{◌≡◌, ◌+◌, ℕ, List, length};
    ghost use Rattle.aes_core.specs.KeyExpansion.{IsKey, key_expansion};
    ghost use Rattle.aes_core.specs.Sliced.{key_in, AreRoundKeys};

    ghost Value = { List ℕ };

    ghost view = { λ a. key_in NK a.round_keys };

    // The round keys are the expansion of the key that they begin with.
    ghost invariant = { λ a. IsKey NK (key_in NK a.round_keys)
        × AreRoundKeys (key_expansion NK (key_in NK a.round_keys)) (NK + 7) a.round_keys };
}

impl<const NK: usize> SlicedAes<NK> {
    /// AES under the same key.
    pub fn new(key: &Aes<NK>) -> SlicedAes<NK>
        ensures { result ≡ key.now }
    {
        SlicedAes {
            round_keys: round_keys(key.round_keys(), NK + 7),
        }
    }

    /// Encrypts each of eight blocks in place (section 5.1).
    pub fn encrypt(&self, blocks: &mut [[u8; 16]; 8])
        ensures key { IsKey NK self.now }
        ensures encrypted { blocks.new ≡ map (cipher NK self.now) blocks.old }
    {
        *blocks = scattered(encryption(&self.round_keys, NK + 6, gathered(blocks)));
    }
}
