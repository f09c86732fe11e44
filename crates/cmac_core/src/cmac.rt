//! AES-CMAC as it takes a message (RFC 4493, section 2.4).

ghost use Rattle.std.specs.Prelude.{◌≡◌, ◌-◌, ◌^◌, ◌++◌, ◌∷◌, ℕ, [], List};
ghost use Rattle.std.proofs.Common.{rules};
ghost use Rattle.aes_core.specs.Cipher.{cipher};
ghost use Rattle.cmac_core.specs.Cmac.{cmac};
ghost use Rattle.cmac_core.specs.State.{HasTaken};

use crate::last::last_block;
use aes_core::Aes;
use cbor_profile::Feed;
use gf2_polynomial::add_bytes;
use std::marker::Model;

/// AES-CMAC under a key of NK words. It keeps the last block back, since only the end of the message shows which one is last.
#[derive(Drop)]
pub struct Cmac<const NK: usize> {
    aes: Aes<NK>,
    chain: [u8; 16],
    kept: [u8; 16],
    used: usize,
}

impl<const NK: usize> Model for Cmac<NK> {
    ghost use Rattle.std.specs.Prelude.{◌≤◌};
    ghost use Rattle.cmac_core.specs.State.{CmacState};

    ghost Value = { CmacState };

    ghost view = { λ c. record { key = c.aes; chain = c.chain; kept = c.kept; used = c.used } };

    ghost invariant = { λ c. c.used ≤ 16 };
}

impl<const NK: usize> Cmac<NK> {
    /// Under this key, with nothing fed yet. Takes no memory.
    pub fn start(key: &Aes<NK>) -> Cmac<NK>
        ensures key { result.key ≡ key.now }
        ensures none { HasTaken NK result [] }
    {
        Cmac {
            aes: key.copy(),
            chain: [0; 16],
            kept: [0; 16],
            used: 0,
        }
    }

    /// The tag of what was fed. Takes no memory.
    pub fn finish(self) -> [u8; 16]
        ensures { (message : List ℕ) → HasTaken NK self.entry message
            → result ≡ cmac (cipher NK self.entry.key) message }
    {
        let last = last_block(&self.aes, &self.kept[..self.used]);
        let mut tag = self.chain;
        add_bytes(&mut tag, &last);
        self.aes.encrypt(&mut tag);
        tag
    }

    /// Takes one byte.
    fn take(&mut self, byte: u8)
        ensures taken { (message : List ℕ) → HasTaken NK self.old message
            → HasTaken NK self.new (message ++ byte ∷ []) }
        ensures key { self.new.key ≡ self.old.key }
    {
        if self.used == 16 {
            add_bytes(&mut self.chain, &self.kept);
            self.aes.encrypt(&mut self.chain);
            self.kept[0] = byte;
            self.used = 1;
        } else {
            self.kept[self.used] = byte;
            self.used += 1;
        }
    }
}

impl<const NK: usize> Feed for Cmac<NK> {
    ghost stands_for = { HasTaken NK };

    ghost fixed = { λ c. c.key };

    ghost MOST = { 2 ^ 64 - 1 };

    const MOST: u64 = u64::MAX;

    fn feed(&mut self, piece: &[u8]) {
        for byte in piece {
            self.take(*byte);
        }
    }

    ghost enough = { Prim.search rules };
}
