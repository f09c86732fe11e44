//! Sealing and opening with additional data (NIST SP 800-38D, section 7).

ghost use Rattle.std.specs.Prelude.{◌≡◌, ◌-◌, ◌^◌, ◌<◌, ◌≤◌, ◌↔◌, ◌++◌, ◌∷◌, ℕ, [], List, length, IsTrue};
ghost use Rattle.std.specs.Bool.{OnTrue, OnFalse};
ghost use Rattle.std.proofs.Common.{rules};
ghost use Rattle.aes_core.specs.Cipher.{cipher};
ghost use Rattle.gcm_core.specs.Gcm.{Seals, first_block, ciphered, tag_of};
ghost use Rattle.gcm_core.specs.State.{HasTaken};

use crate::counter::{add, encrypted, run_counter_mode};
use crate::hash::{absorb, filled_block};
use crate::subkey::Subkey;
use crate::tag::{first_block, lengths};
use aes_core::Aes;
use cbor_profile::Feed;
use gf2_polynomial::same_bytes;
use std::marker::Model;

/// AES-GCM with a key of NK words, as it takes the additional data.
#[derive(Drop)]
pub struct Gcm<const NK: usize> {
    aes: Aes<NK>,
    subkey: Subkey,
    hash: u128,
    rest: [u8; 16],
    fed: u64,
}

impl<const NK: usize> Model for Gcm<NK> {
    ghost use Rattle.std.specs.Prelude.{◌≡◌};
    ghost use Rattle.aes_core.specs.Cipher.{cipher};
    ghost use Rattle.gcm_core.specs.Gcm.{hash_subkey};
    ghost use Rattle.gcm_core.specs.State.{GcmState};

    ghost Value = { GcmState };

    ghost view = { λ g. record { key = g.aes; hash = g.hash; rest = g.rest; fed = g.fed } };

    ghost invariant = { λ g. g.subkey ≡ hash_subkey (cipher NK g.aes) };
}

impl<const NK: usize> Gcm<NK> {
    /// With this key, and no additional data yet. Takes no memory.
    pub fn new(key: &Aes<NK>) -> Gcm<NK>
        ensures key { result.key ≡ key.now }
        ensures none { HasTaken NK result [] }
    {
        Gcm {
            aes: key.copy(),
            subkey: Subkey::new(filled_block(&encrypted(key, &[0; 16]))),
            hash: 0,
            rest: [0; 16],
            fed: 0,
        }
    }

    /// Enciphers the body in place, and returns its tag (section 7.1). The initialisation vector has some bytes, and the body
    /// at most 2^32. Takes no memory.
    pub fn seal(self, iv: &[u8], body: &mut [u8]) -> [u8; 16]
        requires vector { 0 < length iv.now }
        requires body { length body.old ≤ 2 ^ 32 }
        ensures body { body.new ≡ ciphered (cipher NK self.entry.key) iv.now body.old }
        ensures tag { (aad : List ℕ) → HasTaken NK self.entry aad
            → result ≡ tag_of (cipher NK self.entry.key) iv.now aad body.new }
    {
        let first = first_block(&self.aes, &self.subkey, iv);
        run_counter_mode(&self.aes, &first, body);
        self.tag(&first, body)
    }

    /// Deciphers the body in place if the tag is right, and says whether it is (section 7.2). Else the body stays. The vector
    /// has some bytes, and the body at most 2^32. Takes no memory.
    pub fn unseal(self, iv: &[u8], body: &mut [u8], tag: &[u8; 16]) -> bool
        requires vector { 0 < length iv.now }
        requires body { length body.old ≤ 2 ^ 32 }
        ensures exact { (aad : List ℕ) → HasTaken NK self.entry aad
            → (IsTrue result ↔ (tag.now ≡ tag_of (cipher NK self.entry.key) iv.now aad body.old)) }
        ensures opened { OnTrue result (body.new
            ≡ ciphered (cipher NK self.entry.key) iv.now body.old) }
        ensures stays { OnFalse result (body.new ≡ body.old) }

        // What sealing made is opened.
        ensures undoes { (aad plain : List ℕ) → HasTaken NK self.entry aad
            → Seals (cipher NK self.entry.key) iv.now aad plain body.old tag.now
            → IsTrue result × (body.new ≡ plain) }
    {
        let first = first_block(&self.aes, &self.subkey, iv);
        let right = same_bytes(&self.tag(&first, body), tag);
        if right {
            run_counter_mode(&self.aes, &first, body);
        }
        right
    }

    /// Says whether the tag is right, and opens nothing (section 7.2). The vector has some bytes. Takes no memory.
    pub fn check(self, iv: &[u8], body: &[u8], tag: &[u8; 16]) -> bool
        requires vector { 0 < length iv.now }
        ensures { (aad : List ℕ) → HasTaken NK self.entry aad
            → (IsTrue result ↔ (tag.now ≡ tag_of (cipher NK self.entry.key) iv.now aad body.now)) }
    {
        let first = first_block(&self.aes, &self.subkey, iv);
        let right_tag = self.tag(&first, body);
        same_bytes(&right_tag, tag)
    }

    /// Takes one byte of additional data.
    fn take(&mut self, byte: u8)
        ensures taken { (aad : List ℕ) → HasTaken NK self.old aad → length aad < 2 ^ 61 - 1
            → HasTaken NK self.new (aad ++ byte ∷ []) }
        ensures key { self.new.key ≡ self.old.key }
    {
        let used = (self.fed % 16) as usize;
        self.rest[used] = byte;
        self.fed = self.fed.wrapping_add(1);
        if used == 15 {
            self.hash = absorb(&self.subkey, self.hash, &self.rest);
        }
    }

    /// The tag of a ciphertext, under the block before the first counter.
    fn tag(&self, first: &[u8; 16], ciphertext: &[u8]) -> [u8; 16]
        ensures { (iv aad : List ℕ) → first.now ≡ first_block (cipher NK self.now.key) iv
            → HasTaken NK self.now aad
            → result ≡ tag_of (cipher NK self.now.key) iv aad ciphertext.now }
    {
        let used = (self.fed % 16) as usize;
        let hash = absorb(&self.subkey, self.hash, &self.rest[..used]);
        let hash = absorb(&self.subkey, hash, ciphertext);
        let lengths = lengths(self.fed, ciphertext.len() as u64);
        let hash = absorb(&self.subkey, hash, &lengths);
        let mut tag = encrypted(&self.aes, first);
        add(&mut tag, &hash.to_be_bytes());
        tag
    }
}

impl<const NK: usize> Feed for Gcm<NK> {
    ghost stands_for = { HasTaken NK };

    ghost fixed = { λ g. g.key };

    ghost MOST = { 2 ^ 61 - 1 };

    const MOST: u64 = (1 << 61) - 1;

    fn feed(&mut self, piece: &[u8]) {
        for byte in piece {
            self.take(*byte);
        }
    }

    ghost enough = { Prim.search rules };
}
