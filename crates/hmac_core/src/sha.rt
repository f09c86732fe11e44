//! The hash functions SHA-256, SHA-384 and SHA-512 (FIPS 180-4).

ghost use Rattle.std.specs.Prelude.{◌≡◌, ◌-◌, ◌^◌, ◌≤◌, ◌++◌, ℕ, [], List, length, take};
ghost use Rattle.std.proofs.Common.{rules};
ghost use Rattle.sha2.specs.Hashers.{Holds256, Holds384, Holds512};
ghost use Rattle.sha2.specs.Sha256.{sha256};
ghost use Rattle.sha2.specs.Sha512.{sha384, sha512};
ghost use Rattle.sha2.proofs.Facts256.{length-sha256};
ghost use Rattle.sha2.proofs.Facts512.{length-sha384, length-sha512};

use crate::front::put_front;
use crate::hash::Hash;
use cbor_profile::Feed;
use sha2::Digest;

/// SHA-256, with digests of 32 bytes (FIPS 180-4, section 6.2).
#[derive(Drop)]
pub struct Sha256 {
    hasher: sha2::Sha256,
}

impl Feed for Sha256 {
    ghost stands_for = { λ s m. Holds256 s.hasher m };

    ghost fixed = { λ _. [] };

    ghost MOST = { 2 ^ 61 - 1 };

    const MOST: u64 = (1 << 61) - 1;

    fn feed(&mut self, piece: &[u8]) {
        self.hasher.update(piece);
    }

    ghost enough = { Prim.search rules };
}

impl Hash for Sha256 {
    ghost digest = { sha256 };

    ghost DIGEST = { 32 };

    const DIGEST: usize = 32;

    ghost BLOCK = { 64 };

    const BLOCK: usize = 64;

    fn start() -> Sha256 {
        Sha256 {
            hasher: sha2::Sha256::new(),
        }
    }

    fn finish(self, out: &mut [u8; 64]) -> usize {
        let Sha256 { hasher } = self;
        put_front(out, &hasher.finalize());
        32
    }

    ghost has_length = { length-sha256 };

    ghost short = { Prim.search rules };

    ghost within = { Prim.search rules };

    ghost small = { Prim.search rules };

    ghost many = { Prim.search rules };
}

/// SHA-384, with digests of 48 bytes (FIPS 180-4, section 6.5).
#[derive(Drop)]
pub struct Sha384 {
    hasher: sha2::Sha384,
}

impl Feed for Sha384 {
    ghost stands_for = { λ s m. Holds384 s.hasher m };

    ghost fixed = { λ _. [] };

    ghost MOST = { 2 ^ 61 - 1 };

    const MOST: u64 = (1 << 61) - 1;

    fn feed(&mut self, piece: &[u8]) {
        self.hasher.update(piece);
    }

    ghost enough = { Prim.search rules };
}

impl Hash for Sha384 {
    ghost digest = { sha384 };

    ghost DIGEST = { 48 };

    const DIGEST: usize = 48;

    ghost BLOCK = { 128 };

    const BLOCK: usize = 128;

    fn start() -> Sha384 {
        Sha384 {
            hasher: sha2::Sha384::new(),
        }
    }

    fn finish(self, out: &mut [u8; 64]) -> usize {
        let Sha384 { hasher } = self;
        put_front(out, &hasher.finalize());
        48
    }

    ghost has_length = { length-sha384 };

    ghost short = { Prim.search rules };

    ghost within = { Prim.search rules };

    ghost small = { Prim.search rules };

    ghost many = { Prim.search rules };
}

/// SHA-512, with digests of 64 bytes (FIPS 180-4, section 6.4).
#[derive(Drop)]
pub struct Sha512 {
    hasher: sha2::Sha512,
}

impl Feed for Sha512 {
    ghost stands_for = { λ s m. Holds512 s.hasher m };

    ghost fixed = { λ _. [] };

    ghost MOST = { 2 ^ 61 - 1 };

    const MOST: u64 = (1 << 61) - 1;

    fn feed(&mut self, piece: &[u8]) {
        self.hasher.update(piece);
    }

    ghost enough = { Prim.search rules };
}

impl Hash for Sha512 {
    ghost digest = { sha512 };

    ghost DIGEST = { 64 };

    const DIGEST: usize = 64;

    ghost BLOCK = { 128 };

    const BLOCK: usize = 128;

    fn start() -> Sha512 {
        Sha512 {
            hasher: sha2::Sha512::new(),
        }
    }

    fn finish(self, out: &mut [u8; 64]) -> usize {
        let Sha512 { hasher } = self;
        put_front(out, &hasher.finalize());
        64
    }

    ghost has_length = { length-sha512 };

    ghost short = { Prim.search rules };

    ghost within = { Prim.search rules };

    ghost small = { Prim.search rules };

    ghost many = { Prim.search rules };
}
