//! A check value over bytes that come piece by piece.

ghost use Rattle.std.specs.Prelude.{◌≡◌, ◌-◌, ◌<◌, ◌^◌, ℕ, [], List};
ghost use Rattle.std.proofs.Common.{rules};
ghost use Rattle.bp_crc.specs.Check.{IsWidth, check};
ghost use Rattle.bp_crc.specs.Table.{register_of};

use crate::sliced::{with_bytes, with_groups};
use cbor_profile::Feed;
use std::marker::Model;

/// A check value over the bytes fed. BITS is 16 for CRC-16 X-25, or 32 for CRC-32C.
///
/// It keeps the remainder of what was fed, and no bytes. A contract sees it as that remainder's number.
#[derive(Debug, Drop)]
pub struct Crc<const BITS: usize> {
    register: u32,
}

impl<const BITS: usize> Model for Crc<BITS> {
    ghost use Rattle.std.specs.Prelude.{◌<◌, ◌^◌, ℕ};
    ghost use Rattle.bp_crc.specs.Check.{IsWidth};

    ghost Value = { ℕ };

    ghost view = { λ c. c.register };

    ghost invariant = { λ c. IsWidth BITS × (c.register < 2 ^ BITS) };
}

impl<const BITS: usize> Crc<BITS> {
    /// Nothing fed yet.
    pub fn new() -> Crc<BITS>
        requires { IsWidth BITS }
        ensures { result ≡ register_of BITS [] }
    {
        Crc {
            register: ones::<BITS>(),
        }
    }

    /// The check value over the bytes fed. It fits in 2 bytes, or in 4.
    pub fn finish(self) -> u32
        ensures value { (fed : List ℕ) → self.entry ≡ register_of BITS fed
            → result ≡ check BITS fed }
        ensures within { result < 2 ^ BITS }
    {
        self.register ^ ones::<BITS>()
    }
}

// BITS ones.
fn ones<const BITS: usize>() -> u32
    requires { IsWidth BITS }
    ensures { result ≡ 2 ^ BITS - 1 }
{
    if BITS == 16 { 0xffff } else { 0xffff_ffff }
}

impl<const BITS: usize> Feed for Crc<BITS> {
    ghost stands_for = { λ c fed. c ≡ register_of BITS fed };

    ghost fixed = { λ _. [] };

    ghost MOST = { 2 ^ 64 - 1 };

    const MOST: u64 = u64::MAX;

    fn feed(&mut self, piece: &[u8]) {
        let (groups, rest) = piece.as_chunks::<16>();
        let whole = with_groups::<BITS>(self.register, groups);
        self.register = with_bytes::<BITS>(whole, rest);
    }

    ghost enough = { Prim.search rules };
}
