//! A check of a kind that is known only when the program runs, over bytes that come piece by piece. No call takes memory.

ghost use Rattle.std.specs.Prelude.{◌≡◌, ◌-◌, ◌^◌, ◌∷◌, ℕ, [], List};
ghost use Rattle.std.proofs.Common.{rules};
ghost use Rattle.bp_crc.specs.Check.{check_bytes};
ghost use Rattle.bp_crc.specs.Checking.{StandsFor, bytes_of, kind_of};
ghost use Rattle.bp_crc.specs.Item.{check_type};

use crate::kind::CheckKind;
use crate::value::Crc;
use cbor_profile::Feed;

/// A check over the bytes fed, or none. It keeps no bytes.
#[derive(Debug, Drop)]
pub enum Checking {
    None,
    Crc16(Crc<16>),
    Crc32c(Crc<32>),
}

/// The bytes of a check as they stand in a block, in network order (RFC 9171, section 4.2.1).
#[derive(Clone, Copy, Debug)]
pub enum CheckBytes {
    NoBytes,
    Two([u8; 2]),
    Four([u8; 4]),
}

impl CheckBytes {
    /// The bytes: none, 2 or 4.
    pub fn as_slice(&self) -> &[u8]
        ensures { result.now ≡ bytes_of self.now }
    {
        match self {
            CheckBytes::NoBytes => &[],
            CheckBytes::Two(bytes) => bytes,
            CheckBytes::Four(bytes) => bytes,
        }
    }
}

impl Checking {
    /// A check of this kind, with nothing fed yet.
    pub fn new(kind: CheckKind) -> Checking
        ensures kind { kind_of result ≡ kind }
        ensures stands { StandsFor result [] }
    {
        match kind {
            CheckKind::None => Checking::None,
            CheckKind::Crc16 => Checking::Crc16(Crc::new()),
            CheckKind::Crc32c => Checking::Crc32c(Crc::new()),
        }
    }

    /// The check over the bytes fed.
    pub fn finish(self) -> CheckBytes
        ensures { (fed : List ℕ) → StandsFor self fed
            → bytes_of result ≡ check_bytes (kind_of self) fed }
    {
        match self {
            Checking::None => CheckBytes::NoBytes,
            Checking::Crc16(crc) => {
                let check = crc.finish() as u16;
                CheckBytes::Two(check.to_be_bytes())
            }
            Checking::Crc32c(crc) => CheckBytes::Four(crc.finish().to_be_bytes()),
        }
    }
}

impl Feed for Checking {
    ghost stands_for = { StandsFor };

    ghost fixed = { λ c. check_type (kind_of c) ∷ [] };

    ghost MOST = { 2 ^ 64 - 1 };

    const MOST: u64 = u64::MAX;

    fn feed(&mut self, piece: &[u8]) {
        match self {
            Checking::None => {}
            Checking::Crc16(crc) => crc.feed(piece),
            Checking::Crc32c(crc) => crc.feed(piece),
        }
    }

    ghost enough = { Prim.search rules };
}
