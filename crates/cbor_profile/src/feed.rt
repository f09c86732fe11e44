//! What takes bytes piece by piece, and stands for all of them together.

ghost use Rattle.std.specs.Prelude.{◌≡◌, ◌+◌, ◌-◌, ◌≤◌, ◌^◌, ◌++◌, ℕ, [], List, length, IfOk, IsErr, IsTrue, IsFalse, ◌↔◌};
ghost use Rattle.cbor_profile.specs.Gathered.{Gathered, Gathers};
ghost use Rattle.std.proofs.Common.{rules};

use crate::bytes::Bytes;
use crate::memory::NoMemory;
use std::alloc::Global;
use std::marker::Model;

/// What takes bytes piece by piece, however they are cut: a check value, a hash, an authentication code.
///
/// It keeps no bytes, so what it stands for is a relation. `fixed` is what feeding leaves alone, as the key of an
/// authentication code.
pub trait Feed {
    /// The value stands for these bytes.
    ghost stands_for: { Self → List ℕ → Type 0 };

    /// What stays as it is while bytes are fed.
    ghost fixed: { Self → List ℕ };

    /// The most bytes that a value can stand for.
    ghost MOST: { ℕ };

    /// The most bytes that a value can stand for.
    const MOST: u64;

    /// Takes one more piece.
    fn feed(&mut self, piece: &[u8])
        ensures stands { (fed : List ℕ) → stands_for self.old fed
            → length fed + length piece.now ≤ MOST
            → stands_for self.new (fed ++ piece.now) }
        ensures fixed { fixed self.new ≡ fixed self.old };

    /// At least 2^59 bytes.
    ghost enough: { 2 ^ 59 ≤ MOST };
}

/// A feed that keeps the bytes. One that found no memory for a piece has lost it, and says so at the end.
#[derive(Debug, Drop)]
pub struct Gather {
    kept: Bytes,
    lost: bool,
}

impl Model for Gather {
    ghost Value = { Gathered };

    ghost view = { λ g. record { bytes = g.kept; lost = g.lost } };
}

impl Gather {
    /// Nothing fed yet. Takes no memory.
    pub fn new(alloc: Global) -> Gather
        ensures empty { Gathers result [] }
        ensures nothing_lost { IsFalse result.lost }
    {
        Gather {
            kept: Bytes::new(alloc),
            lost: false,
        }
    }

    /// The bytes fed, or want of memory where a feed found none for its piece.
    pub fn finish(self) -> Result<Bytes, NoMemory>
        ensures ok { IfOk result (λ bytes. (fed : List ℕ) → Gathers self fed → bytes ≡ fed) }
        ensures lost { IsErr result ↔ IsTrue self.lost }
    {
        if self.lost {
            return Err(NoMemory(()));
        }
        Ok(self.kept)
    }
}

impl Feed for Gather {
    ghost stands_for = { Gathers };

    ghost fixed = { λ _. [] };

    ghost MOST = { 2 ^ 64 - 1 };

    const MOST: u64 = u64::MAX;

    fn feed(&mut self, piece: &[u8])
        ensures stands { (fed : List ℕ) → Gathers self.old fed
            → length fed + length piece.now ≤ 2 ^ 64 - 1
            → Gathers self.new (fed ++ piece.now) }
        ensures empty { piece.now ≡ [] → self.new ≡ self.old }
    {
        if !piece.is_empty() && self.kept.extend(piece).is_err() {
            self.lost = true;
        }
    }

    ghost enough = { Prim.search rules };
}
