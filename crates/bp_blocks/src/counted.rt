//! How many bytes are fed.

ghost use Rattle.std.specs.Prelude.{◌≡◌, ◌-◌, ◌^◌, [], length};
ghost use Rattle.std.proofs.Common.{rules};

use cbor_profile::Feed;

/// Keeps the number of the bytes fed, and none of them.
#[derive(Debug, Drop)]
pub(crate) struct Counted {
    pub(crate) bytes: u64,
}

impl Feed for Counted {
    ghost stands_for = { λ c fed. c.bytes ≡ length fed };

    ghost fixed = { λ _. [] };

    ghost MOST = { 2 ^ 64 - 1 };

    const MOST: u64 = u64::MAX;

    fn feed(&mut self, piece: &[u8]) {
        self.bytes = self.bytes.saturating_add(piece.len() as u64);
    }

    ghost enough = { Prim.search rules };
}
