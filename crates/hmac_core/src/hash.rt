//! Hash functions.

ghost use Rattle.std.specs.Prelude.{◌≡◌, ◌^◌, ◌≤◌, ℕ, [], List, length, take};

use cbor_profile::Feed;

/// A hash function, as it takes a message. It stands for the bytes fed, and at the end gives their digest.
pub trait Hash: Feed {
    /// The digest of a message.
    ghost digest: { List ℕ → List ℕ };

    /// How many bytes a digest has.
    ghost DIGEST: { ℕ };

    /// How many bytes a digest has.
    const DIGEST: usize;

    /// How many bytes a block of the function has.
    ghost BLOCK: { ℕ };

    /// How many bytes a block of the function has.
    const BLOCK: usize;

    /// Nothing fed yet. Takes no memory.
    fn start() -> Self
        ensures { Self.stands_for result [] };

    /// Writes the digest at the front of `out`, and returns its length. Takes no memory.
    fn finish(self, out: &mut [u8; 64]) -> usize
        ensures len { result ≡ DIGEST }
        ensures digest { (message : List ℕ) → Self.stands_for self message
            → take DIGEST out.new ≡ digest message };

    /// A digest has that length.
    ghost has_length: { (message : List ℕ) → length (digest message) ≡ DIGEST };

    /// At most 64 bytes are a digest.
    ghost short: { DIGEST ≤ 64 };

    /// A digest is no longer than a block.
    ghost within: { DIGEST ≤ BLOCK };

    /// At most 128 bytes are a block.
    ghost small: { BLOCK ≤ 128 };

    /// At least 2^60 bytes may be fed.
    ghost many: { 2 ^ 60 ≤ Self.MOST };
}
