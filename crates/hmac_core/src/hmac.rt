//! Keyed hashing.

ghost use Rattle.std.specs.Prelude.{◌≡◌, ◌+◌, ◌^◌, ◌≤◌, ◌++◌, ℕ, [], List, length, take, map, bit_xor};
ghost use Rattle.std.proofs.Common.{rules};
ghost use Rattle.cbor_profile.specs.Feeds.{Feeds};
ghost use Rattle.hmac_core.specs.Hmac.{block_key, padded, inner_pad, code_under};

use crate::front::put_front;
use crate::hash::Hash;
use cbor_profile::Feed;

/// The bytes that the key is xored with (RFC 2104, section 2).
const INNER_PAD: u8 = 0x36;

const OUTER_PAD: u8 = 0x5c;

/// HMAC under a key, as it takes a message (RFC 2104). It stands for the message; fixed is the key as one block of the hash.
#[derive(Drop)]
pub struct Hmac<H> {
    inner: H,
    block: [u8; 128],
}

/// Xors each byte with the pad.
fn xor_each(bytes: &mut [u8], pad: u8)
    ensures { bytes.new ≡ padded pad bytes.old }
{
    for byte in bytes.iter_mut() {
        *byte ^= pad;
    }
}

/// Feeds the block of the key, each byte xored with the pad.
fn feed_padded<H: Hash>(hash: &mut H, block: &[u8; 128], pad: u8)
    ensures { Feeds H.stands_for H.MOST hash.old hash.new (padded pad (take H.BLOCK block.now)) }
{
    let mut bytes = *block;
    xor_each(&mut bytes, pad);
    hash.feed(&bytes[..H::BLOCK]);
}

/// The key as one block of the hash, and zero bytes after it.
fn block_of<H: Hash>(key: &[u8]) -> [u8; 128]
    requires { length key.now ≤ 2 ^ 32 }
    ensures { take H.BLOCK result ≡ block_key H.digest H.BLOCK key.now }
{
    let mut block = [0; 128];
    if key.len() > H::BLOCK {
        let mut hash = H::start();
        hash.feed(key);
        let mut digest = [0; 64];
        let len = hash.finish(&mut digest);
        put_front(&mut block, &digest[..len]);
    } else {
        put_front(&mut block, key);
    }
    block
}

impl<H: Hash> Hmac<H> {
    /// Under this key of at most 2^32 bytes, with nothing fed yet. Takes no memory.
    pub fn start(key: &[u8]) -> Hmac<H>
        requires { length key.now ≤ 2 ^ 32 }
        ensures empty { ⟦<Hmac<H> as Feed>⟧.stands_for result [] }
        ensures key { ⟦<Hmac<H> as Feed>⟧.fixed result ≡ block_key H.digest H.BLOCK key.now }
    {
        let block = block_of::<H>(key);
        let mut inner = H::start();
        feed_padded(&mut inner, &block, INNER_PAD);
        Hmac { inner, block }
    }

    /// Writes the authentication code at the front of `out`, and returns its length. Takes no memory.
    pub fn finish(self, out: &mut [u8; 64]) -> usize
        ensures len { result ≡ H.DIGEST }
        ensures code { (message : List ℕ) → ⟦<Hmac<H> as Feed>⟧.stands_for self message
            → take H.DIGEST out.new ≡ code_under H.digest (⟦<Hmac<H> as Feed>⟧.fixed self) message }
    {
        let Hmac { inner, block } = self;
        let mut digest = [0; 64];
        let len = inner.finish(&mut digest);
        let mut outer = H::start();
        feed_padded(&mut outer, &block, OUTER_PAD);
        outer.feed(&digest[..len]);
        outer.finish(out)
    }
}

impl<H: Hash> Feed for Hmac<H> {
    ghost stands_for = { λ h m. H.stands_for h.inner (padded inner_pad (take H.BLOCK h.block) ++ m) };

    ghost fixed = { λ h. take H.BLOCK h.block };

    ghost MOST = { 2 ^ 59 };

    const MOST: u64 = 1 << 59;

    fn feed(&mut self, piece: &[u8]) {
        self.inner.feed(piece);
    }

    ghost enough = { Prim.search rules };
}
