//! The hash function GHASH (NIST SP 800-38D, section 6.4) on blocks kept as numbers of 128 bits.

ghost use Rattle.std.specs.Prelude.{◌≡◌, ◌-◌, ◌≤◌, ◌++◌, ℕ, List, length, replicate};
ghost use Rattle.gcm_core.specs.Block.{bits, polynomial_of};
ghost use Rattle.gcm_core.specs.Hash.{Hashes, filled};

use crate::streams::absorb_groups;
use crate::subkey::Subkey;

/// At most 16 bytes as a block, filled with zero bytes.
pub(crate) fn filled_block(bytes: &[u8]) -> u128
    requires { length bytes.now ≤ 16 }
    ensures { bits 128 result ≡ polynomial_of (bytes.now ++ replicate (16 - length bytes.now) 0) }
{
    let mut block = [0; 16];
    block[..bytes.len()].copy_from_slice(bytes);
    u128::from_be_bytes(block)
}

/// From this length on bytes go in sixteen streams: below it the tables take longer than they save.
const LONG: usize = 1024;

/// The hash after these bytes too, filled to whole blocks.
pub(crate) fn absorb(subkey: &Subkey, hash: u128, bytes: &[u8]) -> u128
    ensures { (before : List ℕ) → Hashes subkey.now before hash
        → Hashes subkey.now (before ++ filled bytes.now) result }
{
    if bytes.len() < LONG {
        return absorb_blocks(subkey, hash, bytes);
    }
    let whole = bytes.len() / 256 * 256;
    let hash = absorb_groups(subkey, hash, &bytes[..whole]);
    absorb_blocks(subkey, hash, &bytes[whole..])
}

/// The same, block by block.
pub(crate) fn absorb_blocks(subkey: &Subkey, hash: u128, bytes: &[u8]) -> u128
    ensures { (before : List ℕ) → Hashes subkey.now before hash
        → Hashes subkey.now (before ++ filled bytes.now) result }
{
    let mut absorbed = hash;
    for block in 0..bytes.len().div_ceil(16) {
        let start = 16 * block;
        let end = bytes.len().min(start + 16);
        absorbed = subkey.product(absorbed ^ filled_block(&bytes[start..end]));
    }
    absorbed
}
