//! The parts of an authentication tag (NIST SP 800-38D, section 7).

ghost use Rattle.std.specs.Prelude.{◌≡◌, ◌++◌};
ghost use Rattle.aes_core.specs.Cipher.{cipher};
ghost use Rattle.gcm_core.specs.Gcm.{first_block, hash_subkey, length_in_bits};

use crate::hash::absorb;
use crate::subkey::Subkey;
use aes_core::Aes;

/// Two lengths in bytes, as the block of the lengths in bits.
pub(crate) fn lengths(left: u64, right: u64) -> [u8; 16]
    ensures { result ≡ length_in_bits left ++ length_in_bits right }
{
    let mut block = [0; 16];
    block[..8].copy_from_slice(&left.wrapping_mul(8).to_be_bytes());
    block[8..].copy_from_slice(&right.wrapping_mul(8).to_be_bytes());
    block
}

/// The block before the first counter.
pub(crate) fn first_block<const NK: usize>(aes: &Aes<NK>, subkey: &Subkey, iv: &[u8]) -> [u8; 16]
    requires { subkey.now ≡ hash_subkey (cipher NK aes.now) }
    ensures { result ≡ first_block (cipher NK aes.now) iv.now }
{
    if iv.len() == 12 {
        let mut block = [0; 16];
        block[..12].copy_from_slice(iv);
        block[15] = 1;
        return block;
    }
    let hash = absorb(subkey, 0, iv);
    absorb(subkey, hash, &lengths(0, iv.len() as u64)).to_be_bytes()
}
