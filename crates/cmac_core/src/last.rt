//! The last block (RFC 4493, section 2.4, step 4).

ghost use Rattle.std.specs.Prelude.{◌≡◌, ◌≤◌, length};
ghost use Rattle.aes_core.specs.Cipher.{cipher};
ghost use Rattle.cmac_core.specs.Cmac.{last_block};

use crate::subkeys::{first_subkey, second_subkey};
use aes_core::Aes;
use gf2_polynomial::add_bytes;

/// The last block of a message, of at most 16 bytes: completed if it is short, and added to its subkey.
pub(crate) fn last_block<const NK: usize>(aes: &Aes<NK>, bytes: &[u8]) -> [u8; 16]
    requires { length bytes.now ≤ 16 }
    ensures { result ≡ last_block (cipher NK aes.now) bytes.now }
{
    let used = bytes.len();
    let mut block = [0; 16];
    block[..used].copy_from_slice(bytes);
    if used == 16 {
        add_bytes(&mut block, &first_subkey(aes));
        return block;
    }
    block[used] = 0x80;
    add_bytes(&mut block, &second_subkey(aes));
    block
}
