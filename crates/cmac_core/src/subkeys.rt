//! The subkeys (RFC 4493, section 2.3).

ghost use Rattle.std.specs.Prelude.{◌≡◌};
ghost use Rattle.aes_core.specs.Cipher.{cipher};
ghost use Rattle.cmac_core.specs.Field.{times_x};
ghost use Rattle.cmac_core.specs.Cmac.{first_subkey, second_subkey};

use aes_core::Aes;

/// The terms of the modulus below x^128: x^7 + x^2 + x + 1.
const LOW_TERMS: u128 = 0x87;

/// The product of a block and x. It takes one way for all blocks, since they are secret.
fn times_x(block: [u8; 16]) -> [u8; 16]
    ensures { result ≡ times_x block }
{
    let number = u128::from_be_bytes(block);
    let doubled = (number << 1) ^ ((number >> 127) * LOW_TERMS);
    doubled.to_be_bytes()
}

/// The subkey of a whole last block.
pub(crate) fn first_subkey<const NK: usize>(aes: &Aes<NK>) -> [u8; 16]
    ensures { result ≡ first_subkey (cipher NK aes.now) }
{
    let mut block = [0; 16];
    aes.encrypt(&mut block);
    times_x(block)
}

/// The subkey of a completed last block.
pub(crate) fn second_subkey<const NK: usize>(aes: &Aes<NK>) -> [u8; 16]
    ensures { result ≡ second_subkey (cipher NK aes.now) }
{
    times_x(first_subkey(aes))
}
