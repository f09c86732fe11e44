//! Multiplication by a few constants in the field of 256 elements.

ghost use Rattle.std.specs.Prelude.{◌≡◌};
ghost use Rattle.aes_core.specs.Field.{times_x};

// The polynomial x times a byte. The modulus is taken away where the product has a term x^8.
pub(crate) fn times_x(a: u8) -> u8
    ensures { result ≡ times_x a }
{
    (a << 1) ^ ((a >> 7) * 0x1b)
}
