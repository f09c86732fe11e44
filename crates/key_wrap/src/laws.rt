//! Laws of the key wrap.

ghost use Rattle.std.specs.Prelude.{◌≡◌, ◌+◌, ◌<◌, ℕ, List, All, length};
ghost use Rattle.aes_core.specs.KeyExpansion.{IsKey};
ghost use Rattle.key_wrap.specs.KeyWrap.{IsWrappable, registers, initial_value, wrap, unwrap};

use aes_core::laws::{blocks_have_sixteen_bytes, decryption_undoes_encryption};

/// Unwrapping a wrapped key gives the key and the default initial value, for every key-encryption key.
pub fn unwrapping_undoes_wrapping()
    ensures { (nk : ℕ) (kek key : List ℕ) → IsKey nk kek → IsWrappable key
        → unwrap nk kek (wrap nk kek key) ≡ registers initial_value key }
{
    decryption_undoes_encryption();
    blocks_have_sixteen_bytes();
}

/// A wrapped key has 8 bytes more than the key.
pub fn wrapped_keys_have_eight_bytes_more()
    ensures longer { (nk : ℕ) (kek key : List ℕ) → IsKey nk kek → IsWrappable key
        → length (wrap nk kek key) ≡ length key + 8 }
    ensures bytes { (nk : ℕ) (kek key : List ℕ) → IsKey nk kek → IsWrappable key
        → All (λ b. b < 256) (wrap nk kek key) }
{
    decryption_undoes_encryption();
    blocks_have_sixteen_bytes();
}
