//! Laws of the cipher.

ghost use Rattle.std.specs.Prelude.{◌≡◌, ◌<◌, ℕ, List, All, length};
ghost use Rattle.aes_core.specs.Field.{product, inverse};
ghost use Rattle.aes_core.specs.KeyExpansion.{IsKey};
ghost use Rattle.aes_core.specs.Cipher.{cipher, inverse_cipher};

/// The 254th power of a byte is its multiplicative inverse, and that of 0 is 0 (FIPS 197, section 4.4).
#[tactic(auto, using(crate::proofs::InverseLemmas::product_of_inverse, crate::proofs::InverseLemmas::inverse_of_zero))]
pub fn inverse_is_multiplicative()
    ensures one { (a : ℕ) → 0 < a → a < 256 → product a (inverse a) ≡ 1 }
    ensures zero { inverse 0 ≡ 0 }
{}

/// Decryption undoes encryption, for every key and block.
pub fn decryption_undoes_encryption()
    ensures { (nk : ℕ) (key block : List ℕ) → IsKey nk key → length block ≡ 16
        → All (λ b. b < 256) block → inverse_cipher nk key (cipher nk key block) ≡ block }
{}

/// A block of 16 bytes comes out, whatever goes in.
pub fn blocks_have_sixteen_bytes()
    ensures encrypted { (nk : ℕ) (key block : List ℕ) → length (cipher nk key block) ≡ 16 }
    ensures encrypted_bytes { (nk : ℕ) (key block : List ℕ) → IsKey nk key
        → All (λ b. b < 256) (cipher nk key block) }
    ensures decrypted { (nk : ℕ) (key block : List ℕ) → length (inverse_cipher nk key block) ≡ 16 }
    ensures decrypted_bytes { (nk : ℕ) (key block : List ℕ) → IsKey nk key
        → All (λ b. b < 256) (inverse_cipher nk key block) }
{}
