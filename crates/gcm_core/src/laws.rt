//! Laws of the definitions, over every block cipher `e`: the code below does nothing, and its contracts are the laws.

ghost use Rattle.std.specs.Prelude.{◌≡◌, ◌/◌, ◌<◌, ◌↔◌, ℕ, Bool, List, All, length};
ghost use Rattle.gcm_core.specs.Polynomial.{remainder, IsRemainder};
ghost use Rattle.gcm_core.specs.Block.{polynomial_of, block_of};
ghost use Rattle.gcm_core.specs.Hash.{ghash, power_sum};
ghost use Rattle.gcm_core.specs.Gcm.{GivesBlocks, Seals, ciphered, tag_of};

/// Enciphering twice under one initialisation vector gives the body back.
#[tactic(auto, using(crate::proofs::LawLemmas::ciphered_twice))]
pub fn enciphering_undoes_itself()
    ensures { (e : List ℕ → List ℕ) → (iv body : List ℕ)
        → ciphered e iv (ciphered e iv body) ≡ body }
{}

/// Where the tag is right, the opened body is the one body whose sealing gives this ciphertext and this tag.
pub fn opened_body_is_the_sealed_one()
    ensures { (e : List ℕ → List ℕ) → (iv aad ciphertext tag body : List ℕ)
        → tag ≡ tag_of e iv aad ciphertext
        → ((body ≡ ciphered e iv ciphertext) ↔ Seals e iv aad body ciphertext tag) }
{}

/// Of what sealing made, the tag is right, and the opened body is the sealed one.
pub fn opening_undoes_sealing()
    ensures { (e : List ℕ → List ℕ) → (iv aad body ciphertext tag : List ℕ)
        → Seals e iv aad body ciphertext tag
        → (tag ≡ tag_of e iv aad ciphertext) × (ciphered e iv ciphertext ≡ body) }
{}

/// Enciphering keeps the number of bytes, and gives bytes.
pub fn ciphertext_is_as_long_as_the_body()
    ensures length { (e : List ℕ → List ℕ) → (iv body : List ℕ)
        → length (ciphered e iv body) ≡ length body }
    ensures bytes { (e : List ℕ → List ℕ) → (iv body : List ℕ) → GivesBlocks e
        → All (λ byte. byte < 256) body
        → All (λ byte. byte < 256) (ciphered e iv body) }
{}

/// A tag is 16 bytes.
pub fn tag_has_sixteen_bytes()
    ensures length { (e : List ℕ → List ℕ) → ((block : List ℕ) → length (e block) ≡ 16)
        → (iv aad ciphertext : List ℕ)
        → length (tag_of e iv aad ciphertext) ≡ 16 }
    ensures bytes { (e : List ℕ → List ℕ) → (iv aad ciphertext : List ℕ) → GivesBlocks e
        → All (λ byte. byte < 256) (tag_of e iv aad ciphertext) }
{}

/// The remainder modulo x^d + `low` is the one list of d coefficients that differs from the polynomial by a multiple of
/// the modulus.
pub fn remainder_differs_by_a_multiple()
    ensures { (low p r : List Bool) → (r ≡ remainder low p) ↔ IsRemainder low p r }
{}

/// The polynomial of a block has the block's bits: the block is read off it.
#[tactic(auto, using(crate::proofs::BlockLemmas::block_of_polynomial))]
pub fn polynomial_has_the_bits()
    ensures { (block : List ℕ) → All (λ byte. byte < 256) block
        → block_of (polynomial_of block) ≡ block }
{}

/// GHASH of m blocks is X1 h^m + X2 h^(m-1) + .. + Xm h, under the subkey h (SP 800-38D, section 6.4).
#[tactic(auto, using(crate::proofs::PowerLemmas::ghash_is_power_sum))]
pub fn hash_is_a_polynomial_in_the_subkey()
    ensures { (h : List Bool) → (bytes : List ℕ)
        → ghash h bytes ≡ power_sum h bytes (length bytes / 16) (length bytes / 16) }
{}
