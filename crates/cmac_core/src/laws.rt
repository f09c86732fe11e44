//! Laws of the definitions, over every block cipher `e`: the code below does nothing, and its contracts are the laws.

ghost use Rattle.std.specs.Prelude.{◌≡◌, ◌<◌, ◌≤◌, ◌↔◌, ℕ, [], Bool, List, All, length};
ghost use Rattle.cmac_core.specs.Field.{product_by_x, IsProductByX};
ghost use Rattle.cmac_core.specs.Cmac.{cmac, count_of_blocks, block_at};

/// The product by x is the one polynomial of 128 coefficients from which x p differs by a multiple of the modulus.
pub fn product_by_x_differs_by_a_multiple()
    ensures { (p r : List Bool) → length p ≡ 128
        → ((r ≡ product_by_x p) ↔ IsProductByX p r) }
{}

/// Every message has a last block, and the empty message has no other.
pub fn every_message_has_a_last_block()
    ensures one { (message : List ℕ) → 1 ≤ count_of_blocks message }
    ensures empty { count_of_blocks [] ≡ 1 }
{}

/// A tag is 16 bytes.
pub fn tag_has_sixteen_bytes()
    ensures length { (e : List ℕ → List ℕ) → ((block : List ℕ) → length (e block) ≡ 16)
        → (message : List ℕ) → length (cmac e message) ≡ 16 }
    ensures bytes { (e : List ℕ → List ℕ)
        → ((block : List ℕ) → All (λ byte. byte < 256) (e block))
        → (message : List ℕ) → All (λ byte. byte < 256) (cmac e message) }
{}
