//! Laws of the definitions: the code below does nothing, and its contracts are the laws.

ghost use Rattle.std.specs.Prelude.{◌≡◌, ◌≤◌, ℕ, Bool, false, List, length, replicate};
ghost use Rattle.gf2_polynomial.specs.Polynomial.{coefficient, coefficient_sum, polynomial_sum, polynomial_product};
ghost use Rattle.gf2_polynomial.specs.Bytes.{bytes_sum};

/// A sum has at each place the sum of the coefficients.
pub fn sum_has_the_sums_of_the_coefficients()
    ensures { (p q : List Bool) (i : ℕ)
        → coefficient (polynomial_sum p q) i ≡ coefficient_sum (coefficient p i) (coefficient q i) }
{}

/// The order of what is added doesn't matter, and a polynomial added to itself is zero.
#[tactic(auto, using(crate::proofs::Sums::sum_comm, crate::proofs::Sums::sum_assoc, crate::proofs::Sums::sum_self))]
pub fn sums_are_in_any_order()
    ensures commute { (p q : List Bool) → polynomial_sum p q ≡ polynomial_sum q p }
    ensures associate { (p q r : List Bool)
        → polynomial_sum (polynomial_sum p q) r ≡ polynomial_sum p (polynomial_sum q r) }
    ensures itself { (p : List Bool) → polynomial_sum p p ≡ replicate (length p) false }
{}

/// A product is additive in both factors.
pub fn products_are_additive()
    ensures first { (p q m : List Bool) → polynomial_product (polynomial_sum p q) m
        ≡ polynomial_sum (polynomial_product p m) (polynomial_product q m) }
    ensures last { (m p q : List Bool) → polynomial_product m (polynomial_sum p q)
        ≡ polynomial_sum (polynomial_product m p) (polynomial_product m q) }
{}

/// Bytes added twice fall away.
#[tactic(auto, using(crate::proofs::ByteSums::bytes_sum_twice))]
pub fn bytes_added_twice_fall_away()
    ensures { (a b : List ℕ) → length a ≤ length b → bytes_sum (bytes_sum a b) b ≡ a }
{}
