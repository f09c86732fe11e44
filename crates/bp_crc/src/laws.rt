//! What the definitions amount to, apart from any loop.

ghost use Rattle.std.specs.Prelude.{◌≡◌, ◌<◌, ◌≤◌, ◌^◌, ℕ, Bool, not, codes, List, [], ◌∷◌, map, length};
ghost use Rattle.bp_crc.specs.Check.{IsWidth, check, dividend, generator, number_of};
ghost use Rattle.bp_crc.specs.Polynomial.{remainder};
ghost use Rattle.bp_crc.specs.Division.{IsDivision};
ghost use Rattle.bp_crc.specs.Item.{check_type};
ghost use Rattle.bp_crc.specs.declared.kind.CheckKind.{CheckKind};

/// Long division by a divisor whose leading coefficient is one, and whose others are `low`: the remainder has fewer
/// coefficients than the divisor, and the dividend is a product of the divisor plus it. No other list is so.
pub fn division_is_exact()
    ensures exact { (low dividend : List Bool) → length low ≤ length dividend
        → IsDivision low dividend (remainder low dividend) }
    ensures only { (low dividend r : List Bool) → IsDivision low dividend r
        → r ≡ remainder low dividend }
{}

/// The check value is the complement of the remainder, by whatever division it is found.
pub fn check_is_the_complement()
    ensures { (w : ℕ) (bytes : List ℕ) (r : List Bool)
        → IsDivision (generator w) (dividend w bytes) r
        → check w bytes ≡ number_of (map not r) }
{}

/// A check value has no more bits than its width.
pub fn check_is_within()
    ensures { (w : ℕ) (bytes : List ℕ) → IsWidth w → check w bytes < 2 ^ w }
{}

/// The definition gives the published check values over the ASCII digits 1 to 9.
pub fn check_of_the_digits()
    ensures crc_16 { check 16 (codes "123456789") ≡ 0x906e }
    ensures crc_32c { check 32 (codes "123456789") ≡ 0xe3069283 }
{}

/// What stays fixed of a check while it is fed names its kind.
pub fn what_is_fixed_names_the_kind()
    ensures { (a b : CheckKind) → check_type a ∷ [] ≡ check_type b ∷ [] → a ≡ b }
{}
