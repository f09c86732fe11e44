//! Laws over the definitions of this crate. Each is the contract of a function that does nothing.

ghost use Rattle.std.specs.Prelude.{◌≡◌, ◌≤◌, ◌++◌, ℕ, List};
ghost use Rattle.cbor_profile.specs.Put.{array_head};
ghost use Rattle.bp_primary.specs.Spelling.{IsPrimary, spelling};
ghost use Rattle.bp_primary.specs.declared.primary.Primary.{Primary};

/// A spelling determines its block, and no spelling is a proper prefix of another.
pub fn primary_blocks_have_one_spelling()
    ensures { (a b : Primary) (x y : List ℕ) → IsPrimary a → IsPrimary b
        → spelling a ++ x ≡ spelling b ++ y → (a ≡ b) × (x ≡ y) }
{
    cbor_profile::laws::heads_have_one_spelling();
    bp_eid::laws::ids_have_one_spelling();
}

/// A spelling begins with the head of an array of 8 to 11 items.
pub fn primary_blocks_are_arrays()
    ensures { (primary : Primary) → (count : ℕ) × (rest : List ℕ) × (8 ≤ count) × (count ≤ 11)
        × (spelling primary ≡ array_head count ++ rest) }
{}
