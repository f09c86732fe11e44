//! Laws over the definitions of this crate. Each is the contract of a function that does nothing but name the laws that it
//! follows from.

ghost use Rattle.std.specs.Prelude.{◌≡◌, ℕ, IsTrue, IsFalse};
ghost use Rattle.bpsec_scope.specs.Target.{is_sealed};
ghost use Rattle.bpsec_scope.specs.Parts.{Parts, IsParts};
ghost use Rattle.bpsec_scope.specs.Covered.{scoped, ippt, aad};

/// Coverage: equal bytes under integrity mean equal covered records in every field (scope flags, primary block, header of the
/// target, header of the security block, content), for any two bundles, operations and scopes.
pub fn equal_ippt_means_equal_records()
    ensures { (a b : Parts) (s t : ℕ) → IsParts a → IsParts b → IsFalse (is_sealed a.target) → IsFalse (is_sealed b.target)
        → ippt (scoped a s) ≡ ippt (scoped b t) → scoped a s ≡ scoped b t }
{
    cbor_profile::laws::heads_have_one_spelling();
    bp_primary::laws::primary_blocks_have_one_spelling();
    bp_primary::laws::primary_blocks_are_arrays();
}

/// The same of the bytes that a confidentiality operation covers beside the ciphertext.
pub fn equal_aad_means_equal_records()
    ensures { (a b : Parts) (s t : ℕ) → IsParts a → IsParts b → IsTrue (is_sealed a.target) → IsTrue (is_sealed b.target)
        → aad (scoped a s) ≡ aad (scoped b t) → scoped a s ≡ scoped b t }
{
    cbor_profile::laws::heads_have_one_spelling();
    bp_primary::laws::primary_blocks_have_one_spelling();
    bp_primary::laws::primary_blocks_are_arrays();
}
