//! Laws over the definitions of this crate. Each is the contract of a function that does nothing but name the laws that it
//! follows from.

ghost use Rattle.std.specs.Prelude.{◌≡◌, ◌<◌, ◌^◌, ◌++◌, ◌∷◌, ◌↔◌, ℕ, [], Bool, true, false, pos, Some, None, Ok, List, Option, Result, All, length, slice_index};
ghost use Rattle.cbor_profile.specs.Put.{uint, byte_string};
ghost use Rattle.bpsec_asb.specs.declared.asb.Pair.{Pair};
ghost use Rattle.bpsec_scope.specs.Covered.{scoped};
ghost use Rattle.bpsec_scope.specs.Parts.{Parts};
ghost use Rattle.bpsec_context.specs.declared.judgement.Judgement.TheVariants.{Right};
ghost use Rattle.bpsec_context.specs.declared.judgement.MissetReason.{MissetReason};
ghost use Rattle.bpsec_context.specs.declared.service.ServiceOf.TheVariants.{Integrity, Confidentiality};
ghost use Rattle.bpsec_context.specs.Calls.{Protected};
ghost use Rattle.bpsec_context.specs.Values.{number_of, content_of};
ghost use Rattle.bpsec_context.specs.Pairs.{value_or};
ghost use Rattle.bpsec_context.specs.Reasons.{Table, first};
ghost use Rattle.bpsec_context.specs.Integrity as integrity;
ghost use Rattle.bpsec_context.specs.Confidentiality as confidentiality;

use crate::pair_suite::DefaultSuite;
use crate::suite::Suite;

/// A value is read as a number exactly where it is the spelling of that number.
pub fn numbers_are_read_as_spelled()
    ensures again { (n : ℕ) → n < 2 ^ 64 → number_of (uint n) ≡ Some n }
    ensures means { (value : List ℕ) (n : ℕ) → ((i : ℕ) → slice_index value i < 256)
        → number_of value ≡ Some n
        → value ≡ uint n }
{
    cbor_profile::laws::heads_are_read_as_spelled();
}

/// A value is read as a byte string exactly where it is the spelling of one with that content.
pub fn byte_strings_are_read_as_spelled()
    ensures again { (content : List ℕ) → length content < 2 ^ 64
        → content_of (byte_string content) ≡ Some content }
    ensures means { (value content : List ℕ) → ((i : ℕ) → slice_index value i < 256)
        → content_of value ≡ Some content
        → value ≡ byte_string content }
{
    cbor_profile::laws::heads_are_read_as_spelled();
}

/// The first reason of a table holds, and none before it does. There is none where no reason holds.
pub fn the_first_reason_that_holds()
    ensures some { (before after : Table) (holds : Bool) (reason : MissetReason)
        → All (λ line. line.0 ≡ false) before → holds ≡ true
        → first (before ++ (holds, reason) ∷ after) ≡ Some reason }
    ensures none { (table : Table) → (first table ≡ None) ↔ All (λ line. line.0 ≡ false) table }
{}

/// An integrity operation of context 1 that is judged Right has the result that signing gives.
pub fn right_is_what_signing_gives()
    ensures { (key : List ℕ) (parameters results : List Pair) (parts : Parts)
        → integrity.judged (Some key) parameters results parts ≡ Right
        → integrity.signed key parameters parts
        ≡ Ok (value_or [] (integrity.result_given parameters results)) }
{}

/// A confidentiality operation of context 2 that is judged Right has the ciphertext and the tag that sealing the opened body
/// gives.
pub fn right_is_what_sealing_gives()
    ensures { (key : List ℕ) (parameters results : List Pair) (parts : Parts) (body : List ℕ)
        → confidentiality.checked (Some key) parameters results parts body ≡ Right
        → confidentiality.sealed key parameters parts
        (confidentiality.opened (Some key) parameters results parts body)
        ≡ Ok (record {
          ciphertext = confidentiality.ciphertext_in (confidentiality.result_given results) body;
          tag = confidentiality.tag_in (confidentiality.result_given results) body;
        }) }
{}

/// A code has the length of its variant. A ciphertext is as long as the body, and its tag has 16 bytes.
pub fn codes_ciphertexts_and_tags_have_their_lengths()
    ensures signed { (key : List ℕ) (parameters : List Pair) (parts : Parts) (tag : List ℕ)
        → integrity.signed key parameters parts ≡ Ok tag → length tag
        ≡ integrity.size_of (integrity.variant_of parameters) }
    ensures sealed { (key : List ℕ) (parameters : List Pair) (parts : Parts) (body : List ℕ)
        (made : Protected)
        → confidentiality.sealed key parameters parts body ≡ Ok made
        → (length made.ciphertext ≡ length body) × (length made.tag ≡ 16) }
{}

/// Of all that an operation may cover, the contexts see the covered record alone.
pub fn contexts_see_the_covered_record_alone()
    ensures judged { (key : Option (List ℕ)) (parameters results : List Pair) (a b : Parts)
        → scoped a (integrity.flags_of parameters) ≡ scoped b (integrity.flags_of parameters)
        → integrity.judged key parameters results a ≡ integrity.judged key parameters results b }
    ensures signed { (key : List ℕ) (parameters : List Pair) (a b : Parts)
        → scoped a (integrity.flags_of parameters) ≡ scoped b (integrity.flags_of parameters)
        → integrity.signed key parameters a ≡ integrity.signed key parameters b }
    ensures checked { (key : Option (List ℕ)) (parameters results : List Pair) (a b : Parts)
        (body : List ℕ)
        → scoped a (confidentiality.flags_of parameters)
        ≡ scoped b (confidentiality.flags_of parameters)
        → confidentiality.checked key parameters results a body
        ≡ confidentiality.checked key parameters results b body }
    ensures opened { (key : Option (List ℕ)) (parameters results : List Pair) (a b : Parts)
        (body : List ℕ)
        → scoped a (confidentiality.flags_of parameters)
        ≡ scoped b (confidentiality.flags_of parameters)
        → confidentiality.opened key parameters results a body
        ≡ confidentiality.opened key parameters results b body }
    ensures sealed { (key : List ℕ) (parameters : List Pair) (a b : Parts) (body : List ℕ)
        → scoped a (confidentiality.flags_of parameters)
        ≡ scoped b (confidentiality.flags_of parameters)
        → confidentiality.sealed key parameters a body
        ≡ confidentiality.sealed key parameters b body }
{}

/// The default suite serves context 1 for integrity and context 2 for confidentiality, by the definitions of RFC 9173.
#[tactic(auto, unfolding(crate::specs::Services::pair_service))]
pub fn the_default_suite_is_rfc_9173()
    ensures integrity { ⟦<DefaultSuite as Suite>⟧.service (pos 1) ≡ Integrity }
    ensures judged { ⟦<DefaultSuite as Suite>⟧.judged (pos 1) ≡ integrity.judged }
    ensures signed { ⟦<DefaultSuite as Suite>⟧.signed (pos 1) ≡ integrity.signed }
    ensures integrity_scope { ⟦<DefaultSuite as Suite>⟧.scope (pos 1) ≡ integrity.scope_of }

    ensures confidentiality { ⟦<DefaultSuite as Suite>⟧.service (pos 2) ≡ Confidentiality }
    ensures checked { ⟦<DefaultSuite as Suite>⟧.checked (pos 2) ≡ confidentiality.checked }
    ensures opened { ⟦<DefaultSuite as Suite>⟧.opened (pos 2) ≡ confidentiality.opened }
    ensures sealed { ⟦<DefaultSuite as Suite>⟧.sealed (pos 2) ≡ confidentiality.sealed }
    ensures confidentiality_scope { ⟦<DefaultSuite as Suite>⟧.scope (pos 2)
        ≡ confidentiality.scope_of }
    ensures joined { ⟦<DefaultSuite as Suite>⟧.joined (pos 2) ≡ true }
{}
