//! Laws over the definitions of this crate. Each is the contract of a function that does nothing.

ghost use Rattle.std.specs.Prelude.{◌≡◌, ◌≢◌, ℕ, ℤ, [], negsuc, Some, Ok, List, Option, length};
ghost use Rattle.bpsec_asb.specs.declared.asb.Pair.{Pair};
ghost use Rattle.bpsec_scope.specs.Covered.{scoped};
ghost use Rattle.bpsec_scope.specs.Parts.{Parts};
ghost use Rattle.bpsec_context.specs.declared.judgement.Judgement.TheVariants.{Right, Misset};
ghost use Rattle.bpsec_context.specs.declared.judgement.MissetReason.TheVariants.{OtherService, UnwrapRefused};
ghost use Rattle.bpsec_context.specs.declared.service.ServiceOf.TheVariants.{Integrity};
ghost use Rattle.bpsec_context.specs.Pairs.{value_or};
ghost use Rattle.bpsec_cmac.specs.Integrity.{judged, signed, scope_of, flags_of, result_given};

use crate::also_suite::CmacSuite;
use bpsec_context::{DefaultSuite, Suite};

/// An operation that is judged Right has the result that signing gives.
pub fn right_is_what_signing_gives()
    ensures { (key : List ℕ) (parameters results : List Pair) (parts : Parts)
        → judged (Some key) parameters results parts ≡ Right
        → signed key parameters parts ≡ Ok (value_or [] (result_given results)) }
{}

/// A tag has 16 bytes.
pub fn tags_have_sixteen_bytes()
    ensures { (key : List ℕ) (parameters : List Pair) (parts : Parts) (tag : List ℕ)
        → signed key parameters parts ≡ Ok tag → length tag ≡ 16 }
{}

/// No key is unwrapped, so the reason UnwrapRefused never comes.
pub fn no_key_is_unwrapped()
    ensures { (key : Option (List ℕ)) (parameters results : List Pair) (parts : Parts)
        → judged key parameters results parts ≢ Misset UnwrapRefused }
{}

/// Of all that an operation may cover, the context sees the covered record alone.
pub fn the_context_sees_the_covered_record_alone()
    ensures judged { (key : Option (List ℕ)) (parameters results : List Pair) (a b : Parts)
        → scoped a (flags_of parameters) ≡ scoped b (flags_of parameters)
        → judged key parameters results a ≡ judged key parameters results b }
    ensures signed { (key : List ℕ) (parameters : List Pair) (a b : Parts)
        → scoped a (flags_of parameters) ≡ scoped b (flags_of parameters)
        → signed key parameters a ≡ signed key parameters b }
{}

/// The suite with this context serves it for integrity.
#[tactic(auto, unfolding(crate::specs::Also::is_further))]
pub fn the_suite_serves_the_context()
    ensures service { ⟦<CmacSuite as Suite>⟧.service (negsuc 0) ≡ Integrity }
    ensures judged { ⟦<CmacSuite as Suite>⟧.judged (negsuc 0) ≡ judged }
    ensures signed { ⟦<CmacSuite as Suite>⟧.signed (negsuc 0) ≡ signed }
    ensures scope { ⟦<CmacSuite as Suite>⟧.scope (negsuc 0) ≡ scope_of }
    ensures checked { (key : Option (List ℕ)) (parameters results : List Pair) (parts : Parts)
        → (body : List ℕ)
        → ⟦<CmacSuite as Suite>⟧.checked (negsuc 0) key parameters results parts body
        ≡ Misset OtherService }
{}

/// It serves every other context as the default suite does.
pub fn the_suite_serves_the_others_as_before()
    ensures service { (context : ℤ) → context ≢ negsuc 0
        → ⟦<CmacSuite as Suite>⟧.service context ≡ ⟦<DefaultSuite as Suite>⟧.service context }
    ensures joined { (context : ℤ) → context ≢ negsuc 0
        → ⟦<CmacSuite as Suite>⟧.joined context ≡ ⟦<DefaultSuite as Suite>⟧.joined context }
    ensures scope { (context : ℤ) (parameters : List Pair) → context ≢ negsuc 0
        → ⟦<CmacSuite as Suite>⟧.scope context parameters
        ≡ ⟦<DefaultSuite as Suite>⟧.scope context parameters }
    ensures judged { (context : ℤ) (key : Option (List ℕ)) (parameters results : List Pair)
        → (parts : Parts) → context ≢ negsuc 0
        → ⟦<CmacSuite as Suite>⟧.judged context key parameters results parts
        ≡ ⟦<DefaultSuite as Suite>⟧.judged context key parameters results parts }
    ensures signed { (context : ℤ) (key : List ℕ) (parameters : List Pair) (parts : Parts)
        → context ≢ negsuc 0
        → ⟦<CmacSuite as Suite>⟧.signed context key parameters parts
        ≡ ⟦<DefaultSuite as Suite>⟧.signed context key parameters parts }
    ensures checked { (context : ℤ) (key : Option (List ℕ)) (parameters results : List Pair)
        → (parts : Parts) (body : List ℕ) → context ≢ negsuc 0
        → ⟦<CmacSuite as Suite>⟧.checked context key parameters results parts body
        ≡ ⟦<DefaultSuite as Suite>⟧.checked context key parameters results parts body }
    ensures opened { (context : ℤ) (key : Option (List ℕ)) (parameters results : List Pair)
        → (parts : Parts) (body : List ℕ) → context ≢ negsuc 0
        → ⟦<CmacSuite as Suite>⟧.opened context key parameters results parts body
        ≡ ⟦<DefaultSuite as Suite>⟧.opened context key parameters results parts body }
    ensures sealed { (context : ℤ) (key : List ℕ) (parameters : List Pair) (parts : Parts)
        → (body : List ℕ) → context ≢ negsuc 0
        → ⟦<CmacSuite as Suite>⟧.sealed context key parameters parts body
        ≡ ⟦<DefaultSuite as Suite>⟧.sealed context key parameters parts body }
{}
