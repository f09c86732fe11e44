//! Suites of contexts.

ghost use Rattle.std.specs.Prelude.{◌≡◌, ◌≤◌, ◌<◌, ◌^◌, ◌⊎◌, ◌++◌, ℕ, ℤ, Bool, true, false, Some, Ok, Err, List, Option, Result, length, IsTrue, IsFalse};
ghost use Rattle.std.specs.Option.{option_copied};
ghost use Rattle.bpsec_asb.specs.declared.asb.Pair.{Pair};
ghost use Rattle.bpsec_scope.specs.Target.{target_of, is_sealed, body_of};
ghost use Rattle.bpsec_scope.specs.Parts.{Parts};
ghost use Rattle.bpsec_scope.specs.View.{parts_of};
ghost use Rattle.bpsec_context.specs.declared.judgement.Judgement.{Judgement};
ghost use Rattle.bpsec_context.specs.declared.judgement.Judgement.TheVariants.{Right, Misset};
ghost use Rattle.bpsec_context.specs.declared.judgement.MissetReason.{MissetReason};
ghost use Rattle.bpsec_context.specs.declared.judgement.MissetReason.TheVariants.{UnknownContext, OtherService, BadParameter, BadResult};
ghost use Rattle.bpsec_context.specs.declared.service.ServiceOf.{ServiceOf};
ghost use Rattle.bpsec_context.specs.declared.service.ServiceOf.TheVariants.{Integrity, Confidentiality, Unknown};
ghost use Rattle.bpsec_context.specs.Calls.{IsShort, Protected, only_tag, NoTag, Signs, Seals, IsSuiteReason};

use crate::judgement::{Judgement, MissetReason};
use crate::service::ServiceOf;
use bpsec_asb::Pair;
use bpsec_scope::Covered;
use cbor_profile::Bytes;

/// The security contexts that a node serves, by their ids. Its meaning is functions of plain data, with the laws below.
///
/// The covered target is sealed in `check`, `unseal` and `seal`, and isn't in `judge` and `sign`. Keys and bodies have at most
/// 2^32 bytes. No call takes memory.
pub trait Suite {
    /// Which service the context of an id has.
    ghost service: { ℤ → ServiceOf };

    /// Whether the tag of a context may stand in the body, behind the ciphertext.
    ghost joined: { ℤ → Bool };

    /// The scope flags of a context's parameters, modulo 8.
    ghost scope: { ℤ → List Pair → ℕ };

    /// The judgement of an integrity operation: of a context, a key or none, parameters, results, and what may be covered.
    ghost judged: { ℤ → Option (List ℕ) → List Pair → List Pair → Parts → Judgement };

    /// What signing gives: the tag, or the first reason against it.
    ghost signed: { ℤ → List ℕ → List Pair → Parts → Result (List ℕ) MissetReason };

    /// The judgement of a confidentiality operation: of these and the body.
    ghost checked: { ℤ → Option (List ℕ) → List Pair → List Pair → Parts → List ℕ → Judgement };

    /// The body of an operation that is judged Right, opened.
    ghost opened: { ℤ → Option (List ℕ) → List Pair → List Pair → Parts → List ℕ → List ℕ };

    /// What sealing gives: ciphertext and tag, or the first reason against it.
    ghost sealed: { ℤ → List ℕ → List Pair → Parts → List ℕ → Result Protected MissetReason };

    /// Which service the context of this id has.
    fn service_of(&self, context: i64) -> ServiceOf
        ensures { result ≡ service context };

    /// Whether the tag may stand in the body.
    fn joins(&self, context: i64) -> bool
        ensures { result ≡ joined context };

    /// The scope flags of the parameters modulo 8, where the context is served and they are well formed, else 0.
    fn scope_of(&self, context: i64, parameters: &[Pair]) -> u64
        ensures { result ≡ scope context parameters.now };

    /// Judges an integrity operation.
    fn judge(
        &self,
        context: i64,
        key: Option<&[u8]>,
        parameters: &[Pair],
        results: &[Pair],
        covered: &Covered,
    ) -> Judgement
        requires unsealed { IsFalse (is_sealed (target_of covered.now.target)) }
        requires key { IsShort (option_copied key) }
        requires body { length (body_of (target_of covered.now.target)) ≤ 2 ^ 32 }
        ensures { result ≡ judged context (option_copied key.entry) parameters.now results.now
            (parts_of covered.now) };

    /// Makes the tag of an integrity operation at the front of `tag`, and returns its length, at most 64; or answers the first
    /// of the reasons UnknownContext, OtherService, BadParameter, KeyLength and UnwrapRefused that holds.
    fn sign(
        &self,
        context: i64,
        key: &[u8],
        parameters: &[Pair],
        covered: &Covered,
        tag: &mut [u8; 64],
    ) -> Result<usize, MissetReason>
        requires unsealed { IsFalse (is_sealed (target_of covered.now.target)) }
        requires key { length key.now ≤ 2 ^ 32 }
        requires body { length (body_of (target_of covered.now.target)) ≤ 2 ^ 32 }
        ensures { Signs result tag.new
            (signed context key.now parameters.now (parts_of covered.now)) };

    /// Judges a confidentiality operation, and opens nothing.
    fn check(
        &self,
        context: i64,
        key: Option<&[u8]>,
        parameters: &[Pair],
        results: &[Pair],
        covered: &Covered,
        body: &[u8],
    ) -> Judgement
        requires sealed { IsTrue (is_sealed (target_of covered.now.target)) }
        requires key { IsShort (option_copied key) }
        requires body { length body.now ≤ 2 ^ 32 }
        ensures { result ≡ checked context (option_copied key.entry) parameters.now results.now
            (parts_of covered.now) body.now };

    /// Judges a confidentiality operation, and opens the body where it is Right. Else the body stays.
    fn unseal(
        &self,
        context: i64,
        key: Option<&[u8]>,
        parameters: &[Pair],
        results: &[Pair],
        covered: &Covered,
        body: &mut Bytes,
    ) -> Judgement
        requires sealed { IsTrue (is_sealed (target_of covered.now.target)) }
        requires key { IsShort (option_copied key) }
        requires body { length body.old ≤ 2 ^ 32 }
        ensures judged { result
            ≡ checked context (option_copied key.entry) parameters.now results.now
            (parts_of covered.now) body.old }
        ensures body { body.new
            ≡ opened context (option_copied key.entry) parameters.now results.now
            (parts_of covered.now) body.old };

    /// Seals the body in place, makes its tag at the front of `tag`, and returns the tag's length, at most 64; or answers the
    /// first of the reasons UnknownContext, OtherService, BadParameter, KeyLength and UnwrapRefused that holds, and the body
    /// stays.
    fn seal(
        &self,
        context: i64,
        key: &[u8],
        parameters: &[Pair],
        covered: &Covered,
        body: &mut Bytes,
        tag: &mut [u8; 64],
    ) -> Result<usize, MissetReason>
        requires sealed { IsTrue (is_sealed (target_of covered.now.target)) }
        requires key { length key.now ≤ 2 ^ 32 }
        requires body { length body.old ≤ 2 ^ 32 }
        ensures { Seals result body.old body.new tag.new
            (sealed context key.now parameters.now (parts_of covered.now) body.old) };

    /// What was signed is judged Right.
    ghost signed_is_right: { (context : ℤ) (key : List ℕ) (parameters : List Pair) (parts : Parts) (tag : List ℕ)
        → signed context key parameters parts ≡ Ok tag → judged context (Some key) parameters (only_tag tag) parts
        ≡ Right };

    /// What was sealed is judged Right, and opened gives the old body.
    ghost sealed_is_right: { (context : ℤ) (key : List ℕ) (parameters : List Pair) (parts : Parts) (body : List ℕ) (made : Protected)
        → sealed context key parameters parts body ≡ Ok made
        → (checked context (Some key) parameters (only_tag made.tag) parts made.ciphertext ≡ Right)
        × (opened context (Some key) parameters (only_tag made.tag) parts made.ciphertext ≡ body) };

    /// Where it joins, the same holds without a result of id 1, of the ciphertext followed by the tag.
    ghost joined_is_right: { (context : ℤ) (key : List ℕ) (parameters results : List Pair) (parts : Parts) (body : List ℕ) (made : Protected)
        → joined context ≡ true → sealed context key parameters parts body ≡ Ok made → NoTag results
        → (checked context (Some key) parameters results parts (made.ciphertext ++ made.tag) ≡ Right)
        × (opened context (Some key) parameters results parts (made.ciphertext ++ made.tag) ≡ body) };

    /// A tag that was signed has at most 64 bytes.
    ghost signed_tags_are_short: { (context : ℤ) (key : List ℕ) (parameters : List Pair) (parts : Parts) (tag : List ℕ)
        → signed context key parameters parts ≡ Ok tag → length tag ≤ 64 };

    /// A tag that was sealed has at most 64 bytes.
    ghost sealed_tags_are_short: { (context : ℤ) (key : List ℕ) (parameters : List Pair) (parts : Parts) (body : List ℕ) (made : Protected)
        → sealed context key parameters parts body ≡ Ok made → length made.tag ≤ 64 };

    /// A body changes only where the judgement is Right.
    ghost stays: { (context : ℤ) (key : Option (List ℕ)) (parameters results : List Pair) (parts : Parts) (body : List ℕ)
        → (checked context key parameters results parts body ≡ Right → ⊥)
        → opened context key parameters results parts body ≡ body };

    /// An opened body is never longer.
    ghost never_longer: { (context : ℤ) (key : Option (List ℕ)) (parameters results : List Pair) (parts : Parts) (body : List ℕ)
        → length (opened context key parameters results parts body) ≤ length body };

    /// A context that isn't served gives the reason UnknownContext, and has no scope.
    ghost unknown: { (context : ℤ) → service context ≡ Unknown
        → ((key : Option (List ℕ)) (parameters results : List Pair) (parts : Parts)
        → judged context key parameters results parts ≡ Misset UnknownContext)
        × ((key : List ℕ) (parameters : List Pair) (parts : Parts)
        → signed context key parameters parts ≡ Err UnknownContext)
        × ((key : Option (List ℕ)) (parameters results : List Pair) (parts : Parts) (body : List ℕ)
        → checked context key parameters results parts body ≡ Misset UnknownContext)
        × ((key : List ℕ) (parameters : List Pair) (parts : Parts) (body : List ℕ)
        → sealed context key parameters parts body ≡ Err UnknownContext)
        × ((parameters : List Pair) → scope context parameters ≡ 0) };

    /// A context for confidentiality gives integrity the reason OtherService.
    ghost not_for_integrity: { (context : ℤ) → service context ≡ Confidentiality
        → ((key : Option (List ℕ)) (parameters results : List Pair) (parts : Parts)
        → judged context key parameters results parts ≡ Misset OtherService)
        × ((key : List ℕ) (parameters : List Pair) (parts : Parts)
        → signed context key parameters parts ≡ Err OtherService) };

    /// A context for integrity gives confidentiality the reason OtherService.
    ghost not_for_confidentiality: { (context : ℤ) → service context ≡ Integrity
        → ((key : Option (List ℕ)) (parameters results : List Pair) (parts : Parts) (body : List ℕ)
        → checked context key parameters results parts body ≡ Misset OtherService)
        × ((key : List ℕ) (parameters : List Pair) (parts : Parts) (body : List ℕ)
        → sealed context key parameters parts body ≡ Err OtherService) };

    /// Only a context for confidentiality joins.
    ghost joins_for_confidentiality: { (context : ℤ) → joined context ≡ true → service context ≡ Confidentiality };

    /// What stands in the way of signing stands in the way of judging, where the results aren't bad.
    ghost unsigned_is_misset: { (context : ℤ) (key : List ℕ) (parameters results : List Pair) (parts : Parts) (reason : MissetReason)
        → signed context key parameters parts ≡ Err reason
        → (judged context (Some key) parameters results parts ≡ Misset reason)
        ⊎ (judged context (Some key) parameters results parts ≡ Misset BadResult) };

    /// What stands in the way of judging with a key stands in the way of signing, but for bad results.
    ghost misset_is_unsigned: { (context : ℤ) (key : List ℕ) (parameters results : List Pair) (parts : Parts) (reason : MissetReason)
        → judged context (Some key) parameters results parts ≡ Misset reason
        → (reason ≡ BadResult) ⊎ (signed context key parameters parts ≡ Err reason) };

    /// What stands in the way of sealing stands in the way of judging, where the results aren't bad.
    ghost unsealed_is_misset: { (context : ℤ) (key : List ℕ) (parameters results : List Pair) (parts : Parts) (plain body : List ℕ) (reason : MissetReason)
        → sealed context key parameters parts plain ≡ Err reason
        → (checked context (Some key) parameters results parts body ≡ Misset reason)
        ⊎ (checked context (Some key) parameters results parts body ≡ Misset BadResult) };

    /// What stands in the way of judging with a key stands in the way of sealing, but for bad results.
    ghost misset_is_unsealed: { (context : ℤ) (key : List ℕ) (parameters results : List Pair) (parts : Parts) (plain body : List ℕ) (reason : MissetReason)
        → checked context (Some key) parameters results parts body ≡ Misset reason
        → (reason ≡ BadResult) ⊎ (sealed context key parameters parts plain ≡ Err reason) };

    /// Bad parameters of an integrity operation come before its results and its key, and have no scope.
    ghost bad_signing_parameters: { (context : ℤ) (key : List ℕ) (parameters : List Pair) (parts : Parts)
        → signed context key parameters parts ≡ Err BadParameter
        → ((other : Option (List ℕ)) (results : List Pair) → judged context other parameters results parts
        ≡ Misset BadParameter)
        × (scope context parameters ≡ 0) };

    /// Bad parameters of a confidentiality operation come before its results and its key, and have no scope.
    ghost bad_sealing_parameters: { (context : ℤ) (key : List ℕ) (parameters : List Pair) (parts : Parts) (plain : List ℕ)
        → sealed context key parameters parts plain ≡ Err BadParameter
        → ((other : Option (List ℕ)) (results : List Pair) (body : List ℕ)
        → checked context other parameters results parts body ≡ Misset BadParameter)
        × (scope context parameters ≡ 0) };

    /// The reasons of a suite are UnknownContext and OtherService, and those of a context.
    ghost judging_reasons: { (context : ℤ) (key : Option (List ℕ)) (parameters results : List Pair) (parts : Parts) (reason : MissetReason)
        → judged context key parameters results parts ≡ Misset reason → IsSuiteReason reason };

    /// The same of a confidentiality operation.
    ghost checking_reasons: { (context : ℤ) (key : Option (List ℕ)) (parameters results : List Pair) (parts : Parts) (body : List ℕ) (reason : MissetReason)
        → checked context key parameters results parts body ≡ Misset reason → IsSuiteReason reason };

    /// A scope is below 8.
    ghost scopes_are_small: { (context : ℤ) (parameters : List Pair) → scope context parameters < 8 };
}
