//! Contexts for confidentiality.

ghost use Rattle.std.specs.Prelude.{◌≡◌, ◌≤◌, ◌<◌, ◌^◌, ◌⊎◌, ◌++◌, ℕ, ℤ, Bool, true, Some, Ok, Err, List, Option, Result, length, IsTrue};
ghost use Rattle.std.specs.Option.{option_copied};
ghost use Rattle.bpsec_asb.specs.declared.asb.Pair.{Pair};
ghost use Rattle.bpsec_scope.specs.Target.{target_of, is_sealed};
ghost use Rattle.bpsec_scope.specs.Parts.{Parts};
ghost use Rattle.bpsec_scope.specs.View.{parts_of};
ghost use Rattle.bpsec_context.specs.declared.judgement.Judgement.{Judgement};
ghost use Rattle.bpsec_context.specs.declared.judgement.Judgement.TheVariants.{Right, Misset};
ghost use Rattle.bpsec_context.specs.declared.judgement.MissetReason.{MissetReason};
ghost use Rattle.bpsec_context.specs.declared.judgement.MissetReason.TheVariants.{BadParameter, BadResult};
ghost use Rattle.bpsec_context.specs.Calls.{IsShort, Protected, only_tag, NoTag, Seals, IsContextReason};

use crate::judgement::{Judgement, MissetReason};
use bpsec_asb::Pair;
use bpsec_scope::Covered;
use cbor_profile::Bytes;

/// A security context for confidentiality (RFC 9172, section 3.8). Its meaning is functions of plain data, with the laws below.
///
/// The covered target is sealed. Keys and bodies have at most 2^32 bytes. No call takes memory.
pub trait CipherContext {
    /// The judgement of an operation: of a key or none, parameters, results, what may be covered, and the body.
    ghost checked: { Option (List ℕ) → List Pair → List Pair → Parts → List ℕ → Judgement };

    /// The body of an operation that is judged Right, opened.
    ghost opened: { Option (List ℕ) → List Pair → List Pair → Parts → List ℕ → List ℕ };

    /// What sealing gives, of a key, parameters, what may be covered, and a body: ciphertext and tag, or the first reason
    /// against it.
    ghost sealed: { List ℕ → List Pair → Parts → List ℕ → Result Protected MissetReason };

    /// The scope flags of parameters, modulo 8.
    ghost scope: { List Pair → ℕ };

    /// The id of the context.
    ghost ID: { ℤ };

    /// The id of the context.
    const ID: i64;

    /// Whether the tag may stand in the body, behind the ciphertext.
    ghost JOINS: { Bool };

    /// Whether the tag may stand in the body, behind the ciphertext.
    const JOINS: bool;

    /// Judges an operation, and opens nothing.
    fn check(
        &self,
        key: Option<&[u8]>,
        parameters: &[Pair],
        results: &[Pair],
        covered: &Covered,
        body: &[u8],
    ) -> Judgement
        requires sealed { IsTrue (is_sealed (target_of covered.now.target)) }
        requires key { IsShort (option_copied key) }
        requires body { length body.now ≤ 2 ^ 32 }
        ensures { result ≡ checked (option_copied key.entry) parameters.now results.now
            (parts_of covered.now) body.now };

    /// Judges an operation, and opens the body where it is Right. Else the body stays.
    fn unseal(
        &self,
        key: Option<&[u8]>,
        parameters: &[Pair],
        results: &[Pair],
        covered: &Covered,
        body: &mut Bytes,
    ) -> Judgement
        requires sealed { IsTrue (is_sealed (target_of covered.now.target)) }
        requires key { IsShort (option_copied key) }
        requires body { length body.old ≤ 2 ^ 32 }
        ensures judged { result
            ≡ checked (option_copied key.entry) parameters.now results.now (parts_of covered.now)
            body.old }
        ensures body { body.new
            ≡ opened (option_copied key.entry) parameters.now results.now (parts_of covered.now)
            body.old };

    /// Seals the body in place, makes its tag at the front of `tag`, and returns the tag's length, at most 64; or answers the
    /// first of the reasons BadParameter, KeyLength and UnwrapRefused that holds, and the body stays.
    fn seal(
        &self,
        key: &[u8],
        parameters: &[Pair],
        covered: &Covered,
        body: &mut Bytes,
        tag: &mut [u8; 64],
    ) -> Result<usize, MissetReason>
        requires sealed { IsTrue (is_sealed (target_of covered.now.target)) }
        requires key { length key.now ≤ 2 ^ 32 }
        requires body { length body.old ≤ 2 ^ 32 }
        ensures { Seals result body.old body.new tag.new
            (sealed key.now parameters.now (parts_of covered.now) body.old) };

    /// The scope flags of the parameters modulo 8, where they are well formed, else 0.
    fn scope_of(&self, parameters: &[Pair]) -> u64
        ensures { result ≡ scope parameters.now };

    /// What was sealed is judged Right, and opened gives the old body.
    ghost sealed_is_right: { (key : List ℕ) (parameters : List Pair) (parts : Parts) (body : List ℕ) (made : Protected)
        → sealed key parameters parts body ≡ Ok made
        → (checked (Some key) parameters (only_tag made.tag) parts made.ciphertext ≡ Right)
        × (opened (Some key) parameters (only_tag made.tag) parts made.ciphertext ≡ body) };

    /// Where it joins, the same holds without a result of id 1, of the ciphertext followed by the tag.
    ghost joined_is_right: { (key : List ℕ) (parameters results : List Pair) (parts : Parts) (body : List ℕ) (made : Protected)
        → JOINS ≡ true → sealed key parameters parts body ≡ Ok made → NoTag results
        → (checked (Some key) parameters results parts (made.ciphertext ++ made.tag) ≡ Right)
        × (opened (Some key) parameters results parts (made.ciphertext ++ made.tag) ≡ body) };

    /// A tag has at most 64 bytes.
    ghost tags_are_short: { (key : List ℕ) (parameters : List Pair) (parts : Parts) (body : List ℕ) (made : Protected)
        → sealed key parameters parts body ≡ Ok made → length made.tag ≤ 64 };

    /// A body changes only where the judgement is Right.
    ghost stays: { (key : Option (List ℕ)) (parameters results : List Pair) (parts : Parts) (body : List ℕ)
        → (checked key parameters results parts body ≡ Right → ⊥) → opened key parameters results parts body ≡ body };

    /// An opened body is never longer.
    ghost never_longer: { (key : Option (List ℕ)) (parameters results : List Pair) (parts : Parts) (body : List ℕ)
        → length (opened key parameters results parts body) ≤ length body };

    /// What stands in the way of sealing stands in the way of judging, where the results aren't bad.
    ghost refused_is_misset: { (key : List ℕ) (parameters results : List Pair) (parts : Parts) (plain body : List ℕ) (reason : MissetReason)
        → sealed key parameters parts plain ≡ Err reason
        → (checked (Some key) parameters results parts body ≡ Misset reason)
        ⊎ (checked (Some key) parameters results parts body ≡ Misset BadResult) };

    /// What stands in the way of judging with a key stands in the way of sealing, but for bad results.
    ghost misset_is_refused: { (key : List ℕ) (parameters results : List Pair) (parts : Parts) (plain body : List ℕ) (reason : MissetReason)
        → checked (Some key) parameters results parts body ≡ Misset reason
        → (reason ≡ BadResult) ⊎ (sealed key parameters parts plain ≡ Err reason) };

    /// Bad parameters come before all else, and have no scope.
    ghost bad_parameters_come_first: { (key : List ℕ) (parameters : List Pair) (parts : Parts) (plain : List ℕ)
        → sealed key parameters parts plain ≡ Err BadParameter
        → ((other : Option (List ℕ)) (results : List Pair) (body : List ℕ)
        → checked other parameters results parts body ≡ Misset BadParameter)
        × (scope parameters ≡ 0) };

    /// The reasons of a context are BadParameter, BadResult, NoKey, KeyLength and UnwrapRefused.
    ghost reasons: { (key : Option (List ℕ)) (parameters results : List Pair) (parts : Parts) (body : List ℕ) (reason : MissetReason)
        → checked key parameters results parts body ≡ Misset reason → IsContextReason reason };

    /// A scope is below 8.
    ghost scopes_are_small: { (parameters : List Pair) → scope parameters < 8 };
}
