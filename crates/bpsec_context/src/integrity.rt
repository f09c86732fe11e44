//! Contexts for integrity.

ghost use Rattle.std.specs.Prelude.{◌≡◌, ◌≤◌, ◌<◌, ◌^◌, ◌⊎◌, ℕ, ℤ, Some, Ok, Err, List, Option, Result, length, IsFalse};
ghost use Rattle.std.specs.Option.{option_copied};
ghost use Rattle.bpsec_asb.specs.declared.asb.Pair.{Pair};
ghost use Rattle.bpsec_scope.specs.Target.{target_of, is_sealed, body_of};
ghost use Rattle.bpsec_scope.specs.Parts.{Parts};
ghost use Rattle.bpsec_scope.specs.View.{parts_of};
ghost use Rattle.bpsec_context.specs.declared.judgement.Judgement.{Judgement};
ghost use Rattle.bpsec_context.specs.declared.judgement.Judgement.TheVariants.{Right, Misset};
ghost use Rattle.bpsec_context.specs.declared.judgement.MissetReason.{MissetReason};
ghost use Rattle.bpsec_context.specs.declared.judgement.MissetReason.TheVariants.{BadParameter, BadResult};
ghost use Rattle.bpsec_context.specs.Calls.{IsShort, only_tag, Signs, IsContextReason};

use crate::judgement::{Judgement, MissetReason};
use bpsec_asb::Pair;
use bpsec_scope::Covered;

/// A security context for integrity (RFC 9172, section 3.7). Its meaning is functions of plain data, with the laws below.
///
/// The covered target isn't sealed. Keys and bodies have at most 2^32 bytes. No call takes memory.
pub trait IntegrityContext {
    /// The judgement of an operation: of a key or none, parameters, results, and what may be covered.
    ghost judged: { Option (List ℕ) → List Pair → List Pair → Parts → Judgement };

    /// What signing gives, of a key, parameters, and what may be covered: the tag, or the first reason against it.
    ghost signed: { List ℕ → List Pair → Parts → Result (List ℕ) MissetReason };

    /// The scope flags of parameters, modulo 8.
    ghost scope: { List Pair → ℕ };

    /// The id of the context.
    ghost ID: { ℤ };

    /// The id of the context.
    const ID: i64;

    /// Judges an operation.
    fn judge(
        &self,
        key: Option<&[u8]>,
        parameters: &[Pair],
        results: &[Pair],
        covered: &Covered,
    ) -> Judgement
        requires unsealed { IsFalse (is_sealed (target_of covered.now.target)) }
        requires key { IsShort (option_copied key) }
        requires body { length (body_of (target_of covered.now.target)) ≤ 2 ^ 32 }
        ensures { result ≡ judged (option_copied key.entry) parameters.now results.now
            (parts_of covered.now) };

    /// Makes the tag of an operation at the front of `tag`, and returns its length, at most 64; or answers the first of the
    /// reasons BadParameter, KeyLength and UnwrapRefused that holds.
    fn sign(
        &self,
        key: &[u8],
        parameters: &[Pair],
        covered: &Covered,
        tag: &mut [u8; 64],
    ) -> Result<usize, MissetReason>
        requires unsealed { IsFalse (is_sealed (target_of covered.now.target)) }
        requires key { length key.now ≤ 2 ^ 32 }
        requires body { length (body_of (target_of covered.now.target)) ≤ 2 ^ 32 }
        ensures { Signs result tag.new (signed key.now parameters.now (parts_of covered.now)) };

    /// The scope flags of the parameters modulo 8, where they are well formed, else 0.
    fn scope_of(&self, parameters: &[Pair]) -> u64
        ensures { result ≡ scope parameters.now };

    /// What was signed is judged Right.
    ghost signed_is_right: { (key : List ℕ) (parameters : List Pair) (parts : Parts) (tag : List ℕ)
        → signed key parameters parts ≡ Ok tag → judged (Some key) parameters (only_tag tag) parts ≡ Right };

    /// A tag has at most 64 bytes.
    ghost tags_are_short: { (key : List ℕ) (parameters : List Pair) (parts : Parts) (tag : List ℕ)
        → signed key parameters parts ≡ Ok tag → length tag ≤ 64 };

    /// What stands in the way of signing stands in the way of judging, where the results aren't bad.
    ghost refused_is_misset: { (key : List ℕ) (parameters results : List Pair) (parts : Parts) (reason : MissetReason)
        → signed key parameters parts ≡ Err reason
        → (judged (Some key) parameters results parts ≡ Misset reason)
        ⊎ (judged (Some key) parameters results parts ≡ Misset BadResult) };

    /// What stands in the way of judging with a key stands in the way of signing, but for bad results.
    ghost misset_is_refused: { (key : List ℕ) (parameters results : List Pair) (parts : Parts) (reason : MissetReason)
        → judged (Some key) parameters results parts ≡ Misset reason
        → (reason ≡ BadResult) ⊎ (signed key parameters parts ≡ Err reason) };

    /// Bad parameters come before all else, and have no scope.
    ghost bad_parameters_come_first: { (key : List ℕ) (parameters : List Pair) (parts : Parts)
        → signed key parameters parts ≡ Err BadParameter
        → ((other : Option (List ℕ)) (results : List Pair) → judged other parameters results parts
        ≡ Misset BadParameter) × (scope parameters ≡ 0) };

    /// The reasons of a context are BadParameter, BadResult, NoKey, KeyLength and UnwrapRefused.
    ghost reasons: { (key : Option (List ℕ)) (parameters results : List Pair) (parts : Parts) (reason : MissetReason)
        → judged key parameters results parts ≡ Misset reason → IsContextReason reason };

    /// A scope is below 8.
    ghost scopes_are_small: { (parameters : List Pair) → scope parameters < 8 };
}
