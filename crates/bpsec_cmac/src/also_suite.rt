//! A suite with one more context for integrity.

ghost use Rattle.std.specs.Prelude.{◌≡◌, ◌++◌, if◌then◌else◌, Some};
ghost use Rattle.bpsec_context.specs.declared.service.ServiceOf.TheVariants.{Confidentiality, Unknown};
ghost use Rattle.bpsec_context.specs.Calls.{only_tag};
ghost use Rattle.bpsec_cmac.specs.Also.{is_further};
ghost use Rattle.bpsec_cmac.specs.AlsoLaws as laws;

use crate::cmac_context::CmacContext;
use bpsec_asb::Pair;
use bpsec_context::{
    DefaultSuite, GcmContext, HmacContext, IntegrityContext, Judgement, MissetReason, PairSuite,
    ServiceOf, Suite,
};
use bpsec_scope::Covered;
use cbor_profile::Bytes;

/// The suite of one context for integrity and the contexts of another suite, which doesn't serve its id.
#[derive(Debug, Drop)]
pub struct AlsoSuite<I: IntegrityContext, S: Suite> {
    pub integrity: I,
    pub rest: S,
    pub ghost apart: { S.service I.ID ≡ Unknown },
}

/// The contexts of RFC 9173, and AES-CMAC.
pub type CmacSuite = AlsoSuite<CmacContext, DefaultSuite>;

/// The contexts of RFC 9173, and AES-CMAC.
#[tactic(auto, unfolding(bpsec_context::specs::Services::pair_service))]
pub fn cmac_suite() -> CmacSuite {
    AlsoSuite {
        integrity: CmacContext,
        rest: PairSuite {
            integrity: HmacContext,
            cipher: GcmContext,
        },
    }
}

/// Whether the context is the further one.
#[tactic(auto, unfolding(crate::specs::Also::is_further))]
fn is_further<I: IntegrityContext>(context: i64) -> bool
    ensures { result ≡ is_further I.ID context }
{
    context == I::ID
}

impl<I: IntegrityContext, S: Suite> Suite for AlsoSuite<I, S> {
    ghost service = { λ context. laws.service_with (is_further I.ID context) (S.service context) };

    ghost joined = { λ context. laws.joined_with (is_further I.ID context) (S.joined context) };

    ghost scope = { λ context parameters. if is_further I.ID context
        then I.scope parameters else S.scope context parameters };

    ghost judged = { λ context key parameters results parts. if is_further I.ID context
        then I.judged key parameters results parts
        else S.judged context key parameters results parts };

    ghost signed = { λ context key parameters parts. if is_further I.ID context
        then I.signed key parameters parts else S.signed context key parameters parts };

    ghost checked = { λ context key parameters results parts body.
        laws.checked_with (is_further I.ID context)
        (S.checked context key parameters results parts body) };

    ghost opened = { λ context key parameters results parts body.
        laws.opened_with (is_further I.ID context)
        (S.opened context key parameters results parts body) body };

    ghost sealed = { λ context key parameters parts body.
        laws.sealed_with (is_further I.ID context)
        (S.sealed context key parameters parts body) };

    fn service_of(&self, context: i64) -> ServiceOf {
        if is_further::<I>(context) {
            ServiceOf::Integrity
        } else {
            self.rest.service_of(context)
        }
    }

    fn joins(&self, context: i64) -> bool {
        if is_further::<I>(context) {
            false
        } else {
            self.rest.joins(context)
        }
    }

    fn scope_of(&self, context: i64, parameters: &[Pair]) -> u64 {
        if is_further::<I>(context) {
            self.integrity.scope_of(parameters)
        } else {
            self.rest.scope_of(context, parameters)
        }
    }

    fn judge(
        &self,
        context: i64,
        key: Option<&[u8]>,
        parameters: &[Pair],
        results: &[Pair],
        covered: &Covered,
    ) -> Judgement {
        if is_further::<I>(context) {
            self.integrity.judge(key, parameters, results, covered)
        } else {
            self.rest.judge(context, key, parameters, results, covered)
        }
    }

    fn sign(
        &self,
        context: i64,
        key: &[u8],
        parameters: &[Pair],
        covered: &Covered,
        tag: &mut [u8; 64],
    ) -> Result<usize, MissetReason> {
        if is_further::<I>(context) {
            self.integrity.sign(key, parameters, covered, tag)
        } else {
            self.rest.sign(context, key, parameters, covered, tag)
        }
    }

    fn check(
        &self,
        context: i64,
        key: Option<&[u8]>,
        parameters: &[Pair],
        results: &[Pair],
        covered: &Covered,
        body: &[u8],
    ) -> Judgement {
        if is_further::<I>(context) {
            Judgement::Misset(MissetReason::OtherService)
        } else {
            self.rest
                .check(context, key, parameters, results, covered, body)
        }
    }

    fn unseal(
        &self,
        context: i64,
        key: Option<&[u8]>,
        parameters: &[Pair],
        results: &[Pair],
        covered: &Covered,
        body: &mut Bytes,
    ) -> Judgement {
        if is_further::<I>(context) {
            Judgement::Misset(MissetReason::OtherService)
        } else {
            self.rest
                .unseal(context, key, parameters, results, covered, body)
        }
    }

    fn seal(
        &self,
        context: i64,
        key: &[u8],
        parameters: &[Pair],
        covered: &Covered,
        body: &mut Bytes,
        tag: &mut [u8; 64],
    ) -> Result<usize, MissetReason> {
        if is_further::<I>(context) {
            Err(MissetReason::OtherService)
        } else {
            self.rest.seal(context, key, parameters, covered, body, tag)
        }
    }

    ghost signed_is_right = { λ context key parameters parts tag e.
        laws.signed_is_right (is_further I.ID context)
        (I.signed key parameters parts) (S.signed context key parameters parts)
        (I.judged (Some key) parameters (only_tag tag) parts)
        (S.judged context (Some key) parameters (only_tag tag) parts) tag
        (I.signed_is_right key parameters parts tag)
        (S.signed_is_right context key parameters parts tag) e };

    ghost sealed_is_right = { λ context key parameters parts body made e.
        laws.sealed_is_right (is_further I.ID context)
        (S.sealed context key parameters parts body)
        (S.checked context (Some key) parameters (only_tag made.tag) parts made.ciphertext)
        (S.opened context (Some key) parameters (only_tag made.tag) parts made.ciphertext)
        made.ciphertext body made
        (S.sealed_is_right context key parameters parts body made) e };

    ghost joined_is_right = { λ context key parameters results parts body made joins e none.
        laws.joined_is_right (is_further I.ID context) (S.joined context)
        (S.sealed context key parameters parts body)
        (S.checked context (Some key) parameters results parts (made.ciphertext ++ made.tag))
        (S.opened context (Some key) parameters results parts (made.ciphertext ++ made.tag))
        (made.ciphertext ++ made.tag) body made
        (λ is sealed. S.joined_is_right context key parameters results parts body made is sealed
        none)
        joins e };

    ghost signed_tags_are_short = { λ context key parameters parts tag e.
        laws.signed_tags_are_short (is_further I.ID context)
        (I.signed key parameters parts) (S.signed context key parameters parts) tag
        (I.tags_are_short key parameters parts tag)
        (S.signed_tags_are_short context key parameters parts tag) e };

    ghost sealed_tags_are_short = { λ context key parameters parts body made e.
        laws.sealed_tags_are_short (is_further I.ID context)
        (S.sealed context key parameters parts body) made
        (S.sealed_tags_are_short context key parameters parts body made) e };

    ghost stays = { λ context key parameters results parts body not_right.
        laws.stays (is_further I.ID context)
        (S.checked context key parameters results parts body)
        (S.opened context key parameters results parts body) body
        (S.stays context key parameters results parts body) not_right };

    ghost never_longer = { λ context key parameters results parts body.
        laws.never_longer (is_further I.ID context)
        (S.opened context key parameters results parts body) body
        (S.never_longer context key parameters results parts body) };

    ghost unknown = { λ context is.
        let here = laws.of_the_rest (is_further I.ID context) (S.service context) Unknown
        laws.not_unknown is in
        let there = S.unknown context here.1 in (
          λ key parameters results parts. laws.rest_at (is_further I.ID context) _ _ _ here.0
              (there.0 key parameters results parts),
          λ key parameters parts. laws.rest_at (is_further I.ID context) _ _ _ here.0
              (there.1 key parameters parts),
          λ key parameters results parts body. laws.rest_at (is_further I.ID context) _ _ _ here.0
              (there.2 key parameters results parts body),
          λ key parameters parts body. laws.rest_at (is_further I.ID context) _ _ _ here.0
              (there.3 key parameters parts body),
          λ parameters. laws.rest_at (is_further I.ID context) _ _ _ here.0 (there.4 parameters),
        ) };

    ghost not_for_integrity = { λ context is.
        let here = laws.of_the_rest (is_further I.ID context) (S.service context) Confidentiality
        laws.not_confidentiality is in
        let there = S.not_for_integrity context here.1 in (
          λ key parameters results parts. laws.rest_at (is_further I.ID context) _ _ _ here.0
              (there.0 key parameters results parts),
          λ key parameters parts. laws.rest_at (is_further I.ID context) _ _ _ here.0
              (there.1 key parameters parts),
        ) };

    ghost not_for_confidentiality = { λ context is. (
      λ key parameters results parts body.
          laws.not_for_confidentiality (is_further I.ID context) (S.service context)
          (S.checked context key parameters results parts body)
          (λ e. (S.not_for_confidentiality context e).0 key parameters results parts body) is,
      λ key parameters parts body.
          laws.not_for_sealing (is_further I.ID context) (S.service context)
          (S.sealed context key parameters parts body)
          (λ e. (S.not_for_confidentiality context e).1 key parameters parts body) is,
    ) };

    ghost joins_for_confidentiality = { λ context joins.
        laws.joins_for_confidentiality (is_further I.ID context)
        (S.service context) (S.joined context) (S.joins_for_confidentiality context) joins };

    ghost unsigned_is_misset = { λ context key parameters results parts reason e.
        laws.unsigned_is_misset (is_further I.ID context)
        (I.signed key parameters parts) (S.signed context key parameters parts)
        (I.judged (Some key) parameters results parts)
        (S.judged context (Some key) parameters results parts) reason
        (I.refused_is_misset key parameters results parts reason)
        (S.unsigned_is_misset context key parameters results parts reason) e };

    ghost misset_is_unsigned = { λ context key parameters results parts reason e.
        laws.misset_is_unsigned (is_further I.ID context)
        (I.signed key parameters parts) (S.signed context key parameters parts)
        (I.judged (Some key) parameters results parts)
        (S.judged context (Some key) parameters results parts) reason
        (I.misset_is_refused key parameters results parts reason)
        (S.misset_is_unsigned context key parameters results parts reason) e };

    ghost unsealed_is_misset = { λ context key parameters results parts plain body reason e.
        laws.unsealed_is_misset (is_further I.ID context)
        (S.sealed context key parameters parts plain)
        (S.checked context (Some key) parameters results parts body) reason
        (S.unsealed_is_misset context key parameters results parts plain body reason) e };

    ghost misset_is_unsealed = { λ context key parameters results parts plain body reason e.
        laws.misset_is_unsealed (is_further I.ID context)
        (S.sealed context key parameters parts plain)
        (S.checked context (Some key) parameters results parts body) reason
        (S.misset_is_unsealed context key parameters results parts plain body reason) e };

    ghost bad_signing_parameters = { λ context key parameters parts e.
        laws.bad_signing_parameters (is_further I.ID context)
        (I.signed key parameters parts) (S.signed context key parameters parts)
        (λ other results. I.judged other parameters results parts)
        (λ other results. S.judged context other parameters results parts)
        (I.scope parameters) (S.scope context parameters)
        (I.bad_parameters_come_first key parameters parts)
        (S.bad_signing_parameters context key parameters parts) e };

    ghost bad_sealing_parameters = { λ context key parameters parts plain e.
        laws.bad_sealing_parameters (is_further I.ID context)
        (S.sealed context key parameters parts plain)
        (λ other results body. S.checked context other parameters results parts body)
        (I.scope parameters) (S.scope context parameters)
        (S.bad_sealing_parameters context key parameters parts plain) e };

    ghost judging_reasons = { λ context key parameters results parts reason e.
        laws.judging_reasons (is_further I.ID context)
        (I.judged key parameters results parts)
        (S.judged context key parameters results parts) reason
        (I.reasons key parameters results parts reason)
        (S.judging_reasons context key parameters results parts reason) e };

    ghost checking_reasons = { λ context key parameters results parts body reason e.
        laws.checking_reasons (is_further I.ID context)
        (S.checked context key parameters results parts body) reason
        (S.checking_reasons context key parameters results parts body reason) e };

    ghost scopes_are_small = { λ context parameters. laws.scopes_are_small (is_further I.ID context)
        (I.scope parameters) (S.scope context parameters) (I.scopes_are_small parameters)
        (S.scopes_are_small context parameters) };
}
