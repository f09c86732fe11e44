//! A suite of two contexts.

ghost use Rattle.std.specs.Prelude.{◌≡◌, ◌≢◌, ◌++◌, false, Some, Ok, Err};
ghost use Rattle.bpsec_context.specs.declared.judgement.Judgement.TheVariants.{Misset};
ghost use Rattle.bpsec_context.specs.declared.judgement.MissetReason.TheVariants.{UnknownContext, OtherService};
ghost use Rattle.bpsec_context.specs.declared.service.ServiceOf.TheVariants.{Integrity, Confidentiality, Unknown};
ghost use Rattle.bpsec_context.specs.Calls.{only_tag};
ghost use Rattle.bpsec_context.specs.Services.{pair_service, by_service};
ghost use Rattle.bpsec_context.specs.SuiteLaws as laws;

use crate::cipher::CipherContext;
use crate::gcm_context::GcmContext;
use crate::hmac_context::HmacContext;
use crate::integrity::IntegrityContext;
use crate::judgement::{Judgement, MissetReason};
use crate::service::ServiceOf;
use crate::suite::Suite;
use bpsec_asb::Pair;
use bpsec_scope::Covered;
use cbor_profile::Bytes;

/// The suite of one context for integrity and one for confidentiality, whose ids differ.
#[derive(Debug, Drop)]
pub struct PairSuite<I: IntegrityContext, C: CipherContext> {
    pub integrity: I,
    pub cipher: C,
    pub ghost distinct: { I.ID ≢ C.ID },
}

/// The contexts of RFC 9173.
pub type DefaultSuite = PairSuite<HmacContext, GcmContext>;

impl<I: IntegrityContext, C: CipherContext> Suite for PairSuite<I, C> {
    ghost service = { pair_service I.ID C.ID };

    ghost joined = { λ context. by_service (pair_service I.ID C.ID context) false C.JOINS false };

    ghost scope = { λ context parameters. by_service (pair_service I.ID C.ID context) (I.scope parameters) (C.scope parameters) 0 };

    ghost judged = { λ context key parameters results parts. by_service (pair_service I.ID C.ID context)
        (I.judged key parameters results parts) (Misset OtherService) (Misset UnknownContext) };

    ghost signed = { λ context key parameters parts. by_service (pair_service I.ID C.ID context)
        (I.signed key parameters parts) (Err OtherService) (Err UnknownContext) };

    ghost checked = { λ context key parameters results parts body. by_service (pair_service I.ID C.ID context)
        (Misset OtherService) (C.checked key parameters results parts body) (Misset UnknownContext) };

    ghost opened = { λ context key parameters results parts body. by_service (pair_service I.ID C.ID context)
        body (C.opened key parameters results parts body) body };

    ghost sealed = { λ context key parameters parts body. by_service (pair_service I.ID C.ID context)
        (Err OtherService) (C.sealed key parameters parts body) (Err UnknownContext) };

    #[tactic(auto, unfolding(crate::specs::Services::pair_service))]
    fn service_of(&self, context: i64) -> ServiceOf {
        if context == I::ID {
            ServiceOf::Integrity
        } else if context == C::ID {
            ServiceOf::Confidentiality
        } else {
            ServiceOf::Unknown
        }
    }

    fn joins(&self, context: i64) -> bool {
        match self.service_of(context) {
            ServiceOf::Confidentiality => C::JOINS,
            _ => false,
        }
    }

    fn scope_of(&self, context: i64, parameters: &[Pair]) -> u64 {
        match self.service_of(context) {
            ServiceOf::Integrity => self.integrity.scope_of(parameters),
            ServiceOf::Confidentiality => self.cipher.scope_of(parameters),
            ServiceOf::Unknown => 0,
        }
    }

    fn judge(
        &self,
        context: i64,
        key: Option<&[u8]>,
        parameters: &[Pair],
        results: &[Pair],
        covered: &Covered,
    ) -> Judgement {
        match self.service_of(context) {
            ServiceOf::Integrity => self.integrity.judge(key, parameters, results, covered),
            ServiceOf::Confidentiality => Judgement::Misset(MissetReason::OtherService),
            ServiceOf::Unknown => Judgement::Misset(MissetReason::UnknownContext),
        }
    }

    fn sign(
        &self,
        context: i64,
        key: &[u8],
        parameters: &[Pair],
        covered: &Covered,
        tag: &mut [u8; 64],
    ) -> Result<usize, MissetReason> {
        match self.service_of(context) {
            ServiceOf::Integrity => self.integrity.sign(key, parameters, covered, tag),
            ServiceOf::Confidentiality => Err(MissetReason::OtherService),
            ServiceOf::Unknown => Err(MissetReason::UnknownContext),
        }
    }

    fn check(
        &self,
        context: i64,
        key: Option<&[u8]>,
        parameters: &[Pair],
        results: &[Pair],
        covered: &Covered,
        body: &[u8],
    ) -> Judgement {
        match self.service_of(context) {
            ServiceOf::Integrity => Judgement::Misset(MissetReason::OtherService),
            ServiceOf::Confidentiality => self
                .cipher
                .check(key, parameters, results, covered, body),
            ServiceOf::Unknown => Judgement::Misset(MissetReason::UnknownContext),
        }
    }

    fn unseal(
        &self,
        context: i64,
        key: Option<&[u8]>,
        parameters: &[Pair],
        results: &[Pair],
        covered: &Covered,
        body: &mut Bytes,
    ) -> Judgement {
        match self.service_of(context) {
            ServiceOf::Integrity => Judgement::Misset(MissetReason::OtherService),
            ServiceOf::Confidentiality => self
                .cipher
                .unseal(key, parameters, results, covered, body),
            ServiceOf::Unknown => Judgement::Misset(MissetReason::UnknownContext),
        }
    }

    fn seal(
        &self,
        context: i64,
        key: &[u8],
        parameters: &[Pair],
        covered: &Covered,
        body: &mut Bytes,
        tag: &mut [u8; 64],
    ) -> Result<usize, MissetReason> {
        match self.service_of(context) {
            ServiceOf::Integrity => Err(MissetReason::OtherService),
            ServiceOf::Confidentiality => self.cipher.seal(key, parameters, covered, body, tag),
            ServiceOf::Unknown => Err(MissetReason::UnknownContext),
        }
    }

    ghost signed_is_right = { λ context key parameters parts tag e.
        laws.signed_is_right (pair_service I.ID C.ID context)
        (I.signed key parameters parts)
        (I.judged (Some key) parameters (only_tag tag) parts) tag (I.signed_is_right key parameters parts tag) e };

    ghost sealed_is_right = { λ context key parameters parts body made e.
        laws.sealed_is_right (pair_service I.ID C.ID context)
        (C.sealed key parameters parts body) (C.checked (Some key) parameters (only_tag made.tag) parts made.ciphertext)
        (C.opened (Some key) parameters (only_tag made.tag) parts made.ciphertext) made.ciphertext body made
        (C.sealed_is_right key parameters parts body made) e };

    ghost joined_is_right = { λ context key parameters results parts body made joins e none.
        laws.joined_is_right (pair_service I.ID C.ID context) C.JOINS
        (C.sealed key parameters parts body)
        (C.checked (Some key) parameters results parts (made.ciphertext ++ made.tag))
        (C.opened (Some key) parameters results parts (made.ciphertext ++ made.tag))
        (made.ciphertext ++ made.tag) body made
        (λ is sealed. C.joined_is_right key parameters results parts body made is sealed none) joins e };

    ghost signed_tags_are_short = { λ context key parameters parts tag e.
        laws.signed_tags_are_short (pair_service I.ID C.ID context)
        (I.signed key parameters parts) tag (I.tags_are_short key parameters parts tag) e };

    ghost sealed_tags_are_short = { λ context key parameters parts body made e.
        laws.sealed_tags_are_short (pair_service I.ID C.ID context)
        (C.sealed key parameters parts body) made (C.tags_are_short key parameters parts body made) e };

    ghost stays = { λ context key parameters results parts body not_right. laws.stays (pair_service I.ID C.ID context)
        (C.checked key parameters results parts body) (C.opened key parameters results parts body) body
        (C.stays key parameters results parts body) not_right };

    ghost never_longer = { λ context key parameters results parts body.
        laws.never_longer (pair_service I.ID C.ID context)
        (C.opened key parameters results parts body) body (C.never_longer key parameters results parts body) };

    ghost unknown = { λ context is. (
      λ key parameters results parts. laws.judged_at (pair_service I.ID C.ID context) Unknown
          (I.judged key parameters results parts) is,
      λ key parameters parts. laws.signed_at (pair_service I.ID C.ID context) Unknown
          (I.signed key parameters parts) is,
      λ key parameters results parts body. laws.checked_at (pair_service I.ID C.ID context) Unknown
          (C.checked key parameters results parts body) is,
      λ key parameters parts body. laws.sealed_at (pair_service I.ID C.ID context) Unknown
          (C.sealed key parameters parts body) is,
      λ parameters. laws.at_service (pair_service I.ID C.ID context) Unknown (I.scope parameters) (C.scope parameters) 0 is,
    ) };

    ghost not_for_integrity = { λ context is. (
      λ key parameters results parts. laws.judged_at (pair_service I.ID C.ID context) Confidentiality
          (I.judged key parameters results parts) is,
      λ key parameters parts. laws.signed_at (pair_service I.ID C.ID context) Confidentiality
          (I.signed key parameters parts) is,
    ) };

    ghost not_for_confidentiality = { λ context is. (
      λ key parameters results parts body. laws.checked_at (pair_service I.ID C.ID context) Integrity
          (C.checked key parameters results parts body) is,
      λ key parameters parts body. laws.sealed_at (pair_service I.ID C.ID context) Integrity
          (C.sealed key parameters parts body) is,
    ) };

    ghost joins_for_confidentiality = { λ context joins.
        laws.joins_for_confidentiality (pair_service I.ID C.ID context) C.JOINS joins };

    ghost unsigned_is_misset = { λ context key parameters results parts reason e.
        laws.unsigned_is_misset (pair_service I.ID C.ID context)
        (I.signed key parameters parts)
        (I.judged (Some key) parameters results parts) reason (I.refused_is_misset key parameters results parts reason) e };

    ghost misset_is_unsigned = { λ context key parameters results parts reason e.
        laws.misset_is_unsigned (pair_service I.ID C.ID context)
        (I.signed key parameters parts)
        (I.judged (Some key) parameters results parts) reason (I.misset_is_refused key parameters results parts reason) e };

    ghost unsealed_is_misset = { λ context key parameters results parts plain body reason e.
        laws.unsealed_is_misset (pair_service I.ID C.ID context)
        (C.sealed key parameters parts plain) (C.checked (Some key) parameters results parts body) reason
        (C.refused_is_misset key parameters results parts plain body reason) e };

    ghost misset_is_unsealed = { λ context key parameters results parts plain body reason e.
        laws.misset_is_unsealed (pair_service I.ID C.ID context)
        (C.sealed key parameters parts plain) (C.checked (Some key) parameters results parts body) reason
        (C.misset_is_refused key parameters results parts plain body reason) e };

    ghost bad_signing_parameters = { λ context key parameters parts e.
        laws.bad_signing_parameters (pair_service I.ID C.ID context)
        (I.signed key parameters parts) (λ other results. I.judged other parameters results parts)
        (I.scope parameters) (C.scope parameters)
        (I.bad_parameters_come_first key parameters parts) e };

    ghost bad_sealing_parameters = { λ context key parameters parts plain e.
        laws.bad_sealing_parameters (pair_service I.ID C.ID context)
        (C.sealed key parameters parts plain)
        (λ other results body. C.checked other parameters results parts body) (I.scope parameters) (C.scope parameters)
        (C.bad_parameters_come_first key parameters parts plain) e };

    ghost judging_reasons = { λ context key parameters results parts reason e.
        laws.judging_reasons (pair_service I.ID C.ID context)
        (I.judged key parameters results parts) reason (I.reasons key parameters results parts reason) e };

    ghost checking_reasons = { λ context key parameters results parts body reason e.
        laws.checking_reasons (pair_service I.ID C.ID context)
        (C.checked key parameters results parts body) reason (C.reasons key parameters results parts body reason) e };

    ghost scopes_are_small = { λ context parameters. laws.scopes_are_small (pair_service I.ID C.ID context)
        (I.scope parameters) (C.scope parameters) (I.scopes_are_small parameters) (C.scopes_are_small parameters) };
}
