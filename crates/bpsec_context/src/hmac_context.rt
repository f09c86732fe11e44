//! Context 1, BIB-HMAC-SHA2 (RFC 9173, section 3).

ghost use Rattle.std.specs.Prelude.{◌≡◌, ◌≤◌, ◌^◌, pos, Some, None, length, IsFalse};
ghost use Rattle.std.specs.Option.{option_copied};
ghost use Rattle.bpsec_context.specs.Integrity.{judged, signed, scope_of};
ghost use Rattle.bpsec_context.specs.IntegrityLaws as laws;

use crate::hmac_code::code_with;
use crate::hmac_parameters::hmac_parameters;
use crate::integrity::IntegrityContext;
use crate::judgement::{Judgement, MissetReason};
use crate::pairs::{bytes, exactly};
use bpsec_asb::Pair;
use bpsec_scope::Covered;
use gf2_polynomial::same_bytes;

/// The security context BIB-HMAC-SHA2.
#[derive(Clone, Copy, Debug)]
pub struct HmacContext;

impl IntegrityContext for HmacContext {
    ghost judged = { judged };

    ghost signed = { signed };

    ghost scope = { scope_of };

    ghost ID = { pos 1 };

    const ID: i64 = 1;

    #[tactic(auto, unfolding(crate::specs::Integrity::judged, crate::specs::Integrity::code_of))]
    fn judge(
        &self,
        key: Option<&[u8]>,
        parameters: &[Pair],
        results: &[Pair],
        covered: &Covered,
    ) -> Judgement {
        let Ok(given) = hmac_parameters(parameters) else {
            return Judgement::Misset(MissetReason::BadParameter);
        };
        let Ok(Some(tag)) = bytes(results, 1, exactly(given.variant.size())) else {
            return Judgement::Misset(MissetReason::BadResult);
        };
        let Some(key) = key else {
            return Judgement::Misset(MissetReason::NoKey);
        };
        let mut code = [0; 64];
        match code_with(&given, key, covered, &mut code) {
            Err(reason) => Judgement::Misset(reason),
            Ok(len) if same_bytes(tag, &code[..len]) => Judgement::Right,
            Ok(_) => Judgement::Wrong,
        }
    }

    #[tactic(auto, unfolding(crate::specs::Integrity::signed, crate::specs::Integrity::code_of))]
    fn sign(
        &self,
        key: &[u8],
        parameters: &[Pair],
        covered: &Covered,
        tag: &mut [u8; 64],
    ) -> Result<usize, MissetReason> {
        match hmac_parameters(parameters) {
            Ok(given) => code_with(&given, key, covered, tag),
            Err(_) => Err(MissetReason::BadParameter),
        }
    }

    #[tactic(auto, unfolding(crate::specs::Integrity::scope_of))]
    fn scope_of(&self, parameters: &[Pair]) -> u64 {
        match hmac_parameters(parameters) {
            Ok(given) => given.scope % 8,
            Err(_) => 0,
        }
    }

    ghost signed_is_right = { laws.signed_is_right };

    ghost tags_are_short = { laws.tags_are_short };

    ghost refused_is_misset = { laws.refused_is_misset };

    ghost misset_is_refused = { laws.misset_is_refused };

    ghost bad_parameters_come_first = { laws.bad_parameters_come_first };

    ghost reasons = { laws.reasons };

    ghost scopes_are_small = { laws.scopes_are_small };
}
