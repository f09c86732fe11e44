//! Context -1, BIB-AES-CMAC.

ghost use Rattle.std.specs.Prelude.{◌≡◌, ◌≤◌, ◌^◌, ◌↔◌, negsuc, length, take, IsFalse, IsSome, IfSome};
ghost use Rattle.aes_core.specs.Cipher.{cipher};
ghost use Rattle.cmac_core.specs.Cmac.{cmac};
ghost use Rattle.bpsec_scope.specs.Target.{target_of, is_sealed, body_of};
ghost use Rattle.bpsec_scope.specs.Covered.{scoped, ippt};
ghost use Rattle.bpsec_scope.specs.View.{parts_of};
ghost use Rattle.bpsec_cmac.specs.Integrity.{judged, signed, scope_of};
ghost use Rattle.bpsec_cmac.specs.IntegrityLaws as laws;

use crate::reading::{scope_flags, tag_given};
use aes_core::Aes;
use bpsec_asb::Pair;
use bpsec_context::{IntegrityContext, Judgement, MissetReason};
use bpsec_scope::{Covered, ippt};
use cmac_core::Cmac;
use gf2_polynomial::same_bytes;

/// The security context BIB-AES-CMAC, of this implementation's own: the result 1 is the AES-CMAC (RFC 4493) of the
/// integrity-protected plaintext (RFC 9173, section 3.7) under a key of 16 bytes. The parameter 3 is the scope flags of RFC
/// 9173, section 3.3.3; absent, they are 7. Other parameters and results are passed over.
#[derive(Clone, Copy, Debug)]
pub struct CmacContext;

/// The tag of the plaintext under a key of 16 bytes; none under another.
fn tag_with(key: &[u8], covered: &Covered, scope: u64) -> Option<[u8; 16]>
    requires unsealed { IsFalse (is_sealed (target_of covered.now.target)) }
    requires body { length (body_of (target_of covered.now.target)) ≤ 2 ^ 32 }
    ensures some { IsSome result ↔ (length key.now ≡ 16) }
    ensures tag { IfSome result (λ tag. tag
        ≡ cmac (cipher 4 key.now) (ippt (scoped (parts_of covered.now) scope))) }
{
    let Some(aes) = Aes::<4>::new(key) else {
        return None;
    };
    let mut cmac = Cmac::start(&aes);
    ippt(covered, scope, &mut cmac);
    Some(cmac.finish())
}

/// Writes a tag at the front.
fn put_tag(out: &mut [u8], tag: &[u8; 16])
    requires { 16 ≤ length out.old }
    ensures { take 16 out.new ≡ tag.now }
{
    out[..16].copy_from_slice(tag);
}

impl IntegrityContext for CmacContext {
    ghost judged = { judged };

    ghost signed = { signed };

    ghost scope = { scope_of };

    ghost ID = { negsuc 0 };

    const ID: i64 = -1;

    #[tactic(auto, unfolding(crate::specs::Integrity::judged, crate::specs::Integrity::tag_of))]
    fn judge(
        &self,
        key: Option<&[u8]>,
        parameters: &[Pair],
        results: &[Pair],
        covered: &Covered,
    ) -> Judgement {
        let Some(scope) = scope_flags(parameters) else {
            return Judgement::Misset(MissetReason::BadParameter);
        };
        let Some(tag) = tag_given(results) else {
            return Judgement::Misset(MissetReason::BadResult);
        };
        let Some(key) = key else {
            return Judgement::Misset(MissetReason::NoKey);
        };
        match tag_with(key, covered, scope) {
            None => Judgement::Misset(MissetReason::KeyLength),
            Some(due) if same_bytes(tag, &due) => Judgement::Right,
            Some(_) => Judgement::Wrong,
        }
    }

    #[tactic(auto, unfolding(crate::specs::Integrity::signed, crate::specs::Integrity::tag_of))]
    fn sign(
        &self,
        key: &[u8],
        parameters: &[Pair],
        covered: &Covered,
        tag: &mut [u8; 64],
    ) -> Result<usize, MissetReason> {
        let Some(scope) = scope_flags(parameters) else {
            return Err(MissetReason::BadParameter);
        };
        let Some(due) = tag_with(key, covered, scope) else {
            return Err(MissetReason::KeyLength);
        };
        put_tag(tag, &due);
        Ok(16)
    }

    #[tactic(auto, unfolding(crate::specs::Integrity::scope_of))]
    fn scope_of(&self, parameters: &[Pair]) -> u64 {
        match scope_flags(parameters) {
            Some(scope) => scope % 8,
            None => 0,
        }
    }

    ghost signed_is_right = { laws.signed_is_right };

    ghost tags_are_short = { laws.tags_are_short };

    ghost refused_is_misset = { laws.refused_is_misset };

    ghost misset_is_refused = { laws.misset_is_refused };

    ghost bad_parameters_come_first = { laws.bad_parameters_come_first };

    ghost reasons = { laws.reasons };

    ghost scopes_are_small = { laws.scopes_are_small };
}
