//! Context 2, BCB-AES-GCM (RFC 9173, section 4).

ghost use Rattle.std.specs.Prelude.{◌≡◌, ◌<◌, ◌≤◌, ◌^◌, pos, true, ℕ, List, length, take};
ghost use Rattle.aes_core.specs.Cipher.{cipher};
ghost use Rattle.gcm_core.specs.Gcm.{ciphered, tag_of};
ghost use Rattle.bpsec_context.specs.Sealer.{IsReady};
ghost use Rattle.bpsec_context.specs.Confidentiality.{checked, opened, sealed, scope_of};
ghost use Rattle.bpsec_context.specs.ConfidentialityLaws as laws;

use crate::cipher::CipherContext;
use crate::gcm_parameters::gcm_parameters;
use crate::judgement::{Judgement, MissetReason};
use crate::opening::opening_of;
use crate::sealer::{Sealer, sealer_with};
use bpsec_asb::Pair;
use bpsec_scope::Covered;
use cbor_profile::Bytes;

/// The security context BCB-AES-GCM.
#[derive(Clone, Copy, Debug)]
pub struct GcmContext;

impl CipherContext for GcmContext {
    ghost checked = { checked };

    ghost opened = { opened };

    ghost sealed = { sealed };

    ghost scope = { scope_of };

    ghost ID = { pos 2 };

    const ID: i64 = 2;

    ghost JOINS = { true };

    const JOINS: bool = true;

    #[tactic(auto, unfolding(crate::specs::Confidentiality::checked, crate::specs::Confidentiality::tag_over))]
    fn check(
        &self,
        key: Option<&[u8]>,
        parameters: &[Pair],
        results: &[Pair],
        covered: &Covered,
        body: &[u8],
    ) -> Judgement {
        match opening_of(key, parameters, results, covered, body) {
            Err(reason) => Judgement::Misset(reason),
            Ok(opening) => {
                if opening.check(body) {
                    Judgement::Right
                } else {
                    Judgement::Wrong
                }
            }
        }
    }

    #[tactic(auto, unfolding(crate::specs::Confidentiality::checked, crate::specs::Confidentiality::opened, crate::specs::Confidentiality::tag_over, crate::specs::Confidentiality::enciphered))]
    fn unseal(
        &self,
        key: Option<&[u8]>,
        parameters: &[Pair],
        results: &[Pair],
        covered: &Covered,
        body: &mut Bytes,
    ) -> Judgement {
        match opening_of(key, parameters, results, covered, body.as_slice()) {
            Err(reason) => Judgement::Misset(reason),
            Ok(opening) => {
                if opening.unseal(body) {
                    Judgement::Right
                } else {
                    Judgement::Wrong
                }
            }
        }
    }

    #[tactic(auto, unfolding(crate::specs::Confidentiality::sealed, crate::specs::Confidentiality::tag_over, crate::specs::Confidentiality::enciphered))]
    fn seal(
        &self,
        key: &[u8],
        parameters: &[Pair],
        covered: &Covered,
        body: &mut Bytes,
        tag: &mut [u8; 64],
    ) -> Result<usize, MissetReason> {
        let Ok(given) = gcm_parameters(parameters) else {
            return Err(MissetReason::BadParameter);
        };
        match sealer_with(&given, key, covered) {
            Err(reason) => Err(reason),
            Ok(sealer) => {
                let made = seal_whole(sealer, given.vector, body);
                put_tag(tag, &made);
                Ok(16)
            }
        }
    }

    #[tactic(auto, unfolding(crate::specs::Confidentiality::scope_of))]
    fn scope_of(&self, parameters: &[Pair]) -> u64 {
        match gcm_parameters(parameters) {
            Ok(given) => given.scope % 8,
            Err(_) => 0,
        }
    }

    ghost sealed_is_right = { laws.sealed_is_right };

    ghost joined_is_right = { laws.joined_is_right };

    ghost tags_are_short = { laws.tags_are_short };

    ghost stays = { laws.stays };

    ghost never_longer = { laws.never_longer };

    ghost refused_is_misset = { laws.refused_is_misset };

    ghost misset_is_refused = { laws.misset_is_refused };

    ghost bad_parameters_come_first = { laws.bad_parameters_come_first };

    ghost reasons = { laws.reasons };

    ghost scopes_are_small = { laws.scopes_are_small };
}

/// Writes a tag at the front.
fn put_tag(out: &mut [u8], tag: &[u8; 16])
    requires { 16 ≤ length out.old }
    ensures { take 16 out.new ≡ tag.now }
{
    out[..16].copy_from_slice(tag);
}

/// Seals the whole body.
fn seal_whole(sealer: Sealer, vector: &[u8], body: &mut Bytes) -> [u8; 16]
    requires vector { 0 < length vector.now }
    requires body { length body.old ≤ 2 ^ 32 }
    ensures body { (words : ℕ) (key aad : List ℕ) → IsReady words key aad sealer
        → body.new ≡ ciphered (cipher words key) vector.now body.old }
    ensures tag { (words : ℕ) (key aad : List ℕ) → IsReady words key aad sealer
        → result ≡ tag_of (cipher words key) vector.now aad body.new }
{
    sealer.seal(vector, body.as_mut_slice())
}
