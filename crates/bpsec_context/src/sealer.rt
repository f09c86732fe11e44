//! AES-GCM with the additional authenticated data of an operation.

ghost use Rattle.std.specs.Prelude.{◌≡◌, ◌*◌, ◌<◌, ◌≤◌, ◌^◌, ℕ, Some, None, List, length, bytes_eq, IsTrue, IfOk, IfErr, OnOk};
ghost use Rattle.std.specs.Bool.{OnTrue, OnFalse};
ghost use Rattle.std.specs.Option.{option_copied};
ghost use Rattle.aes_core.specs.KeyExpansion.{IsKeySize};
ghost use Rattle.aes_core.specs.Cipher.{cipher};
ghost use Rattle.gcm_core.specs.Gcm.{ciphered, tag_of};
ghost use Rattle.gcm_core.specs.State.{HasTaken};
ghost use Rattle.bpsec_scope.specs.Target.{target_of, is_sealed};
ghost use Rattle.bpsec_scope.specs.Covered.{scoped, aad};
ghost use Rattle.bpsec_scope.specs.View.{parts_of};
ghost use Rattle.bpsec_context.specs.Reasons.{first};
ghost use Rattle.bpsec_context.specs.Keys.{working_key};
ghost use Rattle.bpsec_context.specs.Confidentiality.{words_of, key_refusals};
ghost use Rattle.bpsec_context.specs.Sealer.{IsReady};

use crate::gcm_parameters::{GcmParameters, GcmVariant};
use crate::judgement::MissetReason;
use crate::keys::{is_encryption_key, unwrap_key};
use aes_core::Aes;
use bpsec_scope::{Covered, aad};
use gcm_core::Gcm;

/// AES-GCM by one of the variants.
#[derive(Drop)]
pub(crate) enum Sealer {
    Aes128(Gcm<4>),
    Aes256(Gcm<8>),
}

impl Sealer {
    /// Enciphers the body in place, and returns its tag.
    pub(crate) fn seal(self, iv: &[u8], body: &mut [u8]) -> [u8; 16]
        requires vector { 0 < length iv.now }
        requires body { length body.old ≤ 2 ^ 32 }
        ensures body { (words : ℕ) (key aad : List ℕ) → IsReady words key aad self
            → body.new ≡ ciphered (cipher words key) iv.now body.old }
        ensures tag { (words : ℕ) (key aad : List ℕ) → IsReady words key aad self
            → result ≡ tag_of (cipher words key) iv.now aad body.new }
    {
        match self {
            Sealer::Aes128(gcm) => gcm.seal(iv, body),
            Sealer::Aes256(gcm) => gcm.seal(iv, body),
        }
    }

    /// Deciphers the body in place if the tag is right, and says whether it is. Else the body stays.
    pub(crate) fn unseal(self, iv: &[u8], body: &mut [u8], tag: &[u8; 16]) -> bool
        requires vector { 0 < length iv.now }
        requires body { length body.old ≤ 2 ^ 32 }
        ensures right { (words : ℕ) (key aad : List ℕ) → IsReady words key aad self
            → result ≡ bytes_eq tag.now (tag_of (cipher words key) iv.now aad body.old) }
        ensures opened { (words : ℕ) (key aad : List ℕ) → IsReady words key aad self
            → OnTrue result (body.new ≡ ciphered (cipher words key) iv.now body.old) }
        ensures stays { OnFalse result (body.new ≡ body.old) }
    {
        match self {
            Sealer::Aes128(gcm) => gcm.unseal(iv, body, tag),
            Sealer::Aes256(gcm) => gcm.unseal(iv, body, tag),
        }
    }

    /// Says whether the tag is right.
    pub(crate) fn check(self, iv: &[u8], body: &[u8], tag: &[u8; 16]) -> bool
        requires vector { 0 < length iv.now }
        ensures { (words : ℕ) (key aad : List ℕ) → IsReady words key aad self
            → result ≡ bytes_eq tag.now (tag_of (cipher words key) iv.now aad body.now) }
    {
        match self {
            Sealer::Aes128(gcm) => gcm.check(iv, body, tag),
            Sealer::Aes256(gcm) => gcm.check(iv, body, tag),
        }
    }
}

/// AES-GCM by keys of NK words, with the additional data of an operation.
fn gcm<const NK: usize>(key: &[u8], covered: &Covered, scope: u64) -> Gcm<NK>
    requires size { IsKeySize NK }
    requires key { length key.now ≡ 4 * NK }
    requires sealed { IsTrue (is_sealed (target_of covered.now.target)) }
    ensures key { result.key ≡ key.now }
    ensures taken { HasTaken NK result (aad (scoped (parts_of covered.now) scope)) }
{
    let Some(aes) = Aes::<NK>::new(key) else {
        unreachable!();
    };
    let mut gcm = Gcm::new(&aes);
    aad(covered, scope, &mut gcm);
    gcm
}

/// A sealer under a working key.
fn sealer_of(variant: GcmVariant, key: &[u8], covered: &Covered, scope: u64) -> Sealer
    requires key { length key.now ≡ 4 * words_of variant }
    requires sealed { IsTrue (is_sealed (target_of covered.now.target)) }
    ensures { IsReady (words_of variant) key.now (aad (scoped (parts_of covered.now) scope))
        result }
{
    match variant {
        GcmVariant::Aes128 => Sealer::Aes128(gcm::<4>(key, covered, scope)),
        GcmVariant::Aes256 => Sealer::Aes256(gcm::<8>(key, covered, scope)),
    }
}

/// A sealer under the key, or under the one that is wrapped; or what stands in the way of the key.
pub(crate) fn sealer_with(
    given: &GcmParameters,
    key: &[u8],
    covered: &Covered,
) -> Result<Sealer, MissetReason>
    requires { IsTrue (is_sealed (target_of covered.now.target)) }
    ensures ok { OnOk result (first
        (key_refusals given.now.variant (option_copied given.now.wrapped) key.now)
        ≡ None) }
    ensures err { IfErr result (λ reason.
        first (key_refusals given.now.variant (option_copied given.now.wrapped) key.now)
        ≡ Some reason) }
    ensures ready { IfOk result (IsReady (words_of given.now.variant)
        (working_key (option_copied given.now.wrapped) key.now)
        (aad (scoped (parts_of covered.now) given.now.scope))) }
{
    let len = 4 * given.variant.words();
    let Some(wrapped) = given.wrapped else {
        if key.len() != len {
            return Err(MissetReason::KeyLength);
        }
        return Ok(sealer_of(given.variant, key, covered, given.scope));
    };
    if !is_encryption_key(key) || wrapped.len() - 8 != len {
        return Err(MissetReason::KeyLength);
    }
    let mut room = [0; 64];
    let working = &mut room[..wrapped.len() - 8];
    if !unwrap_key(key, wrapped, working) {
        return Err(MissetReason::UnwrapRefused);
    }
    Ok(sealer_of(given.variant, working, covered, given.scope))
}
