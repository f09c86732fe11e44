//! The code of an integrity operation (RFC 9173, section 3.7).

ghost use Rattle.std.specs.Prelude.{◌≡◌, ◌≤◌, ◌^◌, Some, None, length, take, IsFalse, IfOk, IfErr, OnOk};
ghost use Rattle.std.specs.Option.{option_copied};
ghost use Rattle.hmac_core.specs.Hmac.{hmac};
ghost use Rattle.bpsec_scope.specs.Target.{target_of, is_sealed, body_of};
ghost use Rattle.bpsec_scope.specs.Covered.{scoped, ippt};
ghost use Rattle.bpsec_scope.specs.View.{parts_of};
ghost use Rattle.bpsec_context.specs.Reasons.{first};
ghost use Rattle.bpsec_context.specs.Keys.{working_key};
ghost use Rattle.bpsec_context.specs.Integrity.{hmac_of, size_of, key_refusals};

use crate::hmac_parameters::{HmacParameters, HmacVariant};
use crate::judgement::MissetReason;
use crate::keys::{is_encryption_key, unwrap_key};
use bpsec_scope::{Covered, ippt};
use hmac_core::{Hash, Hmac, Sha256, Sha384, Sha512};

/// The code of the plaintext by one hash function.
fn keyed<H: Hash>(key: &[u8], covered: &Covered, scope: u64, tag: &mut [u8; 64]) -> usize
    requires unsealed { IsFalse (is_sealed (target_of covered.now.target)) }
    requires key { length key.now ≤ 2 ^ 32 }
    requires body { length (body_of (target_of covered.now.target)) ≤ 2 ^ 32 }
    ensures len { result ≡ H.DIGEST }
    ensures code { take H.DIGEST tag.new
        ≡ hmac H.digest H.BLOCK key.now (ippt (scoped (parts_of covered.now) scope)) }
{
    let mut hmac = Hmac::<H>::start(key);
    ippt(covered, scope, &mut hmac);
    hmac.finish(tag)
}

/// The code of the plaintext under a working key, at the front of `tag`. Returns its length.
pub(crate) fn code(
    variant: HmacVariant,
    key: &[u8],
    covered: &Covered,
    scope: u64,
    tag: &mut [u8; 64],
) -> usize
    requires unsealed { IsFalse (is_sealed (target_of covered.now.target)) }
    requires key { length key.now ≤ 2 ^ 32 }
    requires body { length (body_of (target_of covered.now.target)) ≤ 2 ^ 32 }
    ensures len { result ≡ size_of variant }
    ensures code { take (size_of variant) tag.new
        ≡ hmac_of variant key.now (ippt (scoped (parts_of covered.now) scope)) }
{
    match variant {
        HmacVariant::Sha256 => keyed::<Sha256>(key, covered, scope, tag),
        HmacVariant::Sha384 => keyed::<Sha384>(key, covered, scope, tag),
        HmacVariant::Sha512 => keyed::<Sha512>(key, covered, scope, tag),
    }
}

/// The code under the key, or under the one that is wrapped; or what stands in the way of the key.
pub(crate) fn code_with(
    given: &HmacParameters,
    key: &[u8],
    covered: &Covered,
    tag: &mut [u8; 64],
) -> Result<usize, MissetReason>
    requires unsealed { IsFalse (is_sealed (target_of covered.now.target)) }
    requires key { length key.now ≤ 2 ^ 32 }
    requires body { length (body_of (target_of covered.now.target)) ≤ 2 ^ 32 }
    ensures ok { OnOk result (first (key_refusals (option_copied given.now.wrapped) key.now)
        ≡ None) }
    ensures err { IfErr result (λ reason.
        first (key_refusals (option_copied given.now.wrapped) key.now)
        ≡ Some reason) }
    ensures len { IfOk result (λ len. len ≡ size_of given.now.variant) }
    ensures code { OnOk result (take (size_of given.now.variant) tag.new
        ≡ hmac_of given.now.variant (working_key (option_copied given.now.wrapped) key.now)
        (ippt (scoped (parts_of covered.now) given.now.scope))) }
{
    let Some(wrapped) = given.wrapped else {
        return Ok(code(given.variant, key, covered, given.scope, tag));
    };
    if !is_encryption_key(key) {
        return Err(MissetReason::KeyLength);
    }
    let mut room = [0; 64];
    let working = &mut room[..wrapped.len() - 8];
    if !unwrap_key(key, wrapped, working) {
        return Err(MissetReason::UnwrapRefused);
    }
    Ok(code(given.variant, working, covered, given.scope, tag))
}
