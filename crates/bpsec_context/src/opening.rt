//! What is needed to judge and to open a body.

ghost use Rattle.std.specs.Prelude.{◌≡◌, ℕ, List, ◌<◌, ◌≤◌, ◌^◌, Some, None, length, take, unwrap_or, bytes_eq, [], true, false, IsTrue, IfOk, IfErr, OnOk, OnErr};
ghost use Rattle.std.specs.Bool.{OnTrue, OnFalse};
ghost use Rattle.std.specs.Option.{option_copied};
ghost use Rattle.aes_core.specs.Cipher.{cipher};
ghost use Rattle.gcm_core.specs.Gcm.{ciphered, tag_of};
ghost use Rattle.bpsec_scope.specs.Target.{target_of, is_sealed};
ghost use Rattle.bpsec_scope.specs.Covered.{scoped, aad};
ghost use Rattle.bpsec_scope.specs.View.{parts_of};
ghost use Rattle.bpsec_context.specs.Reasons.{first};
ghost use Rattle.bpsec_context.specs.Keys.{working_key};
ghost use Rattle.bpsec_context.specs.Confidentiality.{lacks_tag, refusals, result_given, tag_in, ciphertext_in, vector_of, variant_of, wrapped_of, flags_of, words_of};
ghost use Rattle.bpsec_context.specs.Sealer.{IsReady};

use crate::gcm_parameters::gcm_parameters;
use crate::judgement::MissetReason;
use crate::pairs::{Malformed, bytes, exactly};
use crate::sealer::{Sealer, sealer_with};
use bpsec_asb::Pair;
use bpsec_scope::Covered;
use cbor_profile::Bytes;

/// A tag, and how many bytes of the body stand before it.
#[derive(Clone, Copy)]
struct TagPlace {
    tag: [u8; 16],
    len: usize,
}

/// What judges a body and opens it: a sealer, its initialisation vector, the tag, and how many bytes of the body stand before
/// the tag.
#[derive(Drop)]
pub(crate) struct Opening<'a> {
    sealer: Sealer,
    vector: &'a [u8],
    tag: [u8; 16],
    len: usize,
}

/// A tag of these bytes.
fn tag_of_slice(bytes: &[u8]) -> [u8; 16]
    requires { length bytes.now ≡ 16 }
    ensures { result ≡ bytes.now }
{
    let mut tag = [0; 16];
    tag.copy_from_slice(bytes);
    tag
}

/// The tag in the results, or behind the ciphertext in the body.
fn place(results: &[Pair], body: &[u8]) -> Result<TagPlace, Malformed>
    ensures ok { OnOk result (lacks_tag (result_given results.now) body.now ≡ false) }
    ensures err { OnErr result (lacks_tag (result_given results.now) body.now ≡ true) }
    ensures tag { IfOk result (λ place. place.tag ≡ tag_in (result_given results.now) body.now) }
    ensures within { IfOk result (λ place. place.len ≤ length body.now) }
    ensures ciphertext { IfOk result (λ place. take place.len body.now
        ≡ ciphertext_in (result_given results.now) body.now) }
{
    match bytes(results, 1, exactly(16)) {
        Err(malformed) => Err(malformed),
        Ok(Some(tag)) => Ok(TagPlace {
            tag: tag_of_slice(tag),
            len: body.len(),
        }),
        Ok(None) if body.len() < 16 => Err(Malformed),
        Ok(None) => {
            let len = body.len() - 16;
            Ok(TagPlace {
                tag: tag_of_slice(&body[len..]),
                len,
            })
        }
    }
}

/// What opens the body of an operation, or what stands in the way.
pub(crate) fn opening_of<'a>(
    key: Option<&[u8]>,
    parameters: &'a [Pair],
    results: &[Pair],
    covered: &Covered,
    body: &[u8],
) -> Result<Opening<'a>, MissetReason>
    requires { IsTrue (is_sealed (target_of covered.now.target)) }
    ensures ok { OnOk result (first
        (refusals (option_copied key.entry) parameters.now results.now body.now) ≡ None) }
    ensures err { IfErr result (λ reason.
        first (refusals (option_copied key.entry) parameters.now results.now body.now)
        ≡ Some reason) }
    ensures ready { IfOk result (λ o.
        IsReady (words_of (variant_of parameters.now))
        (working_key (wrapped_of parameters.now) (unwrap_or (option_copied key.entry) []))
        (aad (scoped (parts_of covered.now) (flags_of parameters.now))) o.sealer) }
    ensures vector { IfOk result (λ o. (o.vector.now ≡ vector_of parameters.now)
        × (0 < length o.vector.now)) }
    ensures tag { IfOk result (λ o. o.tag ≡ tag_in (result_given results.now) body.now) }
    ensures ciphertext { IfOk result (λ o. (o.len ≤ length body.now)
        × (take o.len body.now ≡ ciphertext_in (result_given results.now) body.now)) }
{
    let Ok(given) = gcm_parameters(parameters) else {
        return Err(MissetReason::BadParameter);
    };
    let Ok(place) = place(results, body) else {
        return Err(MissetReason::BadResult);
    };
    let Some(key) = key else {
        return Err(MissetReason::NoKey);
    };
    let TagPlace { tag, len } = place;
    match sealer_with(&given, key, covered) {
        Err(reason) => Err(reason),
        Ok(sealer) => Ok(Opening {
            sealer,
            vector: given.vector,
            tag,
            len,
        }),
    }
}

/// Opens so many bytes at the front if the tag is right, and says whether it is. Else the body stays.
fn unseal_front(sealer: Sealer, vector: &[u8], body: &mut [u8], len: usize, tag: &[u8; 16]) -> bool
    requires vector { 0 < length vector.now }
    requires within { len ≤ length body.old }
    requires body { length body.old ≤ 2 ^ 32 }
    ensures right { (words : ℕ) (key aad : List ℕ) → IsReady words key aad sealer
        → result ≡ bytes_eq tag.now (tag_of (cipher words key) vector.now aad (take len body.old)) }
    ensures opened { (words : ℕ) (key aad : List ℕ) → IsReady words key aad sealer
        → OnTrue result (take len body.new
        ≡ ciphered (cipher words key) vector.now (take len body.old)) }
    ensures stays { OnFalse result (body.new ≡ body.old) }
{
    sealer.unseal(vector, &mut body[..len], tag)
}

impl Opening<'_> {
    /// Whether the tag is right.
    pub(crate) fn check(self, body: &[u8]) -> bool
        requires vector { 0 < length self.vector.now }
        requires within { self.len ≤ length body.now }
        ensures { (words : ℕ) (key aad : List ℕ) → IsReady words key aad self.entry.sealer
            → result ≡ bytes_eq self.entry.tag
            (tag_of (cipher words key) self.entry.vector.now aad
            (take self.entry.len body.now)) }
    {
        let Opening {
            sealer,
            vector,
            tag,
            len,
        } = self;
        sealer.check(vector, &body[..len], &tag)
    }

    /// Opens the body, and takes the tag off, if the tag is right; and says whether it is. Else the body stays.
    pub(crate) fn unseal(self, body: &mut Bytes) -> bool
        requires vector { 0 < length self.vector.now }
        requires within { self.len ≤ length body.old }
        requires body { length body.old ≤ 2 ^ 32 }
        ensures right { (words : ℕ) (key aad : List ℕ) → IsReady words key aad self.entry.sealer
            → result ≡ bytes_eq self.entry.tag
            (tag_of (cipher words key) self.entry.vector.now aad
            (take self.entry.len body.old)) }
        ensures opened { (words : ℕ) (key aad : List ℕ) → IsReady words key aad self.entry.sealer
            → OnTrue result (body.new
            ≡ ciphered (cipher words key) self.entry.vector.now (take self.entry.len body.old)) }
        ensures stays { OnFalse result (body.new ≡ body.old) }
    {
        let Opening {
            sealer,
            vector,
            tag,
            len,
        } = self;
        let right = unseal_front(sealer, vector, body.as_mut_slice(), len, &tag);
        if right {
            body.truncate(len);
        }
        right
    }
}
