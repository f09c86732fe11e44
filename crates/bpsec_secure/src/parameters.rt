//! The parameters of the new blocks.

ghost use Rattle.std.specs.Prelude.{◌≡◌, ◌<◌, ℕ, slice_index, ◌+◌, ◌*◌, ◌++◌, ◌∷◌, [], ◌≤◌, length, IsTrue, IfOk, OnOk};
ghost use Rattle.aes_core.specs.KeyExpansion.{IsKeySize};
ghost use Rattle.bpsec_facts.specs.Refusal.{is_wrappable, is_wrapping};
ghost use Rattle.bpsec_facts.specs.Left.{number_pair, bytes_pair, key_of_cover};
ghost use Rattle.bpsec_secure.specs.Parameters.{wrapped_under, wrapped_key, wrapped_pair, integrity_parameters, cipher_parameters, outer_key, hmac_parameters, gcm_parameters};
ghost use Rattle.bpsec_secure.specs.Usable.{HasKeys};

use aes_core::Aes;
use bpsec_asb::Pair;
use bpsec_facts::{add_bytes, add_number, key_named};
use bpsec_plan::Cover;
use bpsec_policy::KeyRing;
use cbor_profile::{List, NoMemory};
use key_wrap::wrap_into;
use std::alloc::Global;

/// Wraps a key with a key of NK words. `out` has 8 bytes more than the key.
#[tactic(auto, using(crate::proofs::Wrapping::wrapped_with))]
fn wrap_with<const NK: usize>(wrapping: &[u8], key: &[u8], out: &mut [u8])
    requires size { IsKeySize NK }
    requires wrapping { length wrapping.now ≡ 4 * NK }
    requires key { IsTrue (is_wrappable key.now) }
    requires room { length out.old ≡ length key.now + 8 }
    ensures { out.new ≡ wrapped_under wrapping.now key.now }
{
    let Some(aes) = Aes::<NK>::new(wrapping) else {
        unreachable!();
    };
    wrap_into(&aes, key, out);
}

/// Wraps a key. `out` has 8 bytes more.
fn wrap_key(wrapping: &[u8], key: &[u8], out: &mut [u8])
    requires wrapping { IsTrue (is_wrapping wrapping.now) }
    requires key { IsTrue (is_wrappable key.now) }
    requires room { length out.old ≡ length key.now + 8 }
    ensures { out.new ≡ wrapped_under wrapping.now key.now }
{
    if wrapping.len() == 16 {
        wrap_with::<4>(wrapping, key, out);
    } else {
        wrap_with::<8>(wrapping, key, out);
    }
}

/// Adds the parameter that holds the wrapped key.
fn add_wrapped_under(
    alloc: Global,
    id: u64,
    wrapping: &[u8],
    key: &[u8],
    pairs: &mut List<Pair>,
) -> Result<(), NoMemory>
    requires wrapping { IsTrue (is_wrapping wrapping.now) }
    requires key { IsTrue (is_wrappable key.now) }
    ensures { OnOk result (pairs.new
        ≡ pairs.old ++ bytes_pair id (wrapped_under wrapping.now key.now) ∷ []) }
{
    let mut room = [0; 72];
    let out = &mut room[..key.len() + 8];
    wrap_key(wrapping, key, out);
    add_bytes(alloc, id, out, pairs)
}

/// Adds the parameter that holds the wrapped key, where a key wraps the working key.
fn add_wrapped(
    alloc: Global,
    id: u64,
    ring: &KeyRing,
    cover: &Cover,
    pairs: &mut List<Pair>,
) -> Result<(), NoMemory>
    requires { HasKeys ring.now cover.now }
    ensures { OnOk result (pairs.new
        ≡ pairs.old ++ wrapped_pair id (wrapped_key ring.now cover.now)) }
{
    let key = key_named(ring, cover.key.as_slice());
    match &cover.wrapped_with {
        Some(name) => {
            let wrapping = key_named(ring, name.as_slice());
            add_wrapped_under(alloc, id, wrapping, key, pairs)
        }
        None => Ok(()),
    }
}

/// The parameters of BIB-HMAC-SHA2.
#[tactic(auto, unfolding(crate::specs::Parameters::hmac_parameters))]
pub(crate) fn integrity_parameters(
    alloc: Global,
    ring: &KeyRing,
    cover: &Cover,
) -> Result<List<Pair>, NoMemory>
    requires { HasKeys ring.now cover.now }
    ensures { IfOk result (λ pairs. pairs ≡ integrity_parameters ring.now cover.now) }
{
    let mut pairs = List::new(alloc);
    add_number(alloc, 1, cover.variant, &mut pairs)?;
    add_wrapped(alloc, 2, ring, cover, &mut pairs)?;
    add_number(alloc, 3, cover.scope % 8, &mut pairs)?;
    Ok(pairs)
}

/// The parameters of BCB-AES-GCM.
#[tactic(auto, unfolding(crate::specs::Parameters::gcm_parameters))]
pub(crate) fn cipher_parameters(
    alloc: Global,
    ring: &KeyRing,
    cover: &Cover,
    vector: &[u8],
) -> Result<List<Pair>, NoMemory>
    requires { HasKeys ring.now cover.now }
    ensures { IfOk result (λ pairs. pairs ≡ cipher_parameters ring.now cover.now vector.now) }
{
    let mut pairs = List::new(alloc);
    add_bytes(alloc, 1, vector, &mut pairs)?;
    add_number(alloc, 2, cover.variant, &mut pairs)?;
    add_wrapped(alloc, 3, ring, cover, &mut pairs)?;
    add_number(alloc, 4, cover.scope % 8, &mut pairs)?;
    Ok(pairs)
}

/// What bytes are: numbers below 256.
fn are_bytes(bytes: &[u8])
    ensures { (i : ℕ) → slice_index bytes.now i < 256 }
{
    let _len = bytes.len();
}

/// The key that the context is handed.
pub(crate) fn outer_key<'a>(ring: &'a KeyRing, cover: &Cover) -> &'a [u8]
    requires { HasKeys ring.now cover.now }
    ensures value { result.now ≡ outer_key ring.now cover.now }
    ensures short { length result.now ≤ 64 }
    ensures bytes { (i : ℕ) → slice_index (outer_key ring.now cover.now) i < 256 }
    ensures working { (i : ℕ) → slice_index (key_of_cover ring.now cover.now) i < 256 }
{
    let key = key_named(ring, cover.key.as_slice());
    are_bytes(key);
    match &cover.wrapped_with {
        Some(name) => {
            let wrapping = key_named(ring, name.as_slice());
            are_bytes(wrapping);
            wrapping
        }
        None => key,
    }
}
