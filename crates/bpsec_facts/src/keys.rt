//! The reasons that speak of keys and of initialisation vectors.

ghost use Rattle.std.specs.Prelude.{◌≡◌};
ghost use Rattle.std.specs.List.{list_any};
ghost use Rattle.bpsec_facts.specs.View.{facts};
ghost use Rattle.bpsec_facts.specs.Refusal.{lacks_if_any, lacks_key, no_key, key_named, words_of, is_wrappable, is_wrapping, cannot_wrap, cover_cannot_wrap, key_length, iv_shared, is_used, iv_repeated};

use crate::case::Case;
use bpsec_plan::{Cover, Item};
use bpsec_policy::KeyRing;
use cbor_profile::Bytes;

// ---- keys

fn lacks_if_any(ring: &KeyRing, name: &Option<Bytes>) -> bool
    ensures { result ≡ lacks_if_any ring.now name.now }
{
    match name {
        Some(name) => ring.key(name.as_slice()).is_none(),
        None => false,
    }
}

/// Whether the ring has no key of a named name.
fn lacks_key(ring: &KeyRing, cover: &Cover) -> bool
    ensures { result ≡ lacks_key ring.now cover.now }
{
    ring.key(cover.key.as_slice()).is_none() || lacks_if_any(ring, &cover.wrapped_with)
}

#[tactic(auto, unfolding(crate::specs::Refusal::no_key))]
pub(crate) fn no_key(case: &Case, item: &Item) -> bool
    ensures { result ≡ no_key (facts case.now) item.now }
{
    match item {
        Item::Bib(cover) => lacks_key(case.ring, cover),
        Item::Bcb { cover, .. } => lacks_key(case.ring, cover),
        Item::Split(_) => false,
    }
}

/// The key of this name, or no bytes.
pub fn key_named<'a>(ring: &'a KeyRing, name: &[u8]) -> &'a [u8]
    ensures { result.now ≡ key_named ring.now name.now }
{
    match ring.key(name) {
        Some(key) => key,
        None => &[],
    }
}

fn is_wrappable(key: &[u8]) -> bool
    ensures { result ≡ is_wrappable key.now }
{
    16 <= key.len() && key.len() <= 64 && key.len() % 8 == 0
}

fn is_wrapping(key: &[u8]) -> bool
    ensures { result ≡ is_wrapping key.now }
{
    key.len() == 16 || key.len() == 32
}

fn cannot_wrap(ring: &KeyRing, key: &[u8], name: &Option<Bytes>) -> bool
    ensures { result ≡ cannot_wrap ring.now key.now name.now }
{
    match name {
        Some(name) => !is_wrappable(key) || !is_wrapping(key_named(ring, name.as_slice())),
        None => false,
    }
}

fn cover_cannot_wrap(ring: &KeyRing, cover: &Cover) -> bool
    ensures { result ≡ cover_cannot_wrap ring.now cover.now }
{
    cannot_wrap(
        ring,
        key_named(ring, cover.key.as_slice()),
        &cover.wrapped_with,
    )
}

/// How many words the key of a variant has.
fn words_of(variant: u64) -> usize
    ensures value { result ≡ words_of variant }
{
    if variant == 1 { 4 } else { 8 }
}

#[tactic(auto, unfolding(crate::specs::Refusal::key_length))]
pub(crate) fn key_length(case: &Case, item: &Item) -> bool
    ensures { result ≡ key_length (facts case.now) item.now }
{
    match item {
        Item::Bib(cover) => cover_cannot_wrap(case.ring, cover),
        Item::Bcb { cover, .. } => {
            let key = key_named(case.ring, cover.key.as_slice());
            key.len() != 4 * words_of(cover.variant) || cover_cannot_wrap(case.ring, cover)
        }
        Item::Split(_) => false,
    }
}

// ---- vectors

#[tactic(auto, unfolding(crate::specs::Refusal::iv_shared))]
pub(crate) fn iv_shared(item: &Item) -> bool
    ensures { result ≡ iv_shared item.now }
{
    match item {
        Item::Bcb {
            cover,
            shared_iv,
            ..
        } => 1 < cover.targets.items().len() && !*shared_iv,
        Item::Bib(_) | Item::Split(_) => false,
    }
}

/// Whether the item uses this key and this vector.
fn is_used(ring: &KeyRing, key: &[u8], vector: &[u8], item: &Item) -> bool
    ensures { result ≡ is_used ring.now key.now vector.now item.now }
{
    match item {
        Item::Bcb { cover, iv, .. } => {
            key_named(ring, cover.key.as_slice()) == key && iv.as_slice() == vector
        }
        Item::Bib(_) | Item::Split(_) => false,
    }
}

fn some_used(ring: &KeyRing, key: &[u8], vector: &[u8], before: &[Item]) -> bool
    ensures { result ≡ list_any (is_used ring.now key.now vector.now) before.now }
{
    before
        .iter()
        .any(|earlier| is_used(ring, key, vector, earlier))
}

#[tactic(auto, unfolding(crate::specs::Refusal::iv_repeated))]
pub(crate) fn iv_repeated(case: &Case, before: &[Item], item: &Item) -> bool
    ensures { result ≡ iv_repeated (facts case.now) before.now item.now }
{
    match item {
        Item::Bcb { cover, iv, .. } => {
            let key = key_named(case.ring, cover.key.as_slice());
            some_used(case.ring, key, iv.as_slice(), before)
        }
        Item::Bib(_) | Item::Split(_) => false,
    }
}
