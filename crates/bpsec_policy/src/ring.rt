//! Key rings.

ghost use Rattle.std.specs.Prelude.{◌≡◌, ◌∷◌, [], codes, IsTrue, IfOk, option_map};
ghost use Rattle.std.specs.Str.{bytes_eq};
ghost use Rattle.cbor_profile.specs.Step.{Gives};
ghost use Rattle.serde_json.specs.View.{view};
ghost use Rattle.bp_text.specs.Fault.{IsTextError};
ghost use Rattle.bpsec_policy.specs.Ring.{is_ring, key_of};
ghost use Rattle.bpsec_policy.specs.RingText.{is_key_shape, key_at, is_ring_shape, ring_at, ring_of};

use bp_text::{
    Entry, Field, FieldFault, Kind, Names, TextError, TextReason, has, has_only, hex_field,
    is_short, laws, list_field, read_entries, read_tree, refused, version_field,
};
use cbor_profile::{Bytes, List};
use serde_json::Value;
use std::alloc::Global;
use std::marker::Model;

/// The most keys of a ring.
pub const KEY_LIMIT: usize = 256;

/// A key of 16 to 64 bytes, and its name.
#[derive(Debug, Drop)]
pub struct NamedKey {
    pub name: Bytes,
    pub key: Bytes,
}

/// Keys under names. A contract sees it as the list of its keys, whose names differ.
#[derive(Debug, Drop)]
pub struct KeyRing {
    keys: List<NamedKey>,
}

impl Model for KeyRing {
    ghost use Rattle.std.specs.Prelude.{List, IsTrue};
    ghost use Rattle.bpsec_policy.specs.declared.ring.NamedKey.{NamedKey};
    ghost use Rattle.bpsec_policy.specs.Ring.{is_ring};

    ghost Value = { List NamedKey };

    ghost view = { λ r. r.keys };

    ghost invariant = { λ r. IsTrue (is_ring r.keys) };
}

/// Whether the tree has the shape of a key of a ring.
#[tactic(auto, unfolding(crate::specs::RingText::is_key_shape))]
fn is_key_shape(tree: &Value) -> bool
    ensures { result ≡ is_key_shape (view tree.now) }
{
    has_only(tree, &["name", "key"])
        && has(tree, "name", Kind::Name)
        && has(tree, "key", Kind::Text)
}

impl Entry for NamedKey {
    ghost reads = { λ version. key_at };

    #[tactic(auto, unfolding(crate::specs::RingText::key_at))]
    fn read(alloc: Global, _version: u64, tree: &Value) -> Result<NamedKey, FieldFault> {
        if !is_key_shape(tree) {
            return Err(FieldFault::WrongShape);
        }
        let name = match Bytes::read(alloc, tree, "name") {
            Ok(name) => name,
            Err(fault) => return Err(fault),
        };
        match hex_field(alloc, tree, "key", 16, 64) {
            Ok(key) => Ok(NamedKey { name, key }),
            Err(fault) => Err(fault),
        }
    }
}

/// Whether the tree has the shape of a ring.
#[tactic(auto, unfolding(crate::specs::RingText::is_ring_shape))]
fn is_ring_shape(tree: &Value) -> bool
    ensures { result ≡ is_ring_shape (view tree.now) }
{
    has_only(tree, &["version", "keys"]) && has(tree, "keys", Kind::Array { least: 0 })
}

/// The keys of a ring's tree.
#[tactic(auto, unfolding(crate::specs::RingText::ring_at))]
fn keys_of(alloc: Global, tree: &Value) -> Result<List<NamedKey>, TextError>
    ensures { Gives IsTextError (λ keys. keys) result (ring_at (view tree.now)) }
{
    match version_field(tree, &[1]) {
        Ok(_) => {}
        Err(e) => return Err(e),
    }
    if !is_ring_shape(tree) {
        return Err(refused(TextReason::WrongShape));
    }
    if !is_short(tree, "keys", KEY_LIMIT) {
        return Err(refused(TextReason::TooMany));
    }
    let Some(keys) = list_field(tree, "keys") else {
        return Err(refused(TextReason::WrongShape));
    };
    let mut names = Names::new(alloc);
    read_entries(alloc, 1, keys, 0, &mut names)
}

impl KeyRing {
    /// The ring of these keys. Takes no memory.
    pub fn of(keys: List<NamedKey>) -> KeyRing
        requires { IsTrue (is_ring keys) }
        ensures { result ≡ keys }
    {
        KeyRing { keys }
    }

    /// The keys, in their order. Takes no memory.
    pub fn keys(&self) -> &[NamedKey]
        ensures value { result.now ≡ self.now }
        ensures rule { IsTrue (is_ring self.now) }
    {
        self.keys.items()
    }

    /// The key with a name. Takes no memory.
    pub fn key(&self, name: &[u8]) -> Option<&[u8]>
        ensures { option_map (λ key. key.now) result ≡ key_of self.now name.now }
    {
        match self.keys.items().iter().find(|k| k.name.as_slice() == name) {
            Some(found) => Some(found.key.as_slice()),
            None => None,
        }
    }

    /// The ring whose text this is, or the first fault.
    pub fn from_json(alloc: Global, bytes: &[u8]) -> Result<KeyRing, TextError>
        ensures { Gives IsTextError (λ ring. ring) result (ring_of bytes.now) }
    {
        laws::names_stand_once::<NamedKey>();
        laws::entries_are_alike::<NamedKey>();
        let tree = match read_tree(alloc, bytes) {
            Ok(tree) => tree,
            Err(e) => return Err(e),
        };
        match keys_of(alloc, &tree) {
            Ok(keys) => Ok(KeyRing { keys }),
            Err(e) => Err(e),
        }
    }
}
