//! The shape of an object: which keys it may have, and of which kind their values are.

ghost use Rattle.std.specs.Prelude.{◌≡◌, ◌==◌, ◌&&◌, nat_le, ◌∷◌, [], codes, is_some, map, string_bytes};
ghost use Rattle.std.specs.List.{list_all, list_any};
ghost use Rattle.std.specs.BTreeMap.{keys as keys_of};
ghost use Rattle.std.specs.Str.{bytes_eq};
ghost use Rattle.serde_json.specs.View.{view};
ghost use Rattle.bp_text.specs.Shape.{is_name, is_of, has, may_have, has_only, whole, wholes, are_distinct, are_distinct_wholes};

use crate::field::values_of;
use serde_json::{Map, Value};

/// A kind of value.
#[derive(Clone, Copy, Debug, PartialEq, Eq)]
pub enum Kind {
    /// Any text.
    Text,
    /// A text of 1 to 64 visible characters (0x21 to 0x7e).
    Name,
    /// A whole number from 0 to `most`.
    Number { most: u64 },
    /// A whole number from -9223372036854775808 to 9223372036854775807.
    Signed,
    /// True or false.
    Flag,
    /// Any object.
    Object,
    /// An array of at least `least` values.
    Array { least: usize },
    /// An array of 1 to `most` whole numbers from 0 to 18446744073709551615, none of which stands twice.
    Distinct { most: usize },
}

/// Whether every byte is a visible character.
fn all_visible(text: &[u8]) -> bool
    ensures { result ≡ list_all (λ b. nat_le 33 b && nat_le b 126) text.now }
{
    text.iter().all(|b| 0x21 <= *b && *b <= 0x7e)
}

/// Whether the text is a name.
#[tactic(auto, unfolding(crate::specs::Shape::is_name))]
pub fn is_name(text: &str) -> bool
    ensures { result ≡ is_name text.now }
{
    1 <= text.len() && text.len() <= 64 && all_visible(text.as_bytes())
}

/// Whether a number is among the values.
fn is_among(number: u64, values: &[Value]) -> bool
    ensures { result ≡ list_any (λ m. m == number) (wholes (map view values.now)) }
{
    match values {
        [] => false,
        [first, rest @ ..] => first.as_u64() == Some(number) || is_among(number, rest),
    }
}

/// Whether no number stands twice among the values.
fn are_distinct(values: &[Value]) -> bool
    ensures { result ≡ are_distinct (wholes (map view values.now)) }
{
    match values {
        [] => true,
        [first, rest @ ..] => match first.as_u64() {
            Some(number) => !is_among(number, rest) && are_distinct(rest),
            None => are_distinct(rest),
        },
    }
}

/// Whether every value is a whole number.
fn all_whole(values: &[Value]) -> bool
    ensures { result ≡ list_all (λ d. is_some (whole d)) (map view values.now) }
{
    match values {
        [] => true,
        [first, rest @ ..] => first.is_u64() && all_whole(rest),
    }
}

/// Whether the values are 1 to `most` whole numbers, none of which stands twice.
fn are_distinct_wholes(most: usize, values: &[Value]) -> bool
    ensures { result ≡ are_distinct_wholes most (map view values.now) }
{
    1 <= values.len() && values.len() <= most && all_whole(values) && are_distinct(values)
}

impl Kind {
    /// Whether the value is of the kind. Takes no memory.
    #[tactic(auto, unfolding(crate::specs::Shape::is_of))]
    pub fn is_of(self, value: &Value) -> bool
        ensures { result ≡ is_of self (view value.now) }
    {
        match self {
            Kind::Text => value.is_string(),
            Kind::Name => match value.as_str() {
                Some(text) => is_name(text),
                None => false,
            },
            Kind::Number { most } => match value.as_u64() {
                Some(number) => number <= most,
                None => false,
            },
            Kind::Signed => value.is_i64(),
            Kind::Flag => value.is_boolean(),
            Kind::Object => value.is_object(),
            Kind::Array { least } => match values_of(value) {
                Some(values) => least <= values.len(),
                None => false,
            },
            Kind::Distinct { most } => match values_of(value) {
                Some(values) => are_distinct_wholes(most, values),
                None => false,
            },
        }
    }
}

/// Whether the tree is an object that has the key, with a value of the kind. Takes no memory.
#[tactic(auto, unfolding(crate::specs::Shape::has))]
pub fn has(tree: &Value, key: &str, kind: Kind) -> bool
    ensures { result ≡ has kind key.now (view tree.now) }
{
    match tree.get(key) {
        Some(value) => kind.is_of(value),
        None => false,
    }
}

/// Whether the value of the key is of the kind, if the tree has the key. Takes no memory.
#[tactic(auto, unfolding(crate::specs::Shape::may_have))]
pub fn may_have(tree: &Value, key: &str, kind: Kind) -> bool
    ensures { result ≡ may_have kind key.now (view tree.now) }
{
    match tree.get(key) {
        Some(value) => kind.is_of(value),
        None => true,
    }
}

/// Whether the key is among these.
fn is_listed(keys: &[&str], key: &str) -> bool
    ensures { result ≡ list_any (λ k. bytes_eq k.now key.now) keys.now }
{
    keys.iter().any(|k| *k == key)
}

/// Whether all keys of the object are among these.
fn all_listed(keys: &[&str], members: &Map<String, Value>) -> bool
    ensures { result
        ≡ list_all (λ key. list_any
        (λ k. bytes_eq k.now (string_bytes key)) keys.now) (keys_of members.now) }
{
    members.keys().all(|key| is_listed(keys, key.as_str()))
}

/// Whether the tree is an object that has no other keys than these. Takes no memory.
#[tactic(auto, unfolding(crate::specs::Shape::has_only))]
pub fn has_only(tree: &Value, keys: &[&str]) -> bool
    ensures { result ≡ has_only (map (λ k. k.now) keys.now) (view tree.now) }
{
    match tree.as_object() {
        Some(members) => all_listed(keys, members),
        None => false,
    }
}
