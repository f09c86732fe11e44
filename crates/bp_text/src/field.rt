//! Fields of an object.

ghost use Rattle.std.specs.Prelude.{◌≡◌, map, option_map};
ghost use Rattle.cbor_profile.specs.Step.{Gives};
ghost use Rattle.serde_json.specs.View.{view};
ghost use Rattle.bp_text.specs.Fault.{IsFieldFault};
ghost use Rattle.bp_text.specs.Tree.{number_at, signed_at, text_at, flag_at, values_of, list_at};
ghost use Rattle.bp_text.specs.Field.{eid_at, hex_at};

use crate::fault::FieldFault;
use bp_eid::Eid;
use cbor_profile::Bytes;
use hex::FromHexError;
use serde_json::Value;
use std::alloc::Global;

/// The whole number from 0 to 18446744073709551615 at a key. Takes no memory.
pub fn number_field(tree: &Value, key: &str) -> Option<u64>
    ensures { result ≡ number_at key.now (view tree.now) }
{
    tree.get(key).and_then(Value::as_u64)
}

/// The whole number from -9223372036854775808 to 9223372036854775807 at a key. Takes no memory.
pub fn signed_field(tree: &Value, key: &str) -> Option<i64>
    ensures { result ≡ signed_at key.now (view tree.now) }
{
    tree.get(key).and_then(Value::as_i64)
}

/// The text at a key. Takes no memory.
pub fn word_field<'a>(tree: &'a Value, key: &str) -> Option<&'a str>
    ensures { option_map (λ text. text.now) result ≡ text_at key.now (view tree.now) }
{
    tree.get(key).and_then(Value::as_str)
}

/// The truth value at a key. Takes no memory.
pub fn flag_field(tree: &Value, key: &str) -> Option<bool>
    ensures { result ≡ flag_at key.now (view tree.now) }
{
    tree.get(key).and_then(Value::as_bool)
}

/// The values of an array. Takes no memory.
pub fn values_of(value: &Value) -> Option<&[Value]>
    ensures { option_map (λ values. map view values.now) result ≡ values_of (view value.now) }
{
    match value.as_array() {
        Some(values) => Some(values.as_slice()),
        None => None,
    }
}

/// The values of the array at a key. Takes no memory.
pub fn list_field<'a>(tree: &'a Value, key: &str) -> Option<&'a [Value]>
    ensures { option_map (λ values. map view values.now) result ≡ list_at key.now (view tree.now) }
{
    match tree.get(key) {
        Some(value) => values_of(value),
        None => None,
    }
}

/// The endpoint id at a key: WrongShape where no text is there, UnknownWord where it is the text of no id.
#[tactic(auto, unfolding(crate::specs::Field::eid_at))]
pub fn eid_field(alloc: Global, tree: &Value, key: &str) -> Result<Eid, FieldFault>
    ensures { Gives IsFieldFault (λ eid. eid) result (eid_at key.now (view tree.now)) }
{
    let Some(text) = word_field(tree, key) else {
        return Err(FieldFault::WrongShape);
    };
    match Eid::parse_text(alloc, text) {
        Ok(Some(eid)) => Ok(eid),
        Ok(None) => Err(FieldFault::UnknownWord),
        Err(error) => Err(error.into()),
    }
}

/// The bytes in hexadecimal at a key: WrongShape where no text is there, BadHex where it isn't hexadecimal, or its bytes
/// are fewer than `least` or more than `most`.
#[tactic(auto, unfolding(crate::specs::Field::hex_at))]
pub fn hex_field(
    alloc: Global,
    tree: &Value,
    key: &str,
    least: u64,
    most: u64,
) -> Result<Bytes, FieldFault>
    ensures { Gives IsFieldFault (λ bytes. bytes) result
        (hex_at least most key.now (view tree.now)) }
{
    let Some(text) = word_field(tree, key) else {
        return Err(FieldFault::WrongShape);
    };
    match hex::decode(alloc, text) {
        Ok(bytes) => {
            let len = bytes.len() as u64;
            if least <= len && len <= most {
                Ok(Bytes::of(bytes))
            } else {
                Err(FieldFault::BadHex)
            }
        }
        Err(FromHexError::OutOfMemory) => Err(FieldFault::NoMemory),
        Err(_) => Err(FieldFault::BadHex),
    }
}
