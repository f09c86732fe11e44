//! Fields of types that a text's value keeps.

ghost use Rattle.std.specs.Prelude.{◌≡◌, ℕ, List, Result, IfOk, OnOk, ◌++◌, map};
ghost use Rattle.std.specs.Option.{option_to_list};
ghost use Rattle.cbor_profile.specs.Step.{Gives};
ghost use Rattle.serde_json.specs.Data.{Data};
ghost use Rattle.serde_json.specs.View.{view};
ghost use Rattle.bp_text.specs.declared.fault.TextReason.{TextReason};
ghost use Rattle.bp_text.specs.Fault.{IsFieldFault};
ghost use Rattle.bp_text.specs.Field.{bytes_at, eid_at, whole_at, wholes_at, optional};
ghost use Rattle.bp_text.specs.Shape.{whole, wholes};

use crate::fault::FieldFault;
use crate::field::{eid_field, list_field, number_field, word_field};
use bp_eid::Eid;
use cbor_profile::{Bytes, List, NoMemory};
use serde_json::Value;
use std::alloc::Global;

/// A value that stands at a key of an object.
pub trait Field: Sized + Drop {
    /// What the key's value gives.
    ghost reads: { List ℕ → Data → Result Self TextReason };

    /// Reads the value at a key.
    fn read(alloc: Global, tree: &Value, key: &str) -> Result<Self, FieldFault>
        ensures { Gives IsFieldFault (λ field. field) result (reads key.now (view tree.now)) };
}

/// A text, as its bytes.
impl Field for Bytes {
    ghost reads = { bytes_at };

    fn read(alloc: Global, tree: &Value, key: &str) -> Result<Bytes, FieldFault> {
        let Some(text) = word_field(tree, key) else {
            return Err(FieldFault::WrongShape);
        };
        match Vec::from_slice(alloc, text.as_bytes()) {
            Ok(content) => Ok(Bytes::of(content)),
            Err(error) => Err(NoMemory::from(error).into()),
        }
    }
}

/// An endpoint id, as its text.
impl Field for Eid {
    ghost reads = { eid_at };

    fn read(alloc: Global, tree: &Value, key: &str) -> Result<Eid, FieldFault> {
        eid_field(alloc, tree, key)
    }
}

/// A whole number from 0 to 18446744073709551615.
impl Field for u64 {
    ghost reads = { whole_at };

    fn read(_alloc: Global, tree: &Value, key: &str) -> Result<u64, FieldFault> {
        match number_field(tree, key) {
            Some(number) => Ok(number),
            None => Err(FieldFault::WrongShape),
        }
    }
}

/// Appends the value, if it is a whole number.
fn push_whole(numbers: &mut Vec<u64>, value: &Value) -> Result<(), NoMemory>
    ensures { OnOk result (numbers.new.items
        ≡ numbers.old.items ++ option_to_list (whole (view value.now))) }
{
    if let Some(number) = value.as_u64() {
        numbers.push(number)?;
    }
    Ok(())
}

/// The whole numbers among the values.
fn wholes(alloc: Global, values: &[Value]) -> Result<Vec<u64>, NoMemory>
    ensures { IfOk result (λ numbers. numbers.items ≡ wholes (map view values.now)) }
{
    let mut numbers = Vec::new(alloc);
    for value in values {
        push_whole(&mut numbers, value)?;
    }
    Ok(numbers)
}

/// The whole numbers in a list.
impl Field for List<u64> {
    ghost reads = { wholes_at };

    fn read(alloc: Global, tree: &Value, key: &str) -> Result<List<u64>, FieldFault> {
        let Some(values) = list_field(tree, key) else {
            return Err(FieldFault::WrongShape);
        };
        match wholes(alloc, values) {
            Ok(numbers) => Ok(List::of(numbers)),
            Err(error) => Err(error.into()),
        }
    }
}

/// Reads the value at a key, if the tree has the key.
#[tactic(auto, unfolding(crate::specs::Field::optional))]
pub fn optional<T: Field>(alloc: Global, tree: &Value, key: &str) -> Result<Option<T>, FieldFault>
    ensures { Gives IsFieldFault (λ field. field) result
        (optional T.reads key.now (view tree.now)) }
{
    if tree.get(key).is_none() {
        return Ok(None);
    }
    match T::read(alloc, tree, key) {
        Ok(field) => Ok(Some(field)),
        Err(fault) => Err(fault),
    }
}
