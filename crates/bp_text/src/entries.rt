//! Lists of entries.

ghost use Rattle.std.specs.Prelude.{◌≡◌, ◌+◌, ◌<◌, ◌^◌, ℕ, List, Result, Some, length, map, not, IfOk, IfErr, OnOk};
ghost use Rattle.cbor_profile.specs.Step.{Gives};
ghost use Rattle.serde_json.specs.Data.{Data};
ghost use Rattle.serde_json.specs.View.{view};
ghost use Rattle.bp_text.specs.declared.fault.TextReason.{TextReason};
ghost use Rattle.bp_text.specs.Fault.{IsFieldFault, IsTextError, at_entry};
ghost use Rattle.bp_text.specs.Names.{AreKnown};
ghost use Rattle.bp_text.specs.Entries.{entry_at, entries_at, is_taken, taking, taken_by, name_of};

use crate::fault::{FieldFault, TextError, TextFault, TextReason};
use crate::field::word_field;
use crate::names::Names;
use cbor_profile::List;
use serde_json::Value;
use std::alloc::Global;

/// An entry of a list in a text.
pub trait Entry: Sized + Drop {
    /// What the entry gives in a text of this version, without a look at the names before it.
    ghost reads: { ℕ → Data → Result Self TextReason };

    /// Reads the entry in a text of this version.
    fn read(alloc: Global, version: u64, tree: &Value) -> Result<Self, FieldFault>
        ensures { Gives IsFieldFault (λ entry. entry) result (reads version (view tree.now)) };
}

/// Notes the entry's name, and answers whether it is new. An entry without a name has a new one.
fn note_name(alloc: Global, tree: &Value, names: &mut Names) -> Result<bool, TextError>
    ensures is_new { (taken : List (List ℕ)) → AreKnown names.old taken
        → IfOk result (λ fresh. fresh ≡ not (is_taken taken (name_of (view tree.now)))) }
    ensures known { (taken : List (List ℕ)) → AreKnown names.old taken
        → OnOk result (AreKnown names.new (taking (name_of (view tree.now)) taken)) }
    ensures err { IfErr result (λ e. e ≡ TextError.NoMemory) }
{
    match word_field(tree, "name") {
        Some(name) => match names.note(alloc, name) {
            Ok(fresh) => Ok(fresh),
            Err(error) => Err(error.into()),
        },
        None => Ok(true),
    }
}

/// Reads one entry and notes its name.
fn read_entry<E: Entry>(
    alloc: Global,
    version: u64,
    tree: &Value,
    index: u64,
    names: &mut Names,
) -> Result<E, TextError>
    ensures gives { (taken : List (List ℕ)) → AreKnown names.old taken
        → Gives IsTextError (λ entry. entry) result (at_entry (Some index) (entry_at (E.reads version) taken (view tree.now))) }
    ensures known { (taken : List (List ℕ)) → AreKnown names.old taken
        → OnOk result (AreKnown names.new (taking (name_of (view tree.now)) taken)) }
{
    match E::read(alloc, version, tree) {
        Ok(entry) => match note_name(alloc, tree, names) {
            Ok(true) => Ok(entry),
            Ok(false) => Err(TextError::Fault(TextFault {
                entry: Some(index),
                reason: TextReason::RepeatedName,
            })),
            Err(e) => Err(e),
        },
        Err(fault) => Err(fault.at(Some(index))),
    }
}

/// Reads the entries of a list, the first of which has this index. `names` are those taken before.
pub fn read_entries<E: Entry>(
    alloc: Global,
    version: u64,
    values: &[Value],
    first: u64,
    names: &mut Names,
) -> Result<List<E>, TextError>
    requires { first + length values.now < 2 ^ 64 }
    ensures gives { (taken : List (List ℕ)) → AreKnown names.old taken
        → Gives IsTextError (λ entries. entries) result (entries_at (E.reads version) first taken (map view values.now)) }
    ensures known { (taken : List (List ℕ)) → AreKnown names.old taken
        → OnOk result (AreKnown names.new (taken_by taken (map view values.now))) }
{
    let mut entries = List::new(alloc);
    let mut index = first;
    for value in values {
        match read_entry(alloc, version, value, index, names) {
            Ok(entry) => match entries.append(entry) {
                Ok(()) => index += 1,
                Err(error) => return Err(error.into()),
            },
            Err(e) => return Err(e),
        }
    }
    Ok(entries)
}
