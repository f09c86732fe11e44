//! Lists of entries of a text, at a type of one's own.

use bp_text::{
    Entry, Field, FieldFault, Names, TextError, TextFault, TextReason, list_field, read_entries,
    read_tree, refused,
};
use cbor_profile::{Bytes, List};
use serde_json::Value;
use std::alloc::Global;
use std::test::Fail;

/// An entry that has a name.
#[derive(Drop)]
struct Named(Bytes);

impl Entry for Named {
    ghost use Rattle.std.specs.Prelude.{codes, Result, Ok, Err};
    ghost use Rattle.cbor_profile.specs.Step.{◌>>=◌};
    ghost use Rattle.bp_text.specs.Field.{bytes_at};

    ghost reads = { λ version d. bytes_at (codes "name") d >>= λ name. Ok (record { 0 = name }) };

    fn read(alloc: Global, _version: u64, tree: &Value) -> Result<Named, FieldFault> {
        match Bytes::read(alloc, tree, "name") {
            Ok(name) => Ok(Named(name)),
            Err(fault) => Err(fault),
        }
    }
}

fn entries_of<E: Entry>(alloc: Global, tree: &Value, key: &str) -> Result<List<E>, TextError> {
    let mut names = Names::new(alloc);
    match list_field(tree, key) {
        Some(values) => read_entries(alloc, 1, values, 0, &mut names),
        None => Err(refused(TextReason::WrongShape)),
    }
}

#[test]
fn entries_of_a_type_of_ones_own(rt: HostRuntime) -> Result<(), Fail> {
    let alloc = rt.alloc();
    let tree = read_tree(
        alloc,
        br#"{"two":[{"name":"a"},{"name":"b"}],"twice":[{"name":"a"},{"name":"a"},{}],"bad":[{"name":"a"},{}]}"#,
    )?;
    assert_eq!(rt; entries_of::<Named>(alloc, &tree, "two")?.items().len(), 2);
    for (key, reason) in [
        ("twice", TextReason::RepeatedName),
        ("bad", TextReason::WrongShape),
    ] {
        let expected = TextFault {
            entry: Some(1),
            reason,
        };
        match entries_of::<Named>(alloc, &tree, key) {
            Err(TextError::Fault(fault)) => assert_eq!(rt; fault, expected),
            _ => assert!(rt; false, "{key}"),
        }
    }
    let mut names = Names::new(alloc);
    assert_eq!(rt; names.note(alloc, "a")?, true);
    assert_eq!(rt; names.note(alloc, "a")?, false);
    assert_eq!(rt; TextReason::NotABundle.number(), 9);
    Ok(())
}
