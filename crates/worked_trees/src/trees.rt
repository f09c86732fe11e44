//! Calls of `bp_text`.

use bp_eid::Eid;
use bp_text::{
    FieldFault, Kind, eid_field, flag_field, has, hex_field, is_short, number_field, optional,
    read_tree, signed_field, version_field, word_field,
};
use cbor_profile::Bytes;
use serde_json::Value;
use std::alloc::Global;
use worked_readers::{shown, text_error, text_of};
use worked_tables::{Fields, Told, Trouble, answer, hex, text};
use worked_values::id_text;

pub fn told(alloc: Global, call: &str, row: &mut Fields) -> Told {
    match call {
        "tree" => answer(tree(alloc, row)),
        "number" => answer(number(alloc, row)),
        "word" => answer(word(alloc, row)),
        "flag" => answer(flag(alloc, row)),
        "eid" => answer(eid(alloc, row)),
        "hex" => answer(digits(alloc, row)),
        "optional" => answer(optional_fields(alloc, row)),
        "has" => answer(shape(alloc, row)),
        "short" => answer(short(alloc, row)),
        "version" => answer(version(alloc, row)),
        _ => Ok(None),
    }
}

fn field_fault(alloc: Global, fault: FieldFault) -> Result<String, Trouble> {
    match fault {
        FieldFault::NoMemory => Err(Trouble::NoMemory),
        fault => {
            let fault = shown(alloc, &fault)?;
            text_of(alloc, &["fault ", fault.as_str()])
        },
    }
}

/// `tree BYTES`: what the tree of a text is, or its fault.
fn tree(alloc: Global, row: &mut Fields) -> Result<String, Trouble> {
    let bytes = row.bytes(alloc)?;
    match read_tree(alloc, &bytes) {
        Ok(tree) => match tree.as_u64() {
            Some(number) => {
                let number = shown(alloc, &number)?;
                text_of(alloc, &["number ", number.as_str()])
            },
            None if tree.is_array() => text(alloc, "array"),
            None => text(alloc, "another tree"),
        },
        Err(error) => text_error(alloc, error),
    }
}

/// The tree of the next field.
fn tree_of(alloc: Global, row: &mut Fields) -> Result<Value, Trouble> {
    match read_tree(alloc, row.text()?.as_bytes()) {
        Ok(tree) => Ok(tree),
        Err(_) => Err(Trouble::Row("a tree")),
    }
}

/// `number TREE KEY`: the number there, and the signed number there.
fn number(alloc: Global, row: &mut Fields) -> Result<String, Trouble> {
    let tree = tree_of(alloc, row)?;
    let key = row.word()?;
    let number = number_field(&tree, key);
    let signed = signed_field(&tree, key);
    let number = shown(alloc, &number)?;
    let signed = shown(alloc, &signed)?;
    text_of(alloc, &[number.as_str(), " ", signed.as_str()])
}

/// `word TREE KEY`: the text there.
fn word(alloc: Global, row: &mut Fields) -> Result<String, Trouble> {
    let tree = tree_of(alloc, row)?;
    match word_field(&tree, row.word()?) {
        Some(word) => text(alloc, word),
        None => text(alloc, "none"),
    }
}

/// `flag TREE KEY`: the flag there.
fn flag(alloc: Global, row: &mut Fields) -> Result<String, Trouble> {
    let tree = tree_of(alloc, row)?;
    let flag = flag_field(&tree, row.word()?);
    shown(alloc, &flag)
}

/// `eid TREE KEY`: the id there.
fn eid(alloc: Global, row: &mut Fields) -> Result<String, Trouble> {
    let tree = tree_of(alloc, row)?;
    match eid_field(alloc, &tree, row.word()?) {
        Ok(eid) => id_text(alloc, &eid),
        Err(fault) => field_fault(alloc, fault),
    }
}

/// `hex TREE KEY LEAST MOST`: the bytes whose digits stand there, if they are so many.
fn digits(alloc: Global, row: &mut Fields) -> Result<String, Trouble> {
    let tree = tree_of(alloc, row)?;
    let key = row.word()?;
    let least = row.number()?;
    let most = row.number()?;
    match hex_field(alloc, &tree, key, least, most) {
        Ok(bytes) => hex(alloc, bytes.as_slice()),
        Err(fault) => field_fault(alloc, fault),
    }
}

/// `optional TREE KEY KEY`: whether an id stands at the first key, and whether a text at the second.
fn optional_fields(alloc: Global, row: &mut Fields) -> Result<String, Trouble> {
    let tree = tree_of(alloc, row)?;
    let id = match optional::<Eid>(alloc, &tree, row.word()?) {
        Ok(id) => id.is_some(),
        Err(fault) => return field_fault(alloc, fault),
    };
    let bytes = match optional::<Bytes>(alloc, &tree, row.word()?) {
        Ok(bytes) => bytes.is_some(),
        Err(fault) => return field_fault(alloc, fault),
    };
    let id = shown(alloc, &id)?;
    let bytes = shown(alloc, &bytes)?;
    text_of(alloc, &[id.as_str(), " ", bytes.as_str()])
}

/// The shape that a word names.
fn kind_of(row: &mut Fields) -> Result<Kind, Trouble> {
    let word = row.word()?;
    let most = row.number()?;
    match word {
        "text" => Ok(Kind::Text),
        "name" => Ok(Kind::Name),
        "number" => Ok(Kind::Number { most }),
        "distinct" => Ok(Kind::Distinct {
            most: most as usize,
        }),
        _ => Err(Trouble::Row("a shape")),
    }
}

/// `has TREE KEY SHAPE MOST`: whether what stands there has the shape.
fn shape(alloc: Global, row: &mut Fields) -> Result<String, Trouble> {
    let tree = tree_of(alloc, row)?;
    let key = row.word()?;
    let has = has(&tree, key, kind_of(row)?);
    shown(alloc, &has)
}

/// `short TREE KEY MOST`: whether a list of at most so many stands there.
fn short(alloc: Global, row: &mut Fields) -> Result<String, Trouble> {
    let tree = tree_of(alloc, row)?;
    let key = row.word()?;
    let most = row.number()? as usize;
    let short = is_short(&tree, key, most);
    shown(alloc, &short)
}

/// `version TREE LEAST MOST`: the version of a text, if it is one of these two.
fn version(alloc: Global, row: &mut Fields) -> Result<String, Trouble> {
    let tree = tree_of(alloc, row)?;
    let versions = [row.number()?, row.number()?];
    match version_field(&tree, &versions) {
        Ok(version) => shown(alloc, &version),
        Err(error) => text_error(alloc, error),
    }
}
