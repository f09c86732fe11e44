//! Edits of bundles by `bp_bundle`.

use crate::blocks::block_of;
use crate::bundles::{count_of, size_of};
use bp_blocks::Block;
use bp_bundle::{Bundle, InsertFault, laws};
use bp_crc::CheckKind;
use cbor_profile::Bytes;
use std::alloc::Global;
use worked_tables::{Fields, Told, Trouble, answer, hex, text};
use worked_values::{bundle_of, bundle_text};

pub fn told(alloc: Global, call: &str, row: &mut Fields) -> Told {
    match call {
        "insert" => answer(inserted(alloc, row)),
        "remove" => answer(removed(alloc, row)),
        "replace" => answer(replaced(alloc, row)),
        "without-check" => answer(without_check(alloc, row)),
        _ => Ok(None),
    }
}

/// The size and the bytes of a bundle.
fn size_and_bytes(alloc: Global, bundle: &Bundle) -> Result<String, Trouble> {
    let size = size_of(bundle);
    let spelled = bundle_text(alloc, bundle)?;
    let spelled = spelled.as_str();
    Ok(format!(in alloc; "{size} {spelled}")?)
}

/// Inserts a block at the index of one.
fn insert_at(
    bundle: &mut Bundle,
    index: usize,
    block: Block,
) -> Result<Result<(), InsertFault>, Trouble> {
    if index >= bundle.blocks().len() {
        return Err(Trouble::Row("the index of a block"));
    }
    Ok(bundle.insert(index, block))
}

/// `insert BUNDLE INDEX BLOCK`: the bundle with the block at the index and its size, or why it isn't inserted.
fn inserted(alloc: Global, row: &mut Fields) -> Result<String, Trouble> {
    let mut bundle = bundle_of(alloc, row)?;
    let index = row.number()? as usize;
    let block = block_of(alloc, row)?;
    match insert_at(&mut bundle, index, block)? {
        Ok(()) => size_and_bytes(alloc, &bundle),
        Err(InsertFault::NoMemory) => Err(Trouble::NoMemory),
        Err(InsertFault::Shape(fault)) => {
            let blocks = count_of(&bundle);
            Ok(format!(in alloc; "{fault:?} blocks={blocks}")?)
        }
    }
}

/// Removes the block at an index before the payload. Its number.
fn remove_at(bundle: &mut Bundle, index: usize) -> Result<u64, Trouble> {
    let count = bundle.blocks().len();
    if count < 2 || index > count - 2 {
        return Err(Trouble::Row("the index of a block before the payload"));
    }
    Ok(bundle.remove(index).number)
}

/// `remove BUNDLE INDEX`: the number of the block that is removed, and the size and the bytes of what is left.
fn removed(alloc: Global, row: &mut Fields) -> Result<String, Trouble> {
    let mut bundle = bundle_of(alloc, row)?;
    let number = remove_at(&mut bundle, row.number()? as usize)?;
    let left = size_and_bytes(alloc, &bundle)?;
    let left = left.as_str();
    Ok(format!(in alloc; "{number} {left}")?)
}

/// Replaces the body at an index. The body that was there, or nothing where the new one is too long.
fn replace_at(bundle: &mut Bundle, index: usize, body: Bytes) -> Result<Option<Bytes>, Trouble> {
    if index >= bundle.blocks().len() {
        return Err(Trouble::Row("the index of a block"));
    }
    match bundle.replace_body(index, body) {
        Ok(old) => Ok(Some(old)),
        Err(_) => Ok(None),
    }
}

/// `replace BUNDLE INDEX BODY`: the body that was there, and the size and the bytes of the bundle with the new one.
fn replaced(alloc: Global, row: &mut Fields) -> Result<String, Trouble> {
    let mut bundle = bundle_of(alloc, row)?;
    let index = row.number()? as usize;
    let body = Bytes::of(row.bytes(alloc)?);
    let Some(old) = replace_at(&mut bundle, index, body)? else {
        return text(alloc, "too long");
    };
    let old = hex(alloc, old.as_slice())?;
    let old = old.as_str();
    let now = size_and_bytes(alloc, &bundle)?;
    let now = now.as_str();
    Ok(format!(in alloc; "{old} {now}")?)
}

/// Takes the check of the primary block off.
fn take_check_off(bundle: &mut Bundle) {
    laws::checks_have_sizes();
    let _before = bundle.size();
    bundle.set_crc(0, CheckKind::None);
}

/// `without-check BUNDLE`: its size, and the size and the bytes once the check of its primary block is taken off.
fn without_check(alloc: Global, row: &mut Fields) -> Result<String, Trouble> {
    let mut bundle = bundle_of(alloc, row)?;
    let before = size_of(&bundle);
    take_check_off(&mut bundle);
    let now = size_and_bytes(alloc, &bundle)?;
    let now = now.as_str();
    Ok(format!(in alloc; "{before} {now}")?)
}
