//! Calls of `bp_eid`.

use bp_eid::reading::id;
use bp_eid::{DtnText, Eid, ReadError};
use cbor_profile::{Bytes, Feed, Gather};
use std::alloc::Global;
use worked_tables::{Fields, Told, Trouble, answer, hex, spell_error, text};
use worked_values::{eid, id_text};

pub fn told(alloc: Global, call: &str, row: &mut Fields) -> Told {
    match call {
        "id" => answer(read(alloc, row)),
        "id-front" => answer(read_front(alloc, row)),
        "id-whole" => answer(read_whole(alloc, row)),
        "id-text" => answer(parsed(alloc, row)),
        "same-node" => answer(same_node(alloc, row)),
        "dtn-text" => answer(dtn_text(alloc, row)),
        _ => Ok(None),
    }
}

/// `id BYTES`: how many bytes spell the id at their front, and its text; or their first fault.
fn read(alloc: Global, row: &mut Fields) -> Result<String, Trouble> {
    let bytes = row.bytes(alloc)?;
    match Eid::read(alloc, &bytes) {
        Ok(at) => {
            let len = at.len;
            let text = id_text(alloc, &at.eid)?;
            let text = text.as_str();
            Ok(format!(in alloc; "{len} {text}")?)
        }
        Err(error) => spell_error(alloc, error),
    }
}

/// `id-front BYTES`: the text of the id at their front, and what follows it.
fn read_front(alloc: Global, row: &mut Fields) -> Result<String, Trouble> {
    let bytes = row.bytes(alloc)?;
    match id(alloc, &bytes) {
        Ok((eid, rest)) => {
            let text = id_text(alloc, &eid)?;
            let text = text.as_str();
            let rest = hex(alloc, rest)?;
            let rest = rest.as_str();
            Ok(format!(in alloc; "{text} {rest}")?)
        }
        Err(ReadError::NoMemory) => Err(Trouble::NoMemory),
        Err(ReadError::Stop(_)) => text(alloc, "stops"),
    }
}

/// `id-whole BYTES`: the text of the id that all of them spell, or none.
fn read_whole(alloc: Global, row: &mut Fields) -> Result<String, Trouble> {
    let bytes = row.bytes(alloc)?;
    match Eid::read_whole(alloc, &bytes)? {
        Some(eid) => id_text(alloc, &eid),
        None => text(alloc, "none"),
    }
}

/// Feeds an id, as a caller does that knows the trait alone.
fn feed_id<F: Feed>(eid: &Eid, into: &mut F) {
    eid.feed_into(into);
}

/// `id-text TEXT`: the spelling of the id with this text, put and fed by a copy, or none.
fn parsed(alloc: Global, row: &mut Fields) -> Result<String, Trouble> {
    let given = row.text()?;
    let Some(eid) = Eid::parse_text(alloc, given)? else {
        return text(alloc, "none");
    };
    let eid = eid.copy(alloc)?;
    let mut out = Bytes::new(alloc);
    eid.put(&mut out)?;
    let mut fed = Gather::new(alloc);
    feed_id(&eid, &mut fed);
    if fed.finish()?.as_slice() != out.as_slice() {
        return text(alloc, "fed otherwise");
    }
    if eid.size() != out.len() as u64 {
        return text(alloc, "another size");
    }
    if id_text(alloc, &eid)?.as_str() != given {
        return text(alloc, "another text");
    }
    hex(alloc, out.as_slice())
}

/// `same-node ID ID`: whether the node of both is the same.
fn same_node(alloc: Global, row: &mut Fields) -> Result<String, Trouble> {
    let one = eid(alloc, row)?;
    let other = eid(alloc, row)?;
    let same = one.same_node(&other);
    Ok(format!(in alloc; "{same}")?)
}

/// `dtn-text BYTES`: whether they are the text of an id of the scheme dtn, and its node's name.
fn dtn_text(alloc: Global, row: &mut Fields) -> Result<String, Trouble> {
    let bytes = row.bytes(alloc)?;
    match DtnText::of(Bytes::of(bytes)) {
        Ok(dtn) => hex(alloc, dtn.copy(alloc)?.node_name()),
        Err(_) => text(alloc, "none"),
    }
}
