//! Calls of `bp_blocks` and `bp_primary`.

use bp_blocks::{Block, BodyFault, Hops, age, hop_count, previous_node, put_age, put_hops};
use bp_primary::{Piece, Primary};
use cbor_profile::{Bytes, Gather};
use std::alloc::Global;
use worked_tables::{Fields, Told, Trouble, answer, hex, text};
use worked_values::{check_kind, eid, id_text};

pub fn told(alloc: Global, call: &str, row: &mut Fields) -> Told {
    match call {
        "block" => answer(block(alloc, row)),
        "age" => answer(age_of(alloc, row)),
        "age-body" => answer(age_body(alloc, row)),
        "hops" => answer(hops_of(alloc, row)),
        "hops-body" => answer(hops_body(alloc, row)),
        "previous" => answer(previous(alloc, row)),
        "primary" => answer(primary(alloc, row)),
        _ => Ok(None),
    }
}

/// The block of the next fields: type, number, flags, check type and body.
pub fn block_of(alloc: Global, row: &mut Fields) -> Result<Block, Trouble> {
    let kind = row.number()?;
    let number = row.number()?;
    let flags = row.number()?;
    let crc = check_kind(row.number()?)?;
    let body = Bytes::of(row.bytes(alloc)?);
    Ok(Block {
        kind,
        number,
        flags,
        crc,
        body,
    })
}

/// `block TYPE NUMBER FLAGS CHECK BODY`: the spelling of a copy of the block.
fn block(alloc: Global, row: &mut Fields) -> Result<String, Trouble> {
    let block = block_of(alloc, row)?;
    let mut out = Bytes::new(alloc);
    block.copy(alloc)?.put(&mut out)?;
    if block.size() != out.len() as u64 {
        return text(alloc, "another size");
    }
    hex(alloc, out.as_slice())
}

/// `age BODY`: the age that a body tells.
fn age_of(alloc: Global, row: &mut Fields) -> Result<String, Trouble> {
    let body = row.bytes(alloc)?;
    let age = age(&body);
    Ok(format!(in alloc; "{age:?}")?)
}

/// `age-body AGE`: the body that tells it.
fn age_body(alloc: Global, row: &mut Fields) -> Result<String, Trouble> {
    let age = row.number()?;
    let mut out = Bytes::new(alloc);
    put_age(&mut out, age)?;
    hex(alloc, out.as_slice())
}

/// `hops BODY`: the hop count that a body tells.
fn hops_of(alloc: Global, row: &mut Fields) -> Result<String, Trouble> {
    let body = row.bytes(alloc)?;
    let hops = hop_count(&body);
    Ok(format!(in alloc; "{hops:?}")?)
}

/// `hops-body LIMIT COUNT`: the body that tells them.
fn hops_body(alloc: Global, row: &mut Fields) -> Result<String, Trouble> {
    let limit = row.number()?;
    let count = row.number()?;
    if limit < 1 || limit > 255 {
        return Err(Trouble::Row("a limit from 1 to 255"));
    }
    let mut out = Bytes::new(alloc);
    put_hops(&mut out, Hops { limit, count })?;
    hex(alloc, out.as_slice())
}

/// `previous BODY`: the text of the previous node that a body tells, or none.
fn previous(alloc: Global, row: &mut Fields) -> Result<String, Trouble> {
    let body = row.bytes(alloc)?;
    match previous_node(alloc, &body) {
        Ok(eid) => id_text(alloc, &eid),
        Err(BodyFault::Unreadable) => text(alloc, "none"),
        Err(BodyFault::NoMemory) => Err(Trouble::NoMemory),
    }
}

/// The place of a fragment, where the flags say that there is one.
fn piece_of(flags: u64, row: &mut Fields) -> Result<Option<Piece>, Trouble> {
    if flags % 2 == 1 {
        let offset = row.number()?;
        let total = row.number()?;
        return Ok(Some(Piece { offset, total }));
    }
    Ok(None)
}

/// The primary block of the next fields: flags, check type, destination, source, report-to, creation time, sequence number,
/// lifetime, and a fragment's offset and total length.
pub fn primary_of(alloc: Global, row: &mut Fields) -> Result<Primary, Trouble> {
    let flags = row.number()?;
    let crc = check_kind(row.number()?)?;
    let destination = eid(alloc, row)?;
    let source = eid(alloc, row)?;
    let report_to = eid(alloc, row)?;
    let created = row.number()?;
    let sequence = row.number()?;
    let lifetime = row.number()?;
    let fragment = piece_of(flags, row)?;
    if fragment.is_some() != (flags % 2 == 1) {
        return Err(Trouble::Row("the place of a fragment"));
    }
    Ok(Primary {
        flags,
        crc,
        destination,
        source,
        report_to,
        created,
        sequence,
        lifetime,
        fragment,
    })
}

/// `primary FIELDS`: the spelling of a copy of the block, put and fed, and whether it is that of a fragment.
fn primary(alloc: Global, row: &mut Fields) -> Result<String, Trouble> {
    let primary = primary_of(alloc, row)?;
    let mut out = Bytes::new(alloc);
    primary.copy(alloc)?.put(&mut out)?;
    let mut fed = Gather::new(alloc);
    primary.feed_into(&mut fed);
    if fed.finish()?.as_slice() != out.as_slice() {
        return text(alloc, "fed otherwise");
    }
    if primary.size() != out.len() as u64 {
        return text(alloc, "another size");
    }
    let is_fragment = primary.is_fragment();
    let spelled = hex(alloc, out.as_slice())?;
    let spelled = spelled.as_str();
    Ok(format!(in alloc; "{spelled} {is_fragment}")?)
}
