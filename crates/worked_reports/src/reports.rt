//! Calls of `bp_status`.

use bp_status::{Assertion, Extent, Report};
use cbor_profile::Bytes;
use std::alloc::Global;
use worked_tables::{Fields, Told, Trouble, answer, hex, spell_error, text};
use worked_values::{eid, id_text};

pub fn told(alloc: Global, call: &str, row: &mut Fields) -> Told {
    match call {
        "report" => answer(read(alloc, row)),
        "report-fronts" => answer(fronts(alloc, row)),
        "report-put" => answer(put(alloc, row)),
        _ => Ok(None),
    }
}

/// A report in words.
fn report_text(alloc: Global, report: &Report) -> Result<String, Trouble> {
    let received = report.received;
    let forwarded = report.forwarded;
    let delivered = report.delivered;
    let deleted = report.deleted;
    let reason = report.reason;
    let source = id_text(alloc, &report.source)?;
    let source = source.as_str();
    let created = report.created;
    let sequence = report.sequence;
    let mut out = format!(in alloc;
        "{received:?} {forwarded:?} {delivered:?} {deleted:?} reason={reason} source={source} created={created} sequence={sequence}"
    )?;
    if let Some(extent) = report.piece {
        let offset = extent.offset;
        let length = extent.length;
        let piece = format!(in alloc; " offset={offset} length={length}")?;
        out.push_str(piece.as_str())?;
    }
    Ok(out)
}

/// `report BODY`: the report in words, if it is written as it was read, and has the size of that; or the first fault.
fn read(alloc: Global, row: &mut Fields) -> Result<String, Trouble> {
    let body = row.bytes(alloc)?;
    let report = match Report::read(alloc, &body) {
        Ok(report) => report,
        Err(error) => return spell_error(alloc, error),
    };
    let mut out = Bytes::new(alloc);
    report.put(&mut out)?;
    if out.as_slice() != body.as_slice() || report.size() != body.len() as u64 {
        return text(alloc, "written otherwise");
    }
    report_text(alloc, &report)
}

/// `report-fronts BODY`: whether each proper front of the bytes is cut off at its end, and nowhere else at fault.
fn fronts(alloc: Global, row: &mut Fields) -> Result<String, Trouble> {
    let body = row.bytes(alloc)?;
    for length in 0..body.len() {
        let came = match Report::read(alloc, &body[..length]) {
            Ok(_) => text(alloc, "a report")?,
            Err(error) => spell_error(alloc, error)?,
        };
        let wanted = format!(in alloc; "fault {length} Truncated")?;
        if came.as_str() != wanted.as_str() {
            return Ok(format!(in alloc; "the front of {length} bytes is not")?);
        }
    }
    text(alloc, "each is cut off at its end")
}

/// The assertion of the next field: `no`, `yes`, or the time.
fn assertion(row: &mut Fields) -> Result<Assertion, Trouble> {
    let mut after = *row;
    match after.word()? {
        "no" => {
            *row = after;
            Ok(Assertion::No)
        }
        "yes" => {
            *row = after;
            Ok(Assertion::Yes)
        }
        _ => Ok(Assertion::At(row.number()?)),
    }
}

/// The extent of the fields that are left, if any is.
fn extent(row: &mut Fields) -> Result<Option<Extent>, Trouble> {
    if row.is_over() {
        return Ok(None);
    }
    let offset = row.number()?;
    let length = row.number()?;
    Ok(Some(Extent { offset, length }))
}

/// `report-put RECEIVED FORWARDED DELIVERED DELETED REASON SOURCE CREATED SEQUENCE`, and on a fragment `OFFSET LENGTH`: the
/// bytes that are written of this report.
fn put(alloc: Global, row: &mut Fields) -> Result<String, Trouble> {
    let report = Report {
        received: assertion(row)?,
        forwarded: assertion(row)?,
        delivered: assertion(row)?,
        deleted: assertion(row)?,
        reason: row.number()?,
        source: eid(alloc, row)?,
        created: row.number()?,
        sequence: row.number()?,
        piece: extent(row)?,
    };
    let mut out = Bytes::new(alloc);
    report.put(&mut out)?;
    hex(alloc, out.as_slice())
}
