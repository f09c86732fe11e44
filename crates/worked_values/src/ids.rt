//! Ids and their texts.

use bp_eid::Eid;
use cbor_profile::Bytes;
use std::alloc::Global;
use worked_tables::{Fields, Trouble, text};

/// The id that the next field is the text of.
pub fn eid(alloc: Global, row: &mut Fields) -> Result<Eid, Trouble> {
    match Eid::parse_text(alloc, row.text()?)? {
        Some(eid) => Ok(eid),
        None => Err(Trouble::Row("the text of an id")),
    }
}

/// The text of an id.
pub fn id_text(alloc: Global, eid: &Eid) -> Result<String, Trouble> {
    let mut out = Bytes::new(alloc);
    eid.put_text_form(&mut out)?;
    match std::str::from_utf8(out.as_slice()) {
        Ok(form) => text(alloc, form),
        Err(_) => text(alloc, "no text"),
    }
}
