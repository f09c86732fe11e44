//! Bundles of rows, and their bytes.

use bp_bundle::{Bundle, Reader};
use cbor_profile::{Bytes, SpellError};
use std::alloc::Global;
use worked_tables::{Fields, Trouble, hex};

/// What reading these bytes gives, in pieces of this many.
pub fn read(alloc: Global, bytes: &[u8], size: usize) -> Result<Bundle, SpellError> {
    let mut reader = Reader::new(alloc);
    for piece in bytes.chunks(size.max(1)) {
        match reader.feed(piece) {
            Ok(fed) if !fed.done => {}
            _ => break,
        }
    }
    reader.finish()
}

/// The bundle of the next field.
pub fn bundle_of(alloc: Global, row: &mut Fields) -> Result<Bundle, Trouble> {
    let bytes = row.bytes(alloc)?;
    match read(alloc, &bytes, 65_536) {
        Ok(bundle) => Ok(bundle),
        Err(SpellError::NoMemory) => Err(Trouble::NoMemory),
        Err(SpellError::Fault(_)) => Err(Trouble::Row("a bundle")),
    }
}

/// A bundle's bytes in hexadecimal.
pub fn bundle_text(alloc: Global, bundle: &Bundle) -> Result<String, Trouble> {
    let mut out = Bytes::new(alloc);
    bundle.encode(&mut out)?;
    hex(alloc, out.as_slice())
}
