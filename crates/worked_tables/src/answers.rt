//! Answers as texts.

use crate::Trouble;
use cbor_profile::SpellError;
use std::alloc::Global;

/// A text of its own.
pub fn text(alloc: Global, text: &str) -> Result<String, Trouble> {
    Ok(String::from_str(alloc, text)?)
}

/// Bytes in hexadecimal, or a dash where there are none.
pub fn hex(alloc: Global, bytes: &[u8]) -> Result<String, Trouble> {
    if bytes.is_empty() {
        return text(alloc, "-");
    }
    Ok(hex::encode(alloc, bytes)?)
}

/// What stands in the way of reading a spelling.
pub fn spell_error(alloc: Global, error: SpellError) -> Result<String, Trouble> {
    match error {
        SpellError::NoMemory => Err(Trouble::NoMemory),
        SpellError::Fault(fault) => {
            let place = fault.place;
            let reason = fault.reason;
            Ok(format!(in alloc; "fault {place} {reason:?}")?)
        }
    }
}

/// Lines, with strokes in place of their ends.
pub fn lines(alloc: Global, bytes: &[u8]) -> Result<String, Trouble> {
    let Ok(all) = std::str::from_utf8(bytes) else {
        return text(alloc, "no text");
    };
    let mut out = String::new(alloc);
    for line in all.lines() {
        if !out.is_empty() {
            out.push_str("|")?;
        }
        out.push_str(line)?;
    }
    Ok(out)
}
