//! Policies and key rings of rows, the faults of their texts, and answers that are put together of pieces.
#![tactic(auto)]

use bp_text::TextError;
use bpsec_policy::{KeyRing, Policy};
use std::alloc::Global;
use std::fmt::Debug;
use worked_tables::{Fields, Trouble};

/// What stands in the way of reading a text.
pub fn text_error(alloc: Global, error: TextError) -> Result<String, Trouble> {
    match error {
        TextError::NoMemory => Err(Trouble::NoMemory),
        TextError::Fault(fault) => {
            let (entry, reason) = (fault.entry, fault.reason);
            match entry {
                Some(entry) => Ok(format!(in alloc; "fault {reason:?} at {entry}")?),
                None => Ok(format!(in alloc; "fault {reason:?}")?),
            }
        }
    }
}

/// The policy of the next field.
pub fn policy_of(alloc: Global, row: &mut Fields) -> Result<Policy, Trouble> {
    match Policy::from_json(alloc, row.text()?.as_bytes()) {
        Ok(policy) => Ok(policy),
        Err(_) => Err(Trouble::Row("a policy")),
    }
}

/// The key ring of the next field.
pub fn ring_of(alloc: Global, row: &mut Fields) -> Result<KeyRing, Trouble> {
    match KeyRing::from_json(alloc, row.text()?.as_bytes()) {
        Ok(ring) => Ok(ring),
        Err(_) => Err(Trouble::Row("a key ring")),
    }
}

/// A value as the code names it.
pub fn shown<T: Debug>(alloc: Global, value: &T) -> Result<String, Trouble> {
    Ok(format!(in alloc; "{value:?}")?)
}

/// Texts, one after the other.
pub fn text_of(alloc: Global, pieces: &[&str]) -> Result<String, Trouble> {
    let mut out = String::new(alloc);
    for piece in pieces {
        out.push_str(piece)?;
    }
    Ok(out)
}
