//! The tree that a text is read as.

ghost use Rattle.std.specs.Prelude.{◌≡◌};
ghost use Rattle.cbor_profile.specs.Step.{Gives};
ghost use Rattle.serde_json.specs.View.{view};
ghost use Rattle.bp_text.specs.Fault.{IsTextError, top};
ghost use Rattle.bp_text.specs.Tree.{tree_of};

use crate::fault::{TextError, TextFault, TextReason};
use serde_json::Value;
use std::alloc::Global;

/// The most bytes that a text has.
pub const TEXT_LIMIT: usize = 1_048_576;

/// The error of a text whose fault lies in no entry.
pub fn refused(reason: TextReason) -> TextError
    ensures { result ≡ TextError.Fault (record { entry = None; reason = reason }) }
{
    TextError::Fault(TextFault {
        entry: None,
        reason,
    })
}

/// Reads a text as a tree: TooLong above 1,048,576 bytes, NotJson where it is no JSON text or nests deeper than 127.
#[tactic(auto, unfolding(crate::specs::Tree::tree_of))]
pub fn read_tree(alloc: Global, bytes: &[u8]) -> Result<Value, TextError>
    ensures { Gives IsTextError view result (top (tree_of bytes.now)) }
{
    if bytes.len() > TEXT_LIMIT {
        return Err(refused(TextReason::TooLong));
    }
    let Ok(text) = str::from_utf8(bytes) else {
        return Err(refused(TextReason::NotJson));
    };
    match Value::from_str(alloc, text) {
        Ok(tree) => Ok(tree),
        Err(e) if e.is_memory() => Err(TextError::NoMemory),
        Err(_) => Err(refused(TextReason::NotJson)),
    }
}
