//! Calls of `cmac_core`.

use aes_core::Aes;
use cmac_core::Cmac;
use std::alloc::Global;
use worked_tables::{Fields, Told, Trouble, answer, feed_in_pieces, hex, text};

pub fn told(alloc: Global, call: &str, row: &mut Fields) -> Told {
    match call {
        "cmac" => answer(tag(alloc, row)),
        _ => Ok(None),
    }
}

/// The tag of a message that is fed in pieces of this size.
fn tag_in_pieces<const NK: usize>(key: &Aes<NK>, message: &[u8], size: u64) -> [u8; 16] {
    let mut cmac = Cmac::start(key);
    feed_in_pieces(&mut cmac, message, size);
    cmac.finish()
}

/// The tag of a message in one piece, if it is the same in pieces of 1 to 40 bytes.
fn tag_of<const NK: usize>(
    alloc: Global,
    key: &Aes<NK>,
    message: &[u8],
) -> Result<String, Trouble> {
    let whole = tag_in_pieces(key, message, 65_536);
    for size in 1..41u64 {
        if tag_in_pieces(key, message, size) != whole {
            return text(alloc, "pieces change the tag");
        }
    }
    hex(alloc, &whole)
}

/// `cmac KEY MESSAGE`: the tag, the message in pieces of each size.
fn tag(alloc: Global, row: &mut Fields) -> Result<String, Trouble> {
    let key = row.bytes(alloc)?;
    let message = row.bytes(alloc)?;
    if let Some(key) = Aes::<4>::new(&key) {
        return tag_of(alloc, &key, &message);
    }
    if let Some(key) = Aes::<8>::new(&key) {
        return tag_of(alloc, &key, &message);
    }
    Err(Trouble::Row("a key"))
}
