//! Bytes in hexadecimal.

use crate::{Trouble, named};
use std::alloc::Global;

/// Adds the bytes of plain hexadecimal digits.
fn put_digits(alloc: Global, digits: &str, out: &mut Vec<u8>) -> Result<(), Trouble> {
    let Ok(bytes) = hex::decode(alloc, digits) else {
        return Err(Trouble::Row("hexadecimal digits"));
    };
    out.extend_from_slice(&bytes)?;
    Ok(())
}

/// Adds so many times the bytes of plain hexadecimal digits.
fn put_repeated(alloc: Global, digits: &str, count: u64, out: &mut Vec<u8>) -> Result<(), Trouble> {
    let Ok(bytes) = hex::decode(alloc, digits) else {
        return Err(Trouble::Row("hexadecimal digits"));
    };
    for _ in 0..count {
        out.extend_from_slice(&bytes)?;
    }
    Ok(())
}

/// Adds what stands behind a `(`, up to the next: `07*3)08` is 07070708.
fn put_group(alloc: Global, group: &str, out: &mut Vec<u8>) -> Result<(), Trouble> {
    let Some((digits, rest)) = group.split_once('*') else {
        return Err(Trouble::Row("a star in brackets"));
    };
    let Some((count, rest)) = rest.split_once(')') else {
        return Err(Trouble::Row("a closing bracket"));
    };
    let Ok(count) = count.parse::<u64>() else {
        return Err(Trouble::Row("a count in brackets"));
    };
    put_repeated(alloc, digits, count, out)?;
    put_digits(alloc, rest, out)
}

/// Adds digits with groups as `(07*3)` between them.
fn put_groups(alloc: Global, text: &str, out: &mut Vec<u8>) -> Result<(), Trouble> {
    for (place, piece) in text.split('(').enumerate() {
        if place == 0 {
            put_digits(alloc, piece, out)?;
        } else {
            put_group(alloc, piece, out)?;
        }
    }
    Ok(())
}

/// The bytes of a text: hexadecimal digits, `(07*3)` for 070707, `@NAME` for what a name of the table stands for, and `+`
/// between such parts. A dash stands for no bytes.
pub fn bytes_of(alloc: Global, table: &str, text: &str) -> Result<Vec<u8>, Trouble> {
    let mut out = Vec::new(alloc);
    if text == "-" {
        return Ok(out);
    }
    for part in text.split('+') {
        match part.strip_prefix("@") {
            Some(name) => match named(table, name) {
                Some(text) => put_groups(alloc, text, &mut out)?,
                None => return Err(Trouble::Row("named bytes")),
            },
            None => put_groups(alloc, part, &mut out)?,
        }
    }
    Ok(out)
}
