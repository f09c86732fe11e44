//! Calls of `bp_crc`.

ghost use Rattle.bp_crc.specs.Check.{IsWidth};

use bp_crc::Crc;
use cbor_profile::{Bytes, Feed, Gather};
use std::alloc::Global;
use worked_tables::{Fields, Told, Trouble, answer, feed_in_pieces, hex, text};
use worked_values::check_kind;

pub fn told(alloc: Global, call: &str, row: &mut Fields) -> Told {
    match call {
        "crc" => answer(check(alloc, row)),
        "crc-cuts" => answer(checks_of_cuts(alloc, row)),
        "check-item" => answer(check_item(alloc, row)),
        _ => Ok(None),
    }
}

/// `crc WIDTH SIZE BYTES`: the check of the bytes, fed in pieces of so many.
fn check(alloc: Global, row: &mut Fields) -> Result<String, Trouble> {
    let width = row.number()?;
    let size = row.number()?;
    let bytes = row.bytes(alloc)?;
    let check = match width {
        16 => {
            let mut crc = Crc::<16>::new();
            feed_in_pieces(&mut crc, &bytes, size);
            crc.finish()
        }
        32 => {
            let mut crc = Crc::<32>::new();
            feed_in_pieces(&mut crc, &bytes, size);
            crc.finish()
        }
        _ => return Err(Trouble::Row("16 or 32")),
    };
    Ok(format!(in alloc; "{check:x}")?)
}

/// The check over two pieces.
fn check_of<const BITS: usize>(first: &[u8], second: &[u8]) -> u32
    requires { IsWidth BITS }
{
    let mut crc = Crc::<BITS>::new();
    crc.feed(first);
    crc.feed(second);
    crc.finish()
}

/// The check of the bytes, if it is the same in two pieces wherever they are cut.
fn check_of_each_cut<const BITS: usize>(bytes: &[u8]) -> Option<u32>
    requires { IsWidth BITS }
{
    let whole = check_of::<BITS>(bytes, &[]);
    for cut in 0..bytes.len() {
        if check_of::<BITS>(&bytes[..cut], &bytes[cut..]) != whole {
            return None;
        }
    }
    Some(whole)
}

/// The checks c of the first 0, 1, .. bytes, and of all, as one number n by 31 n + c.
fn checks_as_one<const BITS: usize>(bytes: &[u8]) -> Option<u32>
    requires { IsWidth BITS }
{
    let mut number: u32 = 0;
    for length in 0..bytes.len() {
        let check = check_of_each_cut::<BITS>(&bytes[..length])?;
        number = number.wrapping_mul(31).wrapping_add(check);
    }
    let check = check_of_each_cut::<BITS>(bytes)?;
    Some(number.wrapping_mul(31).wrapping_add(check))
}

/// `crc-cuts WIDTH BYTES`: the checks of all beginnings of the bytes, each cut in two at each place, as one number.
fn checks_of_cuts(alloc: Global, row: &mut Fields) -> Result<String, Trouble> {
    let width = row.number()?;
    let bytes = row.bytes(alloc)?;
    let number = match width {
        16 => checks_as_one::<16>(&bytes),
        32 => checks_as_one::<32>(&bytes),
        _ => return Err(Trouble::Row("16 or 32")),
    };
    match number {
        Some(number) => Ok(format!(in alloc; "{number:x}")?),
        None => text(alloc, "a cut changes the check"),
    }
}

/// `check-item TYPE CHECK`: the item of a check, as it is put, and as it is fed with zeros in its place.
fn check_item(alloc: Global, row: &mut Fields) -> Result<String, Trouble> {
    let kind = check_kind(row.number()?)?;
    let check = row.bytes(alloc)?;
    let mut out = Bytes::new(alloc);
    kind.put(&check, &mut out)?;
    let mut fed = Gather::new(alloc);
    kind.feed(kind.zeros(), &mut fed);
    let put = hex(alloc, out.as_slice())?;
    let fed = hex(alloc, fed.finish()?.as_slice())?;
    Ok(format!(in alloc; "{put} {fed}")?)
}
