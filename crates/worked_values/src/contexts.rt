//! What the calls of contexts take: headers, ids with values, and keys.

ghost use Rattle.std.specs.Prelude.{◌≤◌, length};
ghost use Rattle.std.specs.Option.{option_copied};
ghost use Rattle.bpsec_context.specs.Calls.{IsShort};

use bpsec_asb::Pair;
use bpsec_context::{DefaultSuite, GcmContext, HmacContext, PairSuite};
use bpsec_scope::Header;
use cbor_profile::Bytes;
use std::alloc::Global;
use worked_tables::{Fields, Trouble};

/// The contexts of RFC 9173.
pub fn suite() -> DefaultSuite {
    PairSuite {
        integrity: HmacContext,
        cipher: GcmContext,
    }
}

/// The header of the next fields: type, number and flags.
pub fn header(row: &mut Fields) -> Result<Header, Trouble> {
    let kind = row.number()?;
    let number = row.number()?;
    let flags = row.number()?;
    Ok(Header {
        kind,
        number,
        flags,
    })
}

/// Ids and values `ID:VALUE` with commas between, or a dash where there are none.
pub fn pairs(alloc: Global, row: &mut Fields) -> Result<Vec<Pair>, Trouble> {
    let mut pairs = Vec::new(alloc);
    let given = row.word()?;
    if given == "-" {
        return Ok(pairs);
    }
    for pair in given.split(',') {
        let Some((id, value)) = pair.split_once(':') else {
            return Err(Trouble::Row("an id and a value"));
        };
        let id = id.parse::<u64>().ok().ok_or(Trouble::Row("an id"))?;
        let value = row.within(value).bytes(alloc)?;
        pairs.push(Pair {
            id,
            value: Bytes::of(value),
        })?;
    }
    Ok(pairs)
}

/// A key, or none where the word `none` stands.
pub fn key_of(alloc: Global, row: &mut Fields) -> Result<Option<Vec<u8>>, Trouble> {
    let mut ahead = *row;
    if ahead.word()? == "none" {
        *row = ahead;
        return Ok(None);
    }
    Ok(Some(row.bytes(alloc)?))
}

/// A key as a call takes it: at most 64 bytes.
pub fn handed(key: &Option<Vec<u8>>) -> Option<&[u8]>
    ensures { IsShort (option_copied result) }
{
    match key {
        Some(key) => {
            let key = key.as_slice();
            if key.len() > 64 {
                return None;
            }
            Some(key)
        }
        None => None,
    }
}

/// What a context is given: its id, a key, parameters and results.
#[derive(Drop)]
pub struct Asking {
    pub context: i64,
    pub key: Option<Vec<u8>>,
    pub parameters: Vec<Pair>,
    pub results: Vec<Pair>,
}

/// Context, key, parameters and results of the next fields.
pub fn asked(alloc: Global, row: &mut Fields) -> Result<Asking, Trouble> {
    Ok(Asking {
        context: row.signed()?,
        key: key_of(alloc, row)?,
        parameters: pairs(alloc, row)?,
        results: pairs(alloc, row)?,
    })
}

/// The key that was asked with, at most 64 bytes of it.
pub fn short_key(asked: &Asking) -> &[u8]
    ensures { length result.now ≤ 64 }
{
    match &asked.key {
        Some(key) => {
            let key = key.as_slice();
            if key.len() > 64 { &[] } else { key }
        }
        None => &[],
    }
}
