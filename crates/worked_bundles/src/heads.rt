//! Calls of `cbor_profile`.

use cbor_profile::{
    Bytes, Feed, Gather, Head, feed_array, feed_bytes, feed_text, feed_uint, head_at, head_bytes,
    item_at, put_array, put_bool, put_bytes, put_int, put_text, put_uint, uint_size,
};
use std::alloc::Global;
use worked_tables::{Fields, Told, Trouble, answer, hex, text};

pub fn told(alloc: Global, call: &str, row: &mut Fields) -> Told {
    match call {
        "uint" => answer(uint(alloc, row)),
        "int" => answer(int(alloc, row)),
        "bool" => answer(truth(alloc, row)),
        "array" => answer(array(alloc, row)),
        "string" => answer(string(alloc, row)),
        "words" => answer(words(alloc, row)),
        "gather" => answer(gathered(alloc, row)),
        "head" => answer(head(alloc, row)),
        "head-of" => answer(head_of(alloc, row)),
        "item" => answer(item(alloc, row)),
        _ => Ok(None),
    }
}

/// What was put, if the same was fed.
fn put_and_fed(alloc: Global, put: &Bytes, fed: Gather) -> Result<String, Trouble> {
    let fed = fed.finish()?;
    if fed.as_slice() != put.as_slice() {
        return text(alloc, "fed otherwise");
    }
    hex(alloc, put.as_slice())
}

/// `uint NUMBER`: its item, put and fed, and its size.
fn uint(alloc: Global, row: &mut Fields) -> Result<String, Trouble> {
    let number = row.number()?;
    let mut out = Bytes::new(alloc);
    put_uint(&mut out, number)?;
    let mut fed = Gather::new(alloc);
    feed_uint(&mut fed, number);
    let size = uint_size(number);
    let item = put_and_fed(alloc, &out, fed)?;
    let item = item.as_str();
    Ok(format!(in alloc; "{item} {size}")?)
}

/// `int NUMBER`: its item.
fn int(alloc: Global, row: &mut Fields) -> Result<String, Trouble> {
    let number = row.signed()?;
    let mut out = Bytes::new(alloc);
    put_int(&mut out, number)?;
    hex(alloc, out.as_slice())
}

/// `bool true`: its item.
fn truth(alloc: Global, row: &mut Fields) -> Result<String, Trouble> {
    let word = row.word()?;
    let mut out = Bytes::new(alloc);
    put_bool(&mut out, word == "true")?;
    hex(alloc, out.as_slice())
}

/// `array COUNT`: the head of such an array, put and fed.
fn array(alloc: Global, row: &mut Fields) -> Result<String, Trouble> {
    let count = row.number()?;
    let mut out = Bytes::new(alloc);
    put_array(&mut out, count)?;
    let mut fed = Gather::new(alloc);
    feed_array(&mut fed, count);
    put_and_fed(alloc, &out, fed)
}

/// `string BYTES`: the byte string, put and fed.
fn string(alloc: Global, row: &mut Fields) -> Result<String, Trouble> {
    let content = row.bytes(alloc)?;
    let mut out = Bytes::new(alloc);
    put_bytes(&mut out, &content)?;
    let mut fed = Gather::new(alloc);
    feed_bytes(&mut fed, &content);
    put_and_fed(alloc, &out, fed)
}

/// `words BYTES`: the text string, put and fed.
fn words(alloc: Global, row: &mut Fields) -> Result<String, Trouble> {
    let content = row.bytes(alloc)?;
    let mut out = Bytes::new(alloc);
    put_text(&mut out, &content)?;
    let mut fed = Gather::new(alloc);
    feed_text(&mut fed, &content);
    put_and_fed(alloc, &out, fed)
}

/// Feeds pieces, and then an array's head, a number, a byte string and a text string.
fn feed_all<F: Feed>(alloc: Global, row: &mut Fields, into: &mut F) -> Result<(), Trouble> {
    for _ in 0..3 {
        into.feed(&row.bytes(alloc)?);
    }
    feed_array(into, row.number()?);
    feed_uint(into, row.number()?);
    feed_bytes(into, &row.bytes(alloc)?);
    feed_text(into, &row.bytes(alloc)?);
    Ok(())
}

/// `gather PIECE PIECE PIECE COUNT NUMBER BYTES TEXT`: all that was fed, one after the other.
fn gathered(alloc: Global, row: &mut Fields) -> Result<String, Trouble> {
    let mut gather = Gather::new(alloc);
    feed_all(alloc, row, &mut gather)?;
    hex(alloc, gather.finish()?.as_slice())
}

/// `head BYTES`: what is read at their front.
fn head(alloc: Global, row: &mut Fields) -> Result<String, Trouble> {
    let bytes = row.bytes(alloc)?;
    let read = head_at(&bytes);
    Ok(format!(in alloc; "{read:?}")?)
}

/// `head-of MAJOR VALUE`: its spelling.
fn head_of(alloc: Global, row: &mut Fields) -> Result<String, Trouble> {
    let major = row.number()?;
    let value = row.number()?;
    if major > 5 {
        return Err(Trouble::Row("a major type up to 5"));
    }
    let head = Head {
        major: major as u8,
        value,
    };
    hex(alloc, head_bytes(head).as_slice())
}

/// `item BYTES`: what is read at their front.
fn item(alloc: Global, row: &mut Fields) -> Result<String, Trouble> {
    let bytes = row.bytes(alloc)?;
    let read = item_at(&bytes);
    Ok(format!(in alloc; "{read:?}")?)
}
