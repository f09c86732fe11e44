//! Calls of `gcm_core`. Many bodies are compared by one tag: what is sealed, and its tags, are themselves authenticated as
//! one text, the log.

ghost use Rattle.std.specs.Prelude.{◌<◌, ◌≤◌, ◌^◌, length};

use crate::ciphers::sixteen;
use aes_core::Aes;
use cbor_profile::Feed;
use gcm_core::Gcm;
use std::alloc::Global;
use worked_tables::{Fields, Told, Trouble, answer, feed_in_pieces, hex, text};

pub fn told(alloc: Global, call: &str, row: &mut Fields) -> Told {
    match call {
        "gcm" => answer(sealed(alloc, row)),
        "gcm-open" => answer(opened(alloc, row)),
        "gcm-bodies" => answer(bodies(alloc, row)),
        "gcm-vectors" => answer(vectors(alloc, row)),
        "gcm-data" => answer(additional_data(alloc, row)),
        _ => Ok(None),
    }
}

/// What is sealed: under which vector, with which additional data.
#[derive(Clone, Copy)]
struct Given<'a> {
    iv: &'a [u8],
    aad: &'a [u8],
    body: &'a [u8],
}

/// The ciphertext and its tag, with the additional data in pieces of so many bytes.
fn sealed_with<const NK: usize>(
    alloc: Global,
    key: &Aes<NK>,
    given: &Given,
    size: u64,
) -> Result<String, Trouble> {
    if given.iv.is_empty() || given.body.len() > 65536 {
        return Err(Trouble::Row("a vector, and a short body"));
    }
    let mut body = given.body.to_vec(alloc)?;
    let mut gcm = Gcm::new(key);
    feed_in_pieces(&mut gcm, given.aad, size);
    let tag = gcm.seal(given.iv, &mut body);
    let body = hex(alloc, &body)?;
    let tag = hex(alloc, &tag)?;
    Ok(format!(in alloc; "{body} {tag}")?)
}

/// The same, if it is so with the additional data in pieces of 1 to 40 bytes.
fn sealed_by<const NK: usize>(
    alloc: Global,
    key: &Aes<NK>,
    given: &Given,
) -> Result<String, Trouble> {
    let whole = sealed_with(alloc, key, given, 1000)?;
    for size in 1..41u64 {
        let pieces = sealed_with(alloc, key, given, size)?;
        if pieces.as_str() != whole.as_str() {
            return text(alloc, "pieces change the tag");
        }
    }
    Ok(whole)
}

/// `gcm KEY IV AAD BODY`: ciphertext and tag, the additional data in pieces of each size.
fn sealed(alloc: Global, row: &mut Fields) -> Result<String, Trouble> {
    let key = row.bytes(alloc)?;
    let iv = row.bytes(alloc)?;
    let aad = row.bytes(alloc)?;
    let body = row.bytes(alloc)?;
    let given = Given {
        iv: &iv,
        aad: &aad,
        body: &body,
    };
    if let Some(key) = Aes::<4>::new(&key) {
        return sealed_by(alloc, &key, &given);
    }
    if let Some(key) = Aes::<8>::new(&key) {
        return sealed_by(alloc, &key, &given);
    }
    Err(Trouble::Row("a key"))
}

/// Whether the tag is that of the body, the same by unsealing, and what that leaves.
fn opened_by<const NK: usize>(
    alloc: Global,
    key: &Aes<NK>,
    given: &Given,
    tag: &[u8; 16],
) -> Result<String, Trouble> {
    if given.iv.is_empty() || given.body.len() > 65536 {
        return Err(Trouble::Row("a vector, and a short body"));
    }
    let mut gcm = Gcm::new(key);
    gcm.feed(given.aad);
    let checked = gcm.check(given.iv, given.body, tag);
    let mut body = given.body.to_vec(alloc)?;
    let mut gcm = Gcm::new(key);
    gcm.feed(given.aad);
    let opened = gcm.unseal(given.iv, &mut body, tag);
    let body = hex(alloc, &body)?;
    Ok(format!(in alloc; "{checked} {opened} {body}")?)
}

/// `gcm-open KEY IV AAD BODY TAG`: whether the tag is checked, whether the body is opened, and the body that is left.
fn opened(alloc: Global, row: &mut Fields) -> Result<String, Trouble> {
    let key = row.bytes(alloc)?;
    let iv = row.bytes(alloc)?;
    let aad = row.bytes(alloc)?;
    let body = row.bytes(alloc)?;
    let tag = sixteen(&row.bytes(alloc)?)?;
    let given = Given {
        iv: &iv,
        aad: &aad,
        body: &body,
    };
    if let Some(key) = Aes::<4>::new(&key) {
        return opened_by(alloc, &key, &given, &tag);
    }
    if let Some(key) = Aes::<8>::new(&key) {
        return opened_by(alloc, &key, &given, &tag);
    }
    Err(Trouble::Row("a key"))
}

/// Byte i is the remainder of i modulo 251.
fn fill(body: &mut [u8]) {
    for (place, byte) in body.iter_mut().enumerate() {
        *byte = (place % 251) as u8;
    }
}

fn is_filled(body: &[u8]) -> bool {
    for (place, byte) in body.iter().enumerate() {
        if *byte != (place % 251) as u8 {
            return false;
        }
    }
    true
}

/// Seals a filled body with additional data, adds what came out to the log, and opens it again. Whether that gives the body.
fn log_sealed<const NK: usize>(
    key: &Aes<NK>,
    iv: &[u8],
    aad: &[u8],
    body: &mut [u8],
    log: &mut Gcm<8>,
) -> bool
    requires vector { 0 < length iv.now }
    requires body { length body.old ≤ 2 ^ 32 }
{
    fill(body);
    let mut gcm = Gcm::new(key);
    gcm.feed(aad);
    let tag = gcm.seal(iv, body);
    log.feed(body);
    log.feed(&tag);

    let mut gcm = Gcm::new(key);
    gcm.feed(aad);
    gcm.unseal(iv, body, &tag) && is_filled(body)
}

/// The first so many bytes, or all.
fn front(bytes: &[u8], count: usize) -> &[u8] {
    if count < bytes.len() {
        &bytes[..count]
    } else {
        bytes
    }
}

/// The tag of the log of filled bodies of each length from `least` to the whole, the additional data of each being a front
/// of `data` as long as the body, modulo 40.
fn tag_of_bodies<const NK: usize>(
    key: &Aes<NK>,
    log_key: &Aes<8>,
    iv: &[u8],
    data: &[u8],
    least: usize,
    body: &mut [u8],
) -> Option<[u8; 16]>
    requires vector { 0 < length iv.now }
    requires body { length body.old ≤ 2 ^ 32 }
{
    let mut log = Gcm::new(log_key);
    for size in least..body.len() + 1 {
        if size <= body.len() {
            let aad = front(data, size % 40);
            if !log_sealed(key, iv, aad, &mut body[..size], &mut log) {
                return None;
            }
        }
    }
    Some(log.seal(iv, &mut []))
}

/// The tag of a log, or that a body wasn't opened.
fn tag_text(alloc: Global, tag: Option<[u8; 16]>) -> Result<String, Trouble> {
    match tag {
        Some(tag) => hex(alloc, &tag),
        None => text(alloc, "a body isn't opened"),
    }
}

/// `gcm-bodies KEY LOG_KEY IV DATA LEAST MOST`: the tag of the log of filled bodies of LEAST to MOST bytes.
fn bodies(alloc: Global, row: &mut Fields) -> Result<String, Trouble> {
    let key = row.bytes(alloc)?;
    let log_key = row.bytes(alloc)?;
    let iv = row.bytes(alloc)?;
    let data = row.bytes(alloc)?;
    let least = row.number()?;
    let most = row.number()?;
    let Some(log_key) = Aes::<8>::new(&log_key) else {
        return Err(Trouble::Row("a key of the log"));
    };
    if iv.is_empty() || most > 16_777_216 {
        return Err(Trouble::Row("a vector, and at most 16 MiB"));
    }
    let least = least as usize;
    let mut body = vec![in alloc; 0u8; most as usize]?;
    if let Some(key) = Aes::<4>::new(&key) {
        let tag = tag_of_bodies(&key, &log_key, &iv, &data, least, &mut body);
        return tag_text(alloc, tag);
    }
    if let Some(key) = Aes::<8>::new(&key) {
        let tag = tag_of_bodies(&key, &log_key, &iv, &data, least, &mut body);
        return tag_text(alloc, tag);
    }
    Err(Trouble::Row("a key"))
}

/// `gcm-vectors KEY IV SIZE VECTORS`: the tag, by IV, of the log of filled bodies of SIZE bytes, without additional data, one
/// for each vector of sixteen bytes.
fn vectors(alloc: Global, row: &mut Fields) -> Result<String, Trouble> {
    let key = row.bytes(alloc)?;
    let log_iv = row.bytes(alloc)?;
    let size = row.number()?;
    let vectors = row.bytes(alloc)?;
    let Some(key) = Aes::<8>::new(&key) else {
        return Err(Trouble::Row("a key of 32 bytes"));
    };
    if log_iv.is_empty() || size > 65536 {
        return Err(Trouble::Row("a vector, and at most 64 KiB"));
    }
    let mut body = vec![in alloc; 0u8; size as usize]?;
    let mut log = Gcm::new(&key);
    for iv in vectors.chunks(16) {
        let iv = sixteen(iv)?;
        if body.len() > 65536 || !log_sealed(&key, &iv, &[], &mut body, &mut log) {
            return text(alloc, "a body isn't opened");
        }
    }
    hex(alloc, &log.seal(&log_iv, &mut []))
}

/// The tag of the log of tags of a short body with additional data of each length up to the whole, in pieces of up to 20
/// bytes, another number of them for each turn.
fn tag_of_data(key: &Aes<4>, log_key: &Aes<8>, iv: &[u8], data: &[u8], turn: usize) -> [u8; 16]
    requires vector { 0 < length iv.now }
    requires data { length data.now ≤ 65536 }
    requires turn { turn < 4 }
{
    let mut log = Gcm::new(log_key);
    for size in 0..data.len() + 1 {
        let mut gcm = Gcm::new(key);
        for piece in data[..size].chunks((size + 5 * turn) % 20 + 1) {
            gcm.feed(piece);
        }
        log.feed(&gcm.seal(iv, &mut [0, 1, 2, 3, 4]));
    }
    log.seal(iv, &mut [])
}

/// `gcm-data KEY LOG_KEY IV DATA TURN`: the tag of the log of the tags of the body 0001020304 with each front of the
/// additional data, in pieces whose sizes depend on the turn, 0 to 3.
fn additional_data(alloc: Global, row: &mut Fields) -> Result<String, Trouble> {
    let key = row.bytes(alloc)?;
    let log_key = row.bytes(alloc)?;
    let iv = row.bytes(alloc)?;
    let data = row.bytes(alloc)?;
    let turn = row.number()?;
    let (Some(key), Some(log_key)) = (Aes::<4>::new(&key), Aes::<8>::new(&log_key)) else {
        return Err(Trouble::Row("keys of 16 and of 32 bytes"));
    };
    if iv.is_empty() || data.len() > 65536 || turn > 3 {
        return Err(Trouble::Row("a vector, data and a turn"));
    }
    hex(
        alloc,
        &tag_of_data(&key, &log_key, &iv, &data, turn as usize),
    )
}
