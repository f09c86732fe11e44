//! Calls of `gf2_polynomial`, `aes_core`, `hmac_core` and `key_wrap`.

ghost use Rattle.std.specs.Prelude.{◌≤◌, ◌^◌, length};

use aes_core::{Aes, SlicedAes};
use gf2_polynomial::add_bytes;
use hmac_core::{Hash, Hmac, Sha256, Sha384, Sha512};
use key_wrap::{unwrap_into, wrap_into};
use std::alloc::Global;
use worked_tables::{Fields, Told, Trouble, answer, feed_in_pieces, hex, text};

pub fn told(alloc: Global, call: &str, row: &mut Fields) -> Told {
    match call {
        "add" => answer(added(alloc, row)),
        "aes-sizes" => answer(key_sizes(alloc, row)),
        "aes" => answer(block(alloc, row, false)),
        "aes-back" => answer(block(alloc, row, true)),
        "aes-eight" => answer(eight_blocks(alloc, row)),
        "hmac" => answer(code(alloc, row)),
        "wrap" => answer(wrapped(alloc, row)),
        "unwrap" => answer(unwrapped(alloc, row)),
        _ => Ok(None),
    }
}

/// `add BYTES ADDED`: the first bytes, with the others added bit by bit.
fn added(alloc: Global, row: &mut Fields) -> Result<String, Trouble> {
    let mut bytes = row.bytes(alloc)?;
    let added = row.bytes(alloc)?;
    if bytes.len() > added.len() {
        return Err(Trouble::Row("as many bytes to add"));
    }
    add_bytes(&mut bytes, &added);
    hex(alloc, &bytes)
}

/// `aes-sizes KEY`: whether it is a key of 128 bits, and whether it is one of 256 bits.
fn key_sizes(alloc: Global, row: &mut Fields) -> Result<String, Trouble> {
    let key = row.bytes(alloc)?;
    let short = Aes::<4>::new(&key).is_some();
    let long = Aes::<8>::new(&key).is_some();
    Ok(format!(in alloc; "{short} {long}")?)
}

/// Sixteen bytes as an array.
pub fn sixteen(bytes: &[u8]) -> Result<[u8; 16], Trouble> {
    if bytes.len() != 16 {
        return Err(Trouble::Row("sixteen bytes"));
    }
    let mut block = [0; 16];
    for (to, from) in block.iter_mut().zip(bytes) {
        *to = *from;
    }
    Ok(block)
}

/// A block under a key, or back.
fn crypt<const NK: usize>(aes: &Aes<NK>, back: bool, block: &mut [u8; 16]) {
    if back {
        aes.copy().decrypt(block);
    } else {
        aes.copy().encrypt(block);
    }
}

/// `aes KEY BLOCK`: the block encrypted. `aes-back KEY BLOCK`: the block decrypted.
fn block(alloc: Global, row: &mut Fields, back: bool) -> Result<String, Trouble> {
    let key = row.bytes(alloc)?;
    let mut block = sixteen(&row.bytes(alloc)?)?;
    if let Some(aes) = Aes::<4>::new(&key) {
        crypt(&aes, back, &mut block);
        return hex(alloc, &block);
    }
    if let Some(aes) = Aes::<8>::new(&key) {
        crypt(&aes, back, &mut block);
        return hex(alloc, &block);
    }
    Err(Trouble::Row("a key"))
}

/// `aes-eight KEY BLOCKS`: eight blocks, encrypted at once.
fn eight_blocks(alloc: Global, row: &mut Fields) -> Result<String, Trouble> {
    let key = row.bytes(alloc)?;
    let bytes = row.bytes(alloc)?;
    let mut blocks = [[0; 16]; 8];
    for (block, given) in blocks.iter_mut().zip(bytes.chunks(16)) {
        *block = sixteen(given)?;
    }
    if let Some(aes) = Aes::<4>::new(&key) {
        SlicedAes::new(&aes).encrypt(&mut blocks);
    } else if let Some(aes) = Aes::<8>::new(&key) {
        SlicedAes::new(&aes).encrypt(&mut blocks);
    } else {
        return Err(Trouble::Row("a key"));
    }
    let mut out = Vec::new(alloc);
    for block in &blocks {
        out.extend_from_slice(block)?;
    }
    hex(alloc, &out)
}

/// The code of a message that is fed in pieces of this size, in hexadecimal.
fn code_in_pieces<H: Hash>(
    alloc: Global,
    key: &[u8],
    message: &[u8],
    size: u64,
) -> Result<String, Trouble>
    requires { length key.now ≤ 2 ^ 32 }
{
    let mut hmac = Hmac::<H>::start(key);
    feed_in_pieces(&mut hmac, message, size);
    let mut out = [0; 64];
    let len = hmac.finish(&mut out);
    if len > 64 {
        return Err(Trouble::Row("a code of at most 64 bytes"));
    }
    hex(alloc, &out[..len])
}

/// The code of a message in one piece, if it is the same in pieces of 1 to 70 bytes.
fn code_of<H: Hash>(alloc: Global, key: &[u8], message: &[u8]) -> Result<String, Trouble>
    requires { length key.now ≤ 2 ^ 32 }
{
    let whole = code_in_pieces::<H>(alloc, key, message, 1000)?;
    for size in 1..71u64 {
        let code = code_in_pieces::<H>(alloc, key, message, size)?;
        if code.as_str() != whole.as_str() {
            return text(alloc, "pieces change the code");
        }
    }
    Ok(whole)
}

/// `hmac BITS KEY MESSAGE`: the code by SHA-256, SHA-384 or SHA-512, the message in pieces of each size.
fn code(alloc: Global, row: &mut Fields) -> Result<String, Trouble> {
    let bits = row.number()?;
    let key = row.bytes(alloc)?;
    let message = row.bytes(alloc)?;
    if key.len() > 1024 {
        return Err(Trouble::Row("a key"));
    }
    match bits {
        256 => code_of::<Sha256>(alloc, &key, &message),
        384 => code_of::<Sha384>(alloc, &key, &message),
        512 => code_of::<Sha512>(alloc, &key, &message),
        _ => Err(Trouble::Row("256, 384 or 512")),
    }
}

/// `wrap KEK KEY`: the key wrapped.
fn wrapped(alloc: Global, row: &mut Fields) -> Result<String, Trouble> {
    let kek = row.bytes(alloc)?;
    let key = row.bytes(alloc)?;
    let length = key.len();
    if length < 16 || length > 64 || length % 8 != 0 {
        return Err(Trouble::Row("a key of whole groups"));
    }
    let mut out = vec![in alloc; 0u8; length + 8]?;
    if let Some(kek) = Aes::<4>::new(&kek) {
        wrap_into(&kek, &key, &mut out);
    } else if let Some(kek) = Aes::<8>::new(&kek) {
        wrap_into(&kek, &key, &mut out);
    } else {
        return Err(Trouble::Row("a key-encryption key"));
    }
    hex(alloc, &out)
}

/// `unwrap KEK WRAPPED`: whether it is a wrapped key, and that key.
fn unwrapped(alloc: Global, row: &mut Fields) -> Result<String, Trouble> {
    let kek = row.bytes(alloc)?;
    let wrapped = row.bytes(alloc)?;
    let length = wrapped.len();
    if length < 24 || length > 72 || length % 8 != 0 {
        return Err(Trouble::Row("a wrapped key of whole groups"));
    }
    let mut out = vec![in alloc; 1u8; length - 8]?;
    let taken = if let Some(kek) = Aes::<4>::new(&kek) {
        unwrap_into(&kek, &wrapped, &mut out)
    } else if let Some(kek) = Aes::<8>::new(&kek) {
        unwrap_into(&kek, &wrapped, &mut out)
    } else {
        return Err(Trouble::Row("a key-encryption key"));
    };
    let key = hex(alloc, &out)?;
    Ok(format!(in alloc; "{taken} {key}")?)
}
