//! A bundle of 3,000,000 bytes that is made of its parts.

use bp_blocks::Block;
use bp_bundle::{Bundle, Reader};
use bp_crc::CheckKind;
use bp_eid::{DtnText, Eid};
use bp_primary::Primary;
use cbor_profile::{Bytes, List, SpellError};
use std::alloc::Global;
use std::test::Fail;

/// An ordinary bundle before its payload of 3,000,000 bytes, and after it: ids of the scheme dtn, a CRC-32C of the
/// primary and the payload block, a hop count and a previous node block.
const FRONT: &[u8] =
    b"\x9f\x89\x07\x00\x02\x82\x01k//earth/ops\x82\x01p//probe-7/imager\x82\x01\x00\x82\x1b\x00\x00\x00\xbaC\xb7@\x00\x01\x1a\x05&\\\x00D\xd4\xb3\x08\x87\x85\n\x02\x00\x00D\x82\x18\x1e\x00\x85\x06\x03\x00\x00E\x82\x02\x82\x03\x00\x86\x01\x01\x00\x02Z\x00-\xc6\xc0";

const BACK: &[u8] = b"D?\xde\xf2y\xff";

fn ordinary(alloc: Global) -> Result<Vec<u8>, Fail> {
    let mut input = Vec::from_slice(alloc, FRONT)?;
    for _ in 0..30 {
        input.extend_from_slice(&[7; 100_000])?;
    }
    input.extend_from_slice(BACK)?;
    Ok(input)
}

fn dtn(alloc: Global, text: &[u8]) -> Result<Eid, Fail> {
    let text = DtnText::of(Bytes::of(text.to_vec(alloc)?));
    Ok(Eid::Dtn(text.ok().ok_or("an id")?))
}

fn block(alloc: Global, kind: u64, number: u64, body: &[u8]) -> Result<Block, Fail> {
    Ok(Block {
        kind,
        number,
        flags: 0,
        crc: CheckKind::None,
        body: Bytes::of(body.to_vec(alloc)?),
    })
}

/// 3,000,000 bytes of payload, with a check.
fn payload(alloc: Global) -> Result<Block, Fail> {
    let mut body = Bytes::new(alloc);
    for _ in 0..30 {
        body.extend(&[7; 100_000])?;
    }
    Ok(Block {
        kind: 1,
        number: 1,
        flags: 0,
        crc: CheckKind::Crc32c,
        body,
    })
}

/// The ordinary bundle, made of its parts.
fn made(alloc: Global) -> Result<Bundle, Fail> {
    let primary = Primary {
        flags: 0,
        crc: CheckKind::Crc32c,
        destination: dtn(alloc, b"//earth/ops")?,
        source: dtn(alloc, b"//probe-7/imager")?,
        report_to: Eid::Null,
        created: 800_000_000_000,
        sequence: 1,
        lifetime: 86_400_000,
        fragment: None,
    };
    let mut blocks = Vec::new(alloc);
    blocks.push(block(alloc, 10, 2, b"\x82\x18\x1e\x00")?)?;
    blocks.push(block(alloc, 6, 3, b"\x82\x02\x82\x03\x00")?)?;
    blocks.push(payload(alloc)?)?;
    Ok(
        Bundle::of(primary, List::of(blocks))
            .ok()
            .ok_or("a bundle")?,
    )
}

fn encoded(alloc: Global, bundle: &Bundle) -> Result<Bytes, Fail> {
    let mut out = Bytes::new(alloc);
    bundle.encode(&mut out)?;
    Ok(out)
}

/// What reading these bytes gives, in pieces of this many.
fn read(alloc: Global, bytes: &[u8], most: usize) -> Result<Bundle, SpellError> {
    let mut reader = Reader::new(alloc);
    for piece in bytes.chunks(most.max(1)) {
        reader.feed(piece)?;
    }
    reader.finish()
}

#[test]
fn an_ordinary_bundle_is_made_and_read_again(rt: HostRuntime) -> Result<(), Fail> {
    let alloc = rt.alloc();
    let bundle = made(alloc)?;
    assert_eq!(rt; bundle.size(), 3_000_099);
    let bytes = encoded(alloc, &bundle)?;
    assert!(rt; bytes.as_slice() == ordinary(alloc)?.as_slice());
    for most in [7, 4096, 4_000_000] {
        let again = read(alloc, bytes.as_slice(), most)?;
        assert_eq!(rt; again.size(), 3_000_099);
        assert!(rt; encoded(alloc, &again)?.as_slice() == bytes.as_slice());
    }
    Ok(())
}
