//! Streams that are fed in pieces.

use crate::messages::told_item;
use bp_tcpcl::{LinkError, Stream, Taken};
use std::alloc::Global;
use worked_tables::{Fields, Told, Trouble, answer, text};

pub fn told(alloc: Global, call: &str, row: &mut Fields) -> Told {
    match call {
        "stream" => answer(in_all_sizes(alloc, row)),
        "prefixes" => answer(whole_prefixes(alloc, row)),
        "near" => answer(near_the_limit(alloc, row)),
        _ => Ok(None),
    }
}

/// Feeds a piece up to its end, or to an error, and adds what is given.
fn feed_piece(
    alloc: Global,
    stream: &mut Stream,
    piece: &[u8],
    told: &mut String,
) -> Result<Option<LinkError>, Trouble> {
    let mut rest = piece;
    for _ in 0..piece.len() + 1 {
        match stream.feed(rest) {
            Ok(
                Taken {
                    taken,
                    item: Some(item),
                },
            ) => {
                told.push_str(told_item(alloc, &item)?.as_str())?;
                told.push_str("|")?;
                rest = if taken <= rest.len() {
                    &rest[taken..]
                } else {
                    &[]
                };
            }
            Ok(Taken { .. }) => return Ok(None),
            Err(error) => return Ok(Some(error)),
        }
    }
    Ok(None)
}

/// How reading ended, in words: `forgotten` where an error isn't answered again.
fn ended(alloc: Global, stream: &mut Stream, met: Option<LinkError>) -> Result<String, Trouble> {
    let error = match stream.finish() {
        Ok(()) => return text(alloc, if met.is_some() { "forgotten" } else { "end" }),
        Err(error) => error,
    };
    if met.is_some() && (met != Some(error) || stream.feed(&[]).is_ok()) {
        return text(alloc, "forgotten");
    }
    match error {
        LinkError::NoMemory => Err(Trouble::NoMemory),
        LinkError::Fault { place, reason } => {
            let name = reason.name();
            Ok(format!(in alloc; "fault {place} {name}")?)
        }
    }
}

/// What a stream gives that is fed in pieces of this size, and how it ended.
fn in_pieces(alloc: Global, bytes: &[u8], size: u64) -> Result<String, Trouble> {
    let mut stream = Stream::new(alloc);
    let mut told = String::new(alloc);
    let mut met = None;
    for piece in bytes.chunks((size as usize).max(1)) {
        if met.is_none() {
            met = feed_piece(alloc, &mut stream, piece, &mut told)?;
        }
    }
    told.push_str(ended(alloc, &mut stream, met)?.as_str())?;
    Ok(told)
}

/// `stream SIZES BYTES`: what is given, and how it ends, in pieces of each of the sizes, which stand between commas.
fn in_all_sizes(alloc: Global, row: &mut Fields) -> Result<String, Trouble> {
    let sizes = row.word()?;
    let bytes = row.bytes(alloc)?;
    let whole = in_pieces(alloc, &bytes, bytes.len() as u64)?;
    for size in sizes.split(',') {
        let Ok(size) = size.parse::<u64>() else {
            return Err(Trouble::Row("sizes"));
        };
        let told = in_pieces(alloc, &bytes, size)?;
        if told.as_str() != whole.as_str() {
            return Ok(format!(in alloc; "pieces of {size} change {whole} to {told}")?);
        }
    }
    Ok(whole)
}

/// How a stream ends after its first bytes, which are fed at once.
fn end_of(alloc: Global, bytes: &[u8]) -> Result<Option<LinkError>, Trouble> {
    let mut stream = Stream::new(alloc);
    let mut told = String::new(alloc);
    if let Some(error) = feed_piece(alloc, &mut stream, bytes, &mut told)? {
        return Ok(Some(error));
    }
    Ok(stream.finish().err())
}

/// `prefixes BYTES`: how many bytes those prefixes have that end with a part, where all others are Truncated at their end.
fn whole_prefixes(alloc: Global, row: &mut Fields) -> Result<String, Trouble> {
    let bytes = row.bytes(alloc)?;
    let mut told = text(alloc, "whole")?;
    for count in 0..bytes.len() + 1 {
        match end_of(alloc, &bytes[..count])? {
            None => told.push_str(format!(in alloc; " {count}")?.as_str())?,
            Some(LinkError::Fault { place, reason }) => {
                if place != count as u64 || reason.name() != "Truncated" {
                    let name = reason.name();
                    return Ok(format!(in alloc; "{count} bytes: fault {place} {name}")?);
                }
            }
            Some(LinkError::NoMemory) => return Err(Trouble::NoMemory),
        }
    }
    Ok(told)
}

/// The most bytes of a segment's content.
const CONTENT: u64 = 16_777_216;

/// How many bytes the content of the last segment has before the limit of the input, behind a contact header and seven
/// segments of the most content.
const LAST: u64 = 16_777_066;

/// Feeds a piece that ends no part but maybe with its last byte.
fn feed_whole(stream: &mut Stream, piece: &[u8]) -> Result<(), Trouble> {
    match stream.feed(piece) {
        Ok(taken) if taken.taken == piece.len() => Ok(()),
        _ => Err(Trouble::Row("room")),
    }
}

/// Feeds a segment with so many zeros.
fn feed_zeros(stream: &mut Stream, zeros: &[u8], count: u64) -> Result<(), Trouble> {
    feed_whole(stream, &[1, 0, 0, 0, 0, 0, 0, 0, 0, 0])?;
    feed_whole(stream, &count.to_be_bytes())?;
    let mut left = count as usize;
    for _ in 0..257 {
        let piece = left.min(zeros.len());
        if piece > 0 {
            feed_whole(stream, &zeros[..piece])?;
            left -= piece;
        }
    }
    Ok(())
}

/// `near LEFT BYTES`: what is given of the bytes, and how it ends, where the bytes before leave so many up to the limit of the
/// input.
fn near_the_limit(alloc: Global, row: &mut Fields) -> Result<String, Trouble> {
    let left = row.number()?;
    let bytes = row.bytes(alloc)?;
    let zeros = vec![in alloc; 0u8; 65_536]?;
    let mut stream = Stream::new(alloc);
    feed_whole(&mut stream, b"dtn!\x04\x00")?;
    for _ in 0..7 {
        feed_zeros(&mut stream, &zeros, CONTENT)?;
    }
    feed_zeros(&mut stream, &zeros, LAST.saturating_sub(left))?;
    let mut told = String::new(alloc);
    let met = feed_piece(alloc, &mut stream, &bytes, &mut told)?;
    told.push_str(ended(alloc, &mut stream, met)?.as_str())?;
    Ok(told)
}
