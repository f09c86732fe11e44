//! Why a fragment isn't added.

ghost use Rattle.std.specs.Prelude.{◌≡◌, ◌+◌, length};
ghost use Rattle.bp_fragments.specs.Agreement.{is_other_bundle, is_other_frame, is_past, refusal_of};

use crate::alike::{piece_of, same_blocks, same_primary};
use crate::fault::AddFault;
use crate::part::Part;
use crate::payload::Payload;
use bp_blocks::Block;
use bp_primary::{Piece, Primary};
use cbor_profile::{BUNDLE_LIMIT, List};

/// The most fragments of one bundle.
pub(crate) const MOST_PIECES: usize = 256;

/// Whether the primary block differs from the first fragment's in more than the offset.
fn is_other_bundle(first: &Option<Primary>, primary: &Primary) -> bool
    ensures { result ≡ is_other_bundle first.now primary.now }
{
    match first {
        None => false,
        Some(first) => !same_primary(first, primary),
    }
}

/// Whether the blocks differ from those of another fragment of offset 0.
fn is_other_frame(kept: &Option<List<Block>>, frame: &List<Block>) -> bool
    ensures { result ≡ is_other_frame kept.now frame.now }
{
    match kept {
        None => false,
        Some(kept) => !same_blocks(kept.items(), frame.items()),
    }
}

/// Whether a payload of so many bytes ends behind the whole.
fn is_past(piece: Piece, len: u64) -> bool
    ensures { result ≡ is_past piece len }
{
    piece.total < piece.offset || piece.total - piece.offset < len
}

/// The first reason against adding a fragment to those that told this.
#[tactic(auto, unfolding(crate::specs::Agreement::refusal_of))]
pub(crate) fn refusal_of(
    first: &Option<Primary>,
    frame: &Option<List<Block>>,
    payload: &Payload,
    count: usize,
    part: &Part,
) -> Option<AddFault>
    ensures { result ≡ refusal_of (record {
      primary = first.now;
      frame = frame.now;
      known = payload.now;
      count = count;
    }) part.now.primary part.now.frame part.now.body }
{
    if !part.primary.is_fragment() {
        return Some(AddFault::NotFragment);
    }
    if is_other_bundle(first, &part.primary) {
        return Some(AddFault::OtherBundle);
    }
    let piece = piece_of(&part.primary);
    if is_past(piece, part.body.len() as u64) {
        return Some(AddFault::PastTotal);
    }
    if piece.total > BUNDLE_LIMIT {
        return Some(AddFault::OverLimit);
    }
    if piece.offset == 0 && is_other_frame(frame, &part.frame) {
        return Some(AddFault::OtherBlocks);
    }
    if let Some(fault) = payload.clash(piece.offset as usize, part.body.as_slice()) {
        return Some(fault);
    }
    if count >= MOST_PIECES {
        return Some(AddFault::TooMany);
    }
    None
}
