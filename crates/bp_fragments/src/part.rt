//! Fragments taken apart.

ghost use Rattle.std.specs.Prelude.{◌≡◌, ◌-◌, ◌<◌, length};
ghost use Rattle.std.specs.List.{slice_get};
ghost use Rattle.bp_bundle.specs.Spelling.{IsBundle};
ghost use Rattle.bp_bundle.specs.Shape.{body_of, payload};
ghost use Rattle.bp_fragments.specs.Fragment.{with_payload};
ghost use Rattle.bp_fragments.specs.Agreement.{frame};

use bp_blocks::Block;
use bp_bundle::Bundle;
use bp_primary::Primary;
use cbor_profile::{Bytes, List};
use std::alloc::Global;
use std::mem;

/// A fragment's primary block, its blocks without the payload's body, and that body.
#[derive(Drop)]
pub(crate) struct Part {
    pub(crate) primary: Primary,
    pub(crate) frame: List<Block>,
    pub(crate) body: Bytes,
}

/// Gives the last block this body, and hands the old one back.
pub(crate) fn exchange_payload(blocks: &mut List<Block>, body: Bytes) -> Bytes
    requires { 0 < length blocks.old }
    ensures old { result ≡ body_of (slice_get blocks.old (length blocks.old - 1)) }
    ensures new { blocks.new ≡ with_payload body blocks.old }
{
    let last = blocks.items().len() - 1;
    let block = &mut blocks.items_mut()[last];
    mem::replace(&mut block.body, body)
}

/// Takes a bundle apart. Takes no memory.
pub(crate) fn part_of(alloc: Global, piece: Bundle) -> Part
    ensures primary { result.primary ≡ piece.primary }
    ensures frame { result.frame ≡ frame piece }
    ensures body { result.body ≡ payload piece }
    ensures bundle { IsBundle piece }
{
    let (primary, mut frame) = piece.into_parts();
    let body = exchange_payload(&mut frame, Bytes::new(alloc));
    Part {
        primary,
        frame,
        body,
    }
}
