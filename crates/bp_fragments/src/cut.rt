//! Bundles cut into fragments.

ghost use Rattle.std.specs.Prelude.{◌≡◌, ◌*◌, ◌<◌, ◌≤◌, ◌++◌, ◌∷◌, [], false, nat_lt, None, length, take, drop, filter, OnOk, IfOk, MatchResult};
ghost use Rattle.cbor_profile.specs.declared.TheConstants.{BUNDLE_LIMIT};
ghost use Rattle.bp_bundle.specs.Spelling.{IsBundle, spelling};
ghost use Rattle.bp_primary.specs.Flags.{is_fragment};
ghost use Rattle.bp_bundle.specs.Shape.{payload};
ghost use Rattle.bp_fragments.specs.Fragment.{with_payload, is_replicated};
ghost use Rattle.bp_fragments.specs.Cut.{cut, cut_fault, fragment_at, fragment_flags, fragment_primary, is_kept, must_not_fragment, piece_count};
ghost use Rattle.bp_fragments.specs.CutAnswer.{IsCutFault, IsMakeFault, refused_at_once};

use bp_blocks::Block;
use bp_bundle::Bundle;
use bp_primary::{Piece, Primary};
use cbor_profile::{Bytes, List, NoMemory};
use std::alloc::Global;
use thiserror::Error;

/// Why a bundle isn't cut: memory ran out, or the first of the others that holds.
#[derive(Clone, Copy, Debug, PartialEq, Eq, Error)]
pub enum CutFault {
    #[error("the bundle is a fragment")]
    IsFragment,
    #[error("the bundle must not be fragmented")]
    MustNotFragment,
    #[error("a fragment would have no payload")]
    PieceZero,
    #[error("there would be more than 256 fragments")]
    TooMany,
    #[error("the first fragment would have more bytes than a bundle may have")]
    TooLong,
    #[error("out of memory")]
    NoMemory,
}

impl From<NoMemory> for CutFault {
    ghost use Rattle.bp_fragments.specs.declared.cut.CutFault.{CutFault};

    ghost from_gives = { λ _ fault. fault ≡ CutFault.NoMemory };

    fn from(_error: NoMemory) -> CutFault {
        CutFault::NoMemory
    }
}

/// The most fragments of one bundle.
const MOST_PIECES: u64 = 256;

/// Bundle flag 0x4 (RFC 9171, section 4.2.3).
fn must_not_fragment(flags: u64) -> bool
    ensures { result ≡ must_not_fragment flags }
{
    flags / 4 % 2 == 1
}

/// Whether there would be more than 256 fragments.
fn is_too_many(size: u64, len: u64) -> bool
    ensures { result ≡ nat_lt (256 * size) len }
{
    MOST_PIECES.saturating_mul(size) < len
}

/// The first reason against cutting that is seen before a fragment is made.
#[tactic(auto, unfolding(crate::specs::CutAnswer::refused_at_once))]
fn refused_at_once(bundle: &Bundle, size: u64) -> Option<CutFault>
    ensures { result ≡ refused_at_once bundle.now size }
{
    if bundle.primary().is_fragment() {
        return Some(CutFault::IsFragment);
    }
    if must_not_fragment(bundle.primary().flags) {
        return Some(CutFault::MustNotFragment);
    }
    if size == 0 {
        return Some(CutFault::PieceZero);
    }
    if is_too_many(size, bundle.payload().len() as u64) {
        return Some(CutFault::TooMany);
    }
    None
}

/// How many fragments: an empty payload is one piece.
fn piece_count(size: u64, len: u64) -> u64
    requires { 0 < size }
    ensures { result ≡ piece_count size len }
{
    if len == 0 { 1 } else { (len - 1) / size + 1 }
}

/// Whether the block stands in the fragment with this index: in the first all do, in the others those with block flag 0x1
/// and the payload block.
fn is_kept(index: u64, block: &Block) -> bool
    ensures { result ≡ is_kept index block.now }
{
    index == 0 || block.flags % 2 == 1 || (block.kind == 1 && block.number == 1)
}

/// Copies the block if it stands in the fragment with this index.
fn copy_kept(
    alloc: Global,
    copies: &mut List<Block>,
    index: u64,
    block: &Block,
) -> Result<(), NoMemory>
    ensures { OnOk result (copies.new ≡ copies.old ++ filter (is_kept index) (block.now ∷ [])) }
{
    if !is_kept(index, block) {
        return Ok(());
    }
    copies.append(block.copy(alloc)?)
}

/// Copies of the blocks that stand in the fragment with this index.
fn copy_blocks(alloc: Global, blocks: &[Block], index: u64) -> Result<List<Block>, NoMemory>
    ensures { IfOk result (λ copies. copies ≡ filter (is_kept index) blocks.now) }
{
    let mut copies = List::new(alloc);
    for block in blocks {
        copy_kept(alloc, &mut copies, index, block)?;
    }
    Ok(copies)
}

/// The block with another body. Takes no memory.
fn with_body(block: &Block, body: Bytes) -> Block
    ensures { result ≡ record block.now { body = body } }
{
    Block {
        kind: block.kind,
        number: block.number,
        flags: block.flags,
        crc: block.crc,
        body,
    }
}

/// The blocks of the fragment with this index and this payload. The payload block is made with it, and not copied.
fn fragment_blocks(
    alloc: Global,
    bundle: &Bundle,
    index: u64,
    body: Bytes,
) -> Result<List<Block>, NoMemory>
    ensures { IfOk result (λ blocks. blocks
        ≡ with_payload body (filter (is_kept index) bundle.now.blocks)) }
{
    let _size = bundle.size();
    let blocks = bundle.blocks();
    let last = blocks.len() - 1;
    let mut copies = copy_blocks(alloc, &blocks[..last], index)?;
    match copies.append(with_body(&blocks[last], body)) {
        Ok(()) => Ok(copies),
        Err(error) => Err(error),
    }
}

/// Bundle flag 0x1 set.
fn fragment_flags(flags: u64) -> u64
    ensures { result ≡ fragment_flags flags }
{
    flags - flags % 2 + 1
}

/// The primary block of a fragment at this place of the whole payload.
fn fragment_primary(alloc: Global, primary: &Primary, piece: Piece) -> Result<Primary, NoMemory>
    ensures { IfOk result (λ fragment. fragment ≡ fragment_primary piece primary.now) }
{
    Ok(Primary {
        flags: fragment_flags(primary.flags),
        crc: primary.crc,
        destination: primary.destination.copy(alloc)?,
        source: primary.source.copy(alloc)?,
        report_to: primary.report_to.copy(alloc)?,
        created: primary.created,
        sequence: primary.sequence,
        lifetime: primary.lifetime,
        fragment: Some(piece),
    })
}

/// So many bytes of the payload from this place on, or fewer at the end.
fn copy_piece(alloc: Global, payload: &[u8], offset: usize, size: u64) -> Result<Bytes, NoMemory>
    requires { offset ≤ length payload.now }
    ensures { IfOk result (λ piece. piece ≡ take size (drop offset payload.now)) }
{
    let rest = &payload[offset..];
    let len = size.min(rest.len() as u64) as usize;
    let mut piece = Bytes::new(alloc);
    piece.extend(&rest[..len])?;
    Ok(piece)
}

/// The parts of the fragment with this index.
#[tactic(auto, unfolding(crate::specs::Cut::fragment_at))]
fn fragment_parts(
    alloc: Global,
    bundle: &Bundle,
    size: u64,
    index: u64,
) -> Result<(Primary, List<Block>), NoMemory>
    requires { index * size ≤ length (payload bundle.now) }
    ensures { IfOk result (λ parts. record { primary = parts.0; blocks = parts.1 }
        ≡ fragment_at bundle.now size index) }
{
    let _size = bundle.size();
    let payload = bundle.payload();
    let offset = index * size;
    let piece = Piece {
        offset,
        total: payload.len() as u64,
    };
    let primary = fragment_primary(alloc, bundle.primary(), piece)?;
    let body = copy_piece(alloc, payload, offset as usize, size)?;
    let blocks = fragment_blocks(alloc, bundle, index, body)?;
    Ok((primary, blocks))
}

/// The fragment with this index.
fn fragment_at(alloc: Global, bundle: &Bundle, size: u64, index: u64) -> Result<Bundle, CutFault>
    requires place { index * size ≤ length (payload bundle.now) }
    requires whole { is_fragment bundle.now.primary.flags ≡ false }
    requires some { 0 < size }
    ensures within { IfOk result (λ fragment. length (spelling fragment) ≤ BUNDLE_LIMIT) }
    ensures means { MatchResult result (λ fragment. fragment ≡ fragment_at bundle.now size index)
        (λ fault. IsMakeFault fault (fragment_at bundle.now size index)) }
{
    let _size = bundle.size();
    let (primary, blocks) = fragment_parts(alloc, bundle, size, index)?;
    match Bundle::of(primary, blocks) {
        Ok(fragment) => {
            let _size = fragment.size();
            Ok(fragment)
        }
        Err(_fault) => Err(CutFault::TooLong),
    }
}

/// Cuts a bundle into fragments with so many bytes of payload each, the last with fewer.
pub fn fragment(alloc: Global, bundle: &Bundle, size: u64) -> Result<List<Bundle>, CutFault>
    ensures means { MatchResult result
        (λ fragments. (cut_fault bundle.now size ≡ None) × (fragments ≡ cut bundle.now size))
        (λ fault. IsCutFault fault (cut_fault bundle.now size)) }
{
    let _size = bundle.size();
    match refused_at_once(bundle, size) {
        Some(fault) => Err(fault),
        None => all_fragments(alloc, bundle, size),
    }
}

/// The fragments of a bundle against whose cutting nothing stands but the length of the first.
fn all_fragments(alloc: Global, bundle: &Bundle, size: u64) -> Result<List<Bundle>, CutFault>
    requires free { None ≡ refused_at_once bundle.now size }
    ensures means { MatchResult result
        (λ fragments. (cut_fault bundle.now size ≡ None) × (fragments ≡ cut bundle.now size))
        (λ fault. IsCutFault fault (cut_fault bundle.now size)) }
{
    let _size = bundle.size();
    let count = piece_count(size, bundle.payload().len() as u64);
    let mut fragments = List::new(alloc);
    for index in 0..count {
        match fragment_at(alloc, bundle, size, index) {
            Ok(fragment) => fragments.append(fragment)?,
            Err(fault) => return Err(fault),
        }
    }
    Ok(fragments)
}
