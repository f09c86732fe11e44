//! The shape of a bundle: which blocks may stand together.

ghost use Rattle.std.specs.Prelude.{◌≡◌, ◌==◌, ◌+◌, ◌-◌, ◌^◌, ◌≤◌, min, [], length, None, Some, IsOk, IfOk, MatchResult};
ghost use Rattle.std.specs.List.{All, list_any, position};
ghost use Rattle.bp_primary.specs.Spelling.{IsPrimary};
ghost use Rattle.bp_blocks.specs.Spelling.{IsBlock};
ghost use Rattle.bp_bundle.specs.Spelling.{is_single, IsBundle, spelling};
ghost use Rattle.bp_bundle.specs.Faults.{is_misnumbered, may_have, has_number, has_single, is_repeated, repeated_from, is_payload, ends_in_payload, shape_fault_of, shape_fault};

use bp_blocks::Block;
use bp_primary::Primary;
use cbor_profile::BUNDLE_LIMIT;

/// The most canonical blocks that a bundle has here.
pub(crate) const MOST_BLOCKS: usize = 64;

/// Why a primary block and canonical blocks are no bundle.
#[derive(Clone, Copy, Debug, PartialEq, Eq)]
pub enum ShapeFault {
    /// There are more than 64 canonical blocks.
    TooManyBlocks,
    /// The block has the number 0, or one of type 1 and number 1 without the other.
    BadNumber { index: usize },
    /// The number of the block, or its type of 6, 7 or 10, stood before.
    Repeated { index: usize },
    /// There is no block, or the last isn't the payload block.
    NoPayloadLast,
    /// The spelling would have more bytes than the bundle limit.
    TooLong,
}

/// Whether a block of this type may have this number.
pub(crate) fn may_have(kind: u64, number: u64) -> bool
    ensures { result ≡ may_have kind number }
{
    number != 0 && (kind == 1) == (number == 1)
}

/// Whether a block has this number.
pub(crate) fn has_number(before: &[Block], number: u64) -> bool
    ensures { result ≡ has_number before.now number }
{
    before.iter().any(|block| block.number == number)
}

/// Whether a bundle has one block of this type at most.
fn is_single(kind: u64) -> bool
    ensures { result ≡ is_single kind }
{
    kind == 6 || kind == 7 || kind == 10
}

fn has_type(before: &[Block], kind: u64) -> bool
    ensures { result ≡ list_any (λ block. block.kind == kind) before.now }
{
    before.iter().any(|block| block.kind == kind)
}

/// Whether a block has this type, one of those that may stand once.
pub(crate) fn has_single(before: &[Block], kind: u64) -> bool
    ensures { result ≡ has_single before.now kind }
{
    is_single(kind) && has_type(before, kind)
}

fn is_repeated(before: &[Block], block: &Block) -> bool
    ensures { result ≡ is_repeated before.now block.now }
{
    has_number(before, block.number) || has_single(before, block.kind)
}

/// The least index of a block whose number or type stood before.
fn first_repeated(blocks: &[Block]) -> Option<usize>
    ensures { result ≡ repeated_from [] blocks.now }
{
    for (i, block) in blocks.iter().enumerate() {
        if is_repeated(&blocks[..i], block) {
            return Some(i);
        }
    }
    None
}

/// Whether it is the payload block.
pub(crate) fn is_payload(block: &Block) -> bool
    ensures { result ≡ is_payload block.now }
{
    block.kind == 1 && block.number == 1
}

fn ends_in_payload(blocks: &[Block]) -> bool
    ensures { result ≡ ends_in_payload blocks.now }
{
    match blocks.last() {
        Some(last) => is_payload(last),
        None => false,
    }
}

/// The least index of a block whose number doesn't go with its type.
fn first_misnumbered(blocks: &[Block]) -> Option<usize>
    ensures { result ≡ position is_misnumbered blocks.now }
{
    blocks
        .iter()
        .position(|block| !may_have(block.kind, block.number))
}

/// The first fault of blocks that are spelled in a bundle of so many bytes.
#[tactic(auto, unfolding(crate::specs::Faults::shape_fault_of))]
fn shape_fault(blocks: &[Block], size: u64) -> Option<ShapeFault>
    ensures { result ≡ shape_fault_of size blocks.now }
{
    if blocks.len() > MOST_BLOCKS {
        return Some(ShapeFault::TooManyBlocks);
    }
    if let Some(index) = first_misnumbered(blocks) {
        return Some(ShapeFault::BadNumber { index });
    }
    if let Some(index) = first_repeated(blocks) {
        return Some(ShapeFault::Repeated { index });
    }
    if !ends_in_payload(blocks) {
        return Some(ShapeFault::NoPayloadLast);
    }
    if size > BUNDLE_LIMIT {
        return Some(ShapeFault::TooLong);
    }
    None
}

/// How many bytes the spelling of a primary block and these canonical blocks as a bundle has, or the last u64 where there are
/// more. Takes no memory.
pub fn spelled_size(primary: &Primary, blocks: &[Block]) -> u64
    ensures size { result ≡ min (length (spelling (record { primary = primary.now; blocks = blocks.now }))) (2 ^ 64 - 1) }
    ensures primary { IsPrimary primary.now }
    ensures blocks { All IsBlock blocks.now }
{
    let mut size = primary.size() + 2;
    for block in blocks {
        size = size.saturating_add(block.size());
    }
    size
}

/// How many bytes spell the bundle of these blocks, or the first fault of their shape.
pub(crate) fn bundle_size(primary: &Primary, blocks: &[Block]) -> Result<u64, ShapeFault>
    ensures ok { IfOk result (λ size. IsBundle (record { primary = primary.now; blocks = blocks.now })
        × (size ≡ length (spelling (record { primary = primary.now; blocks = blocks.now })))) }
    ensures exact { MatchResult result (λ _. shape_fault (record { primary = primary.now; blocks = blocks.now }) ≡ None)
        (λ fault. shape_fault (record { primary = primary.now; blocks = blocks.now }) ≡ Some fault) }
    ensures found { IsBundle (record { primary = primary.now; blocks = blocks.now }) → IsOk result }
{
    let size = spelled_size(primary, blocks);
    match shape_fault(blocks, size) {
        Some(fault) => Err(fault),
        None => Ok(size),
    }
}
