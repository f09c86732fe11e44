//! Edits of a bundle. Each leaves a bundle, and changes nothing but what it names.

ghost use Rattle.std.specs.Prelude.{◌≡◌, ◌<◌, ◌≤◌, None, map, length, insert, IfOk, OnOk, OnErr, MatchResult};
ghost use Rattle.std.specs.List.{HoldsAt};
ghost use Rattle.bp_bundle.specs.Spelling.{IsBundle, spelling};
ghost use Rattle.bp_bundle.specs.Faults.{shape_fault};
ghost use Rattle.bp_bundle.specs.InsertAnswer.{IsFaultOf};
ghost use Rattle.bp_bundle.specs.Edits.{crc_if, with_crc, body_at};

use crate::shape::{ShapeFault, bundle_size};
use bp_blocks::Block;
use bp_crc::CheckKind;
use bp_primary::Primary;
use cbor_profile::{Bytes, List};
use std::mem;

/// Why a block wasn't inserted.
#[derive(Clone, Copy, Debug, PartialEq, Eq)]
pub enum InsertFault {
    /// The bundle with the block would have this fault of shape.
    Shape(ShapeFault),
    /// No memory was left.
    NoMemory,
}

/// Gives the block this check if it has this number.
fn give_crc(block: &mut Block, number: u64, crc: CheckKind)
    ensures { block.new ≡ crc_if number crc block.old }
{
    if block.number == number {
        block.crc = crc;
    }
}

/// Gives the blocks of this number this check.
fn set_block_crc(blocks: &mut List<Block>, number: u64, crc: CheckKind)
    ensures { blocks.new ≡ map (crc_if number crc) blocks.old }
{
    for block in blocks.items_mut() {
        give_crc(block, number, crc);
    }
}

/// Gives the block of this number this check, where 0 is the primary block.
pub(crate) fn exchange_crc(
    primary: &mut Primary,
    blocks: &mut List<Block>,
    number: u64,
    crc: CheckKind,
)
    ensures { record { primary = primary.new; blocks = blocks.new }
        ≡ with_crc number crc (record { primary = primary.old; blocks = blocks.old }) }
{
    if number == 0 {
        primary.crc = crc;
    } else {
        set_block_crc(blocks, number, crc);
    }
}

/// Gives the block at an index this body, and hands the old one back.
pub(crate) fn exchange_body(blocks: &mut List<Block>, index: usize, body: Bytes) -> Bytes
    requires { index < length blocks.old }
    ensures old { HoldsAt (λ block. result ≡ block.body) blocks.old index }
    ensures new { blocks.new ≡ body_at index body blocks.old }
{
    let block = &mut blocks.items_mut()[index];
    mem::replace(&mut block.body, body)
}

/// Puts a block before the one at an index, and answers how many bytes spell the bundle then.
pub(crate) fn insert_block(
    primary: &Primary,
    blocks: &mut List<Block>,
    index: usize,
    block: Block,
) -> Result<u64, InsertFault>
    requires { index ≤ length blocks.old }
    ensures ok { OnOk result (blocks.new ≡ insert blocks.old index block) }
    ensures size { IfOk result (λ size. IsBundle (record { primary = primary.now; blocks = blocks.new })
        × (size ≡ length (spelling (record { primary = primary.now; blocks = blocks.new })))) }
    ensures err { OnErr result (blocks.new ≡ blocks.old) }
    ensures exact { MatchResult result (λ _. shape_fault (record { primary = primary.now; blocks = insert blocks.old index block }) ≡ None)
        (λ fault. IsFaultOf fault (shape_fault (record { primary = primary.now; blocks = insert blocks.old index block }))) }
{
    match blocks.insert(index, block) {
        Err(_block) => Err(InsertFault::NoMemory),
        Ok(()) => match bundle_size(primary, blocks.items()) {
            Ok(size) => Ok(size),
            Err(fault) => {
                let _block = blocks.remove(index);
                Err(InsertFault::Shape(fault))
            }
        },
    }
}
