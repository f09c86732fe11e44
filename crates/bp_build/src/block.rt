//! Reading canonical blocks from the trees of their texts.

ghost use Rattle.std.specs.Prelude.{◌≡◌, IfOk};
ghost use Rattle.cbor_profile.specs.Step.{Gives};
ghost use Rattle.serde_json.specs.View.{view};
ghost use Rattle.bp_text.specs.Fault.{IsFieldFault};
ghost use Rattle.bp_build.specs.BuildText.{has_block_keys, is_block_shape, block_at};

use bp_blocks::Block;
use bp_crc::CheckKind;
use bp_text::{Entry, Field, FieldFault, Kind, has, has_only, hex_field};
use cbor_profile::{List, NoMemory};
use serde_json::Value;
use std::alloc::Global;
use std::marker::Model;

/// Whether the tree has no other keys than a block.
#[tactic(auto, unfolding(crate::specs::BuildText::has_block_keys))]
fn has_block_keys(tree: &Value) -> bool
    ensures { result ≡ has_block_keys (view tree.now) }
{
    has_only(tree, &["type", "number", "flags", "crc", "body"])
}

/// Whether the tree has the shape of a block.
#[tactic(auto, unfolding(crate::specs::BuildText::is_block_shape))]
fn is_block_shape(tree: &Value) -> bool
    ensures { result ≡ is_block_shape (view tree.now) }
{
    has_block_keys(tree)
        && has(tree, "type", Kind::Number { most: u64::MAX })
        && has(tree, "number", Kind::Number { most: u64::MAX })
        && has(tree, "flags", Kind::Number { most: u64::MAX })
        && has(tree, "crc", Kind::Number { most: 2 })
        && has(tree, "body", Kind::Text)
}

/// A block as an entry of a text. A contract sees it as the block.
#[derive(Debug, Drop)]
pub(crate) struct BlockEntry {
    block: Block,
}

impl Model for BlockEntry {
    ghost use Rattle.bp_blocks.specs.declared.block.Block.{Block};

    ghost Value = { Block };

    ghost view = { λ e. e.block };
}

impl Entry for BlockEntry {
    ghost reads = { λ version. block_at };

    #[tactic(auto, unfolding(crate::specs::BuildText::block_at))]
    fn read(alloc: Global, _version: u64, tree: &Value) -> Result<BlockEntry, FieldFault> {
        if !is_block_shape(tree) {
            return Err(FieldFault::WrongShape);
        }
        let kind = Field::read(alloc, tree, "type")?;
        let number = Field::read(alloc, tree, "number")?;
        let flags = Field::read(alloc, tree, "flags")?;
        let crc = Field::read(alloc, tree, "crc")?;
        let body = hex_field(alloc, tree, "body", 0, 1_048_576)?;
        let block = Block {
            kind,
            number,
            flags,
            crc: CheckKind::of_number(crc),
            body,
        };
        Ok(BlockEntry { block })
    }
}

/// The blocks of entries.
pub(crate) fn blocks_of(alloc: Global, entries: List<BlockEntry>) -> Result<List<Block>, NoMemory>
    ensures { IfOk result (λ blocks. blocks ≡ entries) }
{
    let mut blocks = List::new(alloc);
    for entry in entries.into_vec() {
        blocks.append(entry.block)?;
    }
    Ok(blocks)
}
