//! Building bundles from texts.

ghost use Rattle.std.specs.Prelude.{◌≡◌, [], map};
ghost use Rattle.cbor_profile.specs.Step.{Gives};
ghost use Rattle.serde_json.specs.View.{view};
ghost use Rattle.bp_text.specs.Fault.{IsTextError};
ghost use Rattle.bp_text.specs.Entries.{entries_at};
ghost use Rattle.bp_build.specs.BuildText.{is_build_shape, index_of, bundle_of, block_at, build_at, build_of};

use crate::block::blocks_of;
use crate::primary::read_primary;
use bp_blocks::Block;
use bp_bundle::{Bundle, ShapeFault};
use bp_primary::Primary;
use bp_text::{
    Kind, Names, TextError, TextFault, TextReason, has, has_only, is_short, list_field,
    read_entries, read_tree, refused, version_field,
};
use cbor_profile::List;
use serde_json::Value;
use std::alloc::Global;

/// The most blocks of a text.
pub const BLOCK_LIMIT: usize = 64;

/// Whether the tree has the shape of a bundle's text.
#[tactic(auto, unfolding(crate::specs::BuildText::is_build_shape))]
fn is_build_shape(tree: &Value) -> bool
    ensures { result ≡ is_build_shape (view tree.now) }
{
    has_only(tree, &["version", "primary", "blocks"])
        && has(tree, "primary", Kind::Object)
        && has(tree, "blocks", Kind::Array { least: 1 })
}

/// The index of the block that a fault names.
fn index_of(fault: ShapeFault) -> Option<u64>
    ensures { result ≡ index_of fault }
{
    match fault {
        ShapeFault::BadNumber { index } | ShapeFault::Repeated { index } => Some(index as u64),
        ShapeFault::TooManyBlocks | ShapeFault::NoPayloadLast | ShapeFault::TooLong => None,
    }
}

/// The bundle of these blocks, or NotABundle. Takes no memory.
fn bundle_of(primary: Primary, blocks: List<Block>) -> Result<Bundle, TextError>
    ensures { Gives IsTextError (λ bundle. bundle) result
        (bundle_of (record { primary = primary; blocks = blocks })) }
{
    match Bundle::of(primary, blocks) {
        Ok(bundle) => Ok(bundle),
        Err(fault) => Err(TextError::Fault(TextFault {
            entry: index_of(fault),
            reason: TextReason::NotABundle,
        })),
    }
}

/// The blocks of a list.
fn read_blocks(alloc: Global, values: &[Value]) -> Result<List<Block>, TextError>
    ensures { Gives IsTextError (λ blocks. blocks) result
        (entries_at block_at 0 [] (map view values.now)) }
{
    let mut names = Names::new(alloc);
    match read_entries(alloc, 1, values, 0, &mut names) {
        Ok(entries) => match blocks_of(alloc, entries) {
            Ok(blocks) => Ok(blocks),
            Err(error) => Err(error.into()),
        },
        Err(e) => Err(e),
    }
}

/// The bundle of a tree.
#[tactic(auto, unfolding(crate::specs::BuildText::build_at))]
fn of_tree(alloc: Global, tree: &Value) -> Result<Bundle, TextError>
    ensures { Gives IsTextError (λ bundle. bundle) result (build_at (view tree.now)) }
{
    match version_field(tree, &[1]) {
        Ok(_) => {}
        Err(e) => return Err(e),
    }
    if !is_build_shape(tree) {
        return Err(refused(TextReason::WrongShape));
    }
    if !is_short(tree, "blocks", BLOCK_LIMIT) {
        return Err(refused(TextReason::TooMany));
    }
    let Some(primary) = tree.get("primary") else {
        return Err(refused(TextReason::WrongShape));
    };
    let primary = match read_primary(alloc, primary) {
        Ok(primary) => primary,
        Err(fault) => return Err(fault.at(None)),
    };
    let Some(blocks) = list_field(tree, "blocks") else {
        return Err(refused(TextReason::WrongShape));
    };
    match read_blocks(alloc, blocks) {
        Ok(blocks) => bundle_of(primary, blocks),
        Err(e) => Err(e),
    }
}

/// The bundle whose text this is, or the first fault.
pub fn bundle_from_json(alloc: Global, bytes: &[u8]) -> Result<Bundle, TextError>
    ensures { Gives IsTextError (λ bundle. bundle) result (build_of bytes.now) }
{
    let tree = match read_tree(alloc, bytes) {
        Ok(tree) => tree,
        Err(e) => return Err(e),
    };
    of_tree(alloc, &tree)
}
