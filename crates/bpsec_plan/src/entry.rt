//! Reading items from the trees of their texts.

ghost use Rattle.std.specs.Prelude.{◌≡◌, codes};
ghost use Rattle.cbor_profile.specs.Step.{Gives};
ghost use Rattle.serde_json.specs.View.{view};
ghost use Rattle.bp_text.specs.Fault.{IsFieldFault};
ghost use Rattle.bp_text.specs.Tree.{number_at};
ghost use Rattle.bp_text.specs.Shape.{passes};
ghost use Rattle.bpsec_plan.specs.Items.{is_integrity_variant, is_cipher_variant};
ghost use Rattle.bpsec_plan.specs.PlanText.{is_frame_shape, frame_at, is_cover_shape, cover_at, keys_at, algorithm_at, has_bib_keys, is_bib_shape, bib_at, has_bcb_keys, is_vector_shape, is_bcb_shape, flag_or_false, bcb_at, is_split_shape, split_at, item_at};

use crate::item::{Cover, Item, Split};
use bp_crc::CheckKind;
use bp_text::{
    Entry, Field, FieldFault, Kind, flag_field, has, has_only, hex_field, may_have, number_field,
    optional, word_field,
};
use cbor_profile::{Bytes, List};
use serde_json::Value;
use std::alloc::Global;

// ---- what all items have

/// Whether the tree has the fields of every item.
#[tactic(auto, unfolding(crate::specs::PlanText::is_frame_shape))]
fn is_frame_shape(tree: &Value) -> bool
    ensures { result ≡ is_frame_shape (view tree.now) }
{
    has(tree, "block", Kind::Number { most: u64::MAX })
        && has(tree, "flags", Kind::Number { most: u64::MAX })
        && has(tree, "crc", Kind::Number { most: 2 })
        && has(tree, "targets", Kind::Distinct { most: 64 })
}

/// Number, flags, check and targets.
#[tactic(auto, unfolding(crate::specs::PlanText::frame_at))]
fn read_frame(alloc: Global, tree: &Value) -> Result<(u64, u64, CheckKind, List<u64>), FieldFault>
    ensures { Gives IsFieldFault (λ frame. frame) result (frame_at (view tree.now)) }
{
    let block = Field::read(alloc, tree, "block")?;
    let flags = Field::read(alloc, tree, "flags")?;
    let crc = Field::read(alloc, tree, "crc")?;
    let targets = Field::read(alloc, tree, "targets")?;
    Ok((block, flags, CheckKind::of_number(crc), targets))
}

// ---- items that add operations

/// Whether the tree has the fields of an item that adds operations.
#[tactic(auto, unfolding(crate::specs::PlanText::is_cover_shape))]
fn is_cover_shape(tree: &Value) -> bool
    ensures { result ≡ is_cover_shape (view tree.now) }
{
    is_frame_shape(tree)
        && has(tree, "source", Kind::Text)
        && has(tree, "key", Kind::Name)
        && has(tree, "scope", Kind::Number { most: 65_535 })
        && may_have(tree, "wrapped_with", Kind::Name)
}

/// The names of the key, and of the key that wraps it.
#[tactic(auto, unfolding(crate::specs::PlanText::keys_at))]
fn read_keys(alloc: Global, tree: &Value) -> Result<(Bytes, Option<Bytes>), FieldFault>
    ensures { Gives IsFieldFault (λ keys. keys) result (keys_at (view tree.now)) }
{
    let key = Field::read(alloc, tree, "key")?;
    let wrapped_with = optional(alloc, tree, "wrapped_with")?;
    Ok((key, wrapped_with))
}

/// Variant and scope.
#[tactic(auto, unfolding(crate::specs::PlanText::algorithm_at))]
fn read_algorithm(alloc: Global, tree: &Value) -> Result<(u64, u64), FieldFault>
    ensures { Gives IsFieldFault (λ algorithm. algorithm) result (algorithm_at (view tree.now)) }
{
    let variant = Field::read(alloc, tree, "variant")?;
    let scope = Field::read(alloc, tree, "scope")?;
    Ok((variant, scope))
}

/// The fields of an item that adds operations.
#[tactic(auto, unfolding(crate::specs::PlanText::cover_at))]
fn read_cover(alloc: Global, tree: &Value) -> Result<Cover, FieldFault>
    ensures { Gives IsFieldFault (λ cover. cover) result (cover_at (view tree.now)) }
{
    let (block, flags, crc, targets) = read_frame(alloc, tree)?;
    let source = Field::read(alloc, tree, "source")?;
    let (key, wrapped_with) = read_keys(alloc, tree)?;
    let (variant, scope) = read_algorithm(alloc, tree)?;
    Ok(Cover {
        block,
        flags,
        crc,
        targets,
        source,
        key,
        wrapped_with,
        variant,
        scope,
    })
}

/// Whether the variant is one of an integrity block.
fn has_integrity_variant(tree: &Value) -> bool
    ensures { result ≡ passes is_integrity_variant (number_at (codes "variant") (view tree.now)) }
{
    matches!(number_field(tree, "variant"), Some(5 | 6 | 7))
}

/// Whether the variant is one of a confidentiality block.
fn has_cipher_variant(tree: &Value) -> bool
    ensures { result ≡ passes is_cipher_variant (number_at (codes "variant") (view tree.now)) }
{
    matches!(number_field(tree, "variant"), Some(1 | 3))
}

// ---- bib items

/// Whether the tree has no other keys than a bib item.
#[tactic(auto, unfolding(crate::specs::PlanText::has_bib_keys))]
fn has_bib_keys(tree: &Value) -> bool
    ensures { result ≡ has_bib_keys (view tree.now) }
{
    has_only(
        tree,
        &[
            "service",
            "block",
            "flags",
            "crc",
            "targets",
            "source",
            "key",
            "variant",
            "scope",
            "wrapped_with",
        ],
    )
}

/// Whether the tree has the shape of a bib item.
#[tactic(auto, unfolding(crate::specs::PlanText::is_bib_shape))]
fn is_bib_shape(tree: &Value) -> bool
    ensures { result ≡ is_bib_shape (view tree.now) }
{
    has_bib_keys(tree) && is_cover_shape(tree) && has_integrity_variant(tree)
}

/// A bib item.
#[tactic(auto, unfolding(crate::specs::PlanText::bib_at))]
fn read_bib(alloc: Global, tree: &Value) -> Result<Item, FieldFault>
    ensures { Gives IsFieldFault (λ item. item) result (bib_at (view tree.now)) }
{
    if !is_bib_shape(tree) {
        return Err(FieldFault::WrongShape);
    }
    Ok(Item::Bib(read_cover(alloc, tree)?))
}

// ---- bcb items

/// Whether the tree has no other keys than a bcb item.
#[tactic(auto, unfolding(crate::specs::PlanText::has_bcb_keys))]
fn has_bcb_keys(tree: &Value) -> bool
    ensures { result ≡ has_bcb_keys (view tree.now) }
{
    has_only(
        tree,
        &[
            "service",
            "block",
            "flags",
            "crc",
            "targets",
            "source",
            "key",
            "variant",
            "scope",
            "wrapped_with",
            "iv",
            "shared_iv",
            "tag_in_body",
        ],
    )
}

/// Whether the tree has a vector, and flags where they are.
#[tactic(auto, unfolding(crate::specs::PlanText::is_vector_shape))]
fn is_vector_shape(tree: &Value) -> bool
    ensures { result ≡ is_vector_shape (view tree.now) }
{
    has(tree, "iv", Kind::Text)
        && may_have(tree, "shared_iv", Kind::Flag)
        && may_have(tree, "tag_in_body", Kind::Flag)
}

/// Whether the tree has the shape of a bcb item.
#[tactic(auto, unfolding(crate::specs::PlanText::is_bcb_shape))]
fn is_bcb_shape(tree: &Value) -> bool
    ensures { result ≡ is_bcb_shape (view tree.now) }
{
    has_bcb_keys(tree) && is_cover_shape(tree) && has_cipher_variant(tree) && is_vector_shape(tree)
}

/// The flag at a key, or false where none is there.
fn flag_or_false(tree: &Value, key: &str) -> bool
    ensures { result ≡ flag_or_false key.now (view tree.now) }
{
    flag_field(tree, key).unwrap_or(false)
}

/// A bcb item.
#[tactic(auto, unfolding(crate::specs::PlanText::bcb_at))]
fn read_bcb(alloc: Global, tree: &Value) -> Result<Item, FieldFault>
    ensures { Gives IsFieldFault (λ item. item) result (bcb_at (view tree.now)) }
{
    if !is_bcb_shape(tree) {
        return Err(FieldFault::WrongShape);
    }
    let cover = read_cover(alloc, tree)?;
    let iv = hex_field(alloc, tree, "iv", 8, 16)?;
    Ok(Item::Bcb {
        cover,
        iv,
        shared_iv: flag_or_false(tree, "shared_iv"),
        tag_in_body: flag_or_false(tree, "tag_in_body"),
    })
}

// ---- split items

/// Whether the tree has the shape of a split item.
#[tactic(auto, unfolding(crate::specs::PlanText::is_split_shape))]
fn is_split_shape(tree: &Value) -> bool
    ensures { result ≡ is_split_shape (view tree.now) }
{
    has_only(
        tree,
        &["service", "block", "flags", "crc", "from", "targets"],
    ) && is_frame_shape(tree)
        && has(tree, "from", Kind::Number { most: u64::MAX })
}

/// A split item.
#[tactic(auto, unfolding(crate::specs::PlanText::split_at))]
fn read_split(alloc: Global, tree: &Value) -> Result<Item, FieldFault>
    ensures { Gives IsFieldFault (λ item. item) result (split_at (view tree.now)) }
{
    if !is_split_shape(tree) {
        return Err(FieldFault::WrongShape);
    }
    let (block, flags, crc, targets) = read_frame(alloc, tree)?;
    let from = Field::read(alloc, tree, "from")?;
    Ok(Item::Split(Split {
        block,
        flags,
        crc,
        from,
        targets,
    }))
}

impl Entry for Item {
    ghost reads = { λ version. item_at };

    #[tactic(auto, unfolding(crate::specs::PlanText::item_at))]
    fn read(alloc: Global, _version: u64, tree: &Value) -> Result<Item, FieldFault> {
        match word_field(tree, "service") {
            Some("bib") => read_bib(alloc, tree),
            Some("bcb") => read_bcb(alloc, tree),
            Some("split") => read_split(alloc, tree),
            Some(_) => Err(FieldFault::UnknownWord),
            None => Err(FieldFault::WrongShape),
        }
    }
}
