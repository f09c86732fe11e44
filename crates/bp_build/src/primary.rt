//! Reading primary blocks from the trees of their texts.

ghost use Rattle.std.specs.Prelude.{◌≡◌, codes};
ghost use Rattle.cbor_profile.specs.Step.{Gives};
ghost use Rattle.serde_json.specs.View.{view};
ghost use Rattle.bp_text.specs.Fault.{IsFieldFault};
ghost use Rattle.bp_build.specs.BuildText.{has_nodes, has_times, has_place, has_whole_keys, has_fragment_keys, is_of_fragment, has_keys, is_primary_shape, nodes_at, times_at, place_at, place_if, primary_of, primary_at};

use bp_crc::CheckKind;
use bp_eid::Eid;
use bp_primary::{Piece, Primary};
use bp_text::{Field, FieldFault, Kind, eid_field, has, has_only, number_field};
use serde_json::Value;
use std::alloc::Global;

// ---- the shape

/// Whether the tree has the three ids.
#[tactic(auto, unfolding(crate::specs::BuildText::has_nodes))]
fn has_nodes(tree: &Value) -> bool
    ensures { result ≡ has_nodes (view tree.now) }
{
    has(tree, "to", Kind::Text) && has(tree, "from", Kind::Text) && has(tree, "report", Kind::Text)
}

/// Whether the tree has the times.
#[tactic(auto, unfolding(crate::specs::BuildText::has_times))]
fn has_times(tree: &Value) -> bool
    ensures { result ≡ has_times (view tree.now) }
{
    has(tree, "created", Kind::Number { most: u64::MAX })
        && has(tree, "sequence", Kind::Number { most: u64::MAX })
        && has(tree, "lifetime", Kind::Number { most: u64::MAX })
}

/// Whether the tree has the place of a fragment.
#[tactic(auto, unfolding(crate::specs::BuildText::has_place))]
fn has_place(tree: &Value) -> bool
    ensures { result ≡ has_place (view tree.now) }
{
    has(tree, "offset", Kind::Number { most: u64::MAX })
        && has(tree, "total", Kind::Number { most: u64::MAX })
}

/// Whether the tree has no other keys than the primary block of a bundle that is no fragment.
#[tactic(auto, unfolding(crate::specs::BuildText::has_whole_keys))]
fn has_whole_keys(tree: &Value) -> bool
    ensures { result ≡ has_whole_keys (view tree.now) }
{
    has_only(
        tree,
        &[
            "flags", "crc", "to", "from", "report", "created", "sequence", "lifetime",
        ],
    )
}

/// Whether the tree has no other keys than the primary block of a fragment.
#[tactic(auto, unfolding(crate::specs::BuildText::has_fragment_keys))]
fn has_fragment_keys(tree: &Value) -> bool
    ensures { result ≡ has_fragment_keys (view tree.now) }
{
    has_only(
        tree,
        &[
            "flags", "crc", "to", "from", "report", "created", "sequence", "lifetime", "offset",
            "total",
        ],
    )
}

/// Whether the flags say that the bundle is a fragment.
fn is_of_fragment(tree: &Value) -> bool
    ensures { result ≡ is_of_fragment (view tree.now) }
{
    match number_field(tree, "flags") {
        Some(flags) => flags % 2 == 1,
        None => false,
    }
}

/// Whether the tree has the place of a fragment exactly where the flags say so, and no other keys than a primary block.
#[tactic(auto, unfolding(crate::specs::BuildText::has_keys))]
fn has_keys(tree: &Value) -> bool
    ensures { result ≡ has_keys (view tree.now) }
{
    if is_of_fragment(tree) {
        has_fragment_keys(tree) && has_place(tree)
    } else {
        has_whole_keys(tree)
    }
}

/// Whether the tree has the shape of a primary block.
#[tactic(auto, unfolding(crate::specs::BuildText::is_primary_shape))]
fn is_primary_shape(tree: &Value) -> bool
    ensures { result ≡ is_primary_shape (view tree.now) }
{
    has_keys(tree)
        && has(tree, "flags", Kind::Number { most: u64::MAX })
        && has(tree, "crc", Kind::Number { most: 2 })
        && has_nodes(tree)
        && has_times(tree)
}

// ---- the fields

/// Destination, source and report-to.
#[tactic(auto, unfolding(crate::specs::BuildText::nodes_at))]
fn read_nodes(alloc: Global, tree: &Value) -> Result<(Eid, Eid, Eid), FieldFault>
    ensures { Gives IsFieldFault (λ nodes. nodes) result (nodes_at (view tree.now)) }
{
    let destination = eid_field(alloc, tree, "to")?;
    let source = eid_field(alloc, tree, "from")?;
    let report_to = eid_field(alloc, tree, "report")?;
    Ok((destination, source, report_to))
}

/// Creation time, sequence number and lifetime.
#[tactic(auto, unfolding(crate::specs::BuildText::times_at))]
fn read_times(alloc: Global, tree: &Value) -> Result<(u64, u64, u64), FieldFault>
    ensures { Gives IsFieldFault (λ times. times) result (times_at (view tree.now)) }
{
    let created = Field::read(alloc, tree, "created")?;
    let sequence = Field::read(alloc, tree, "sequence")?;
    let lifetime = Field::read(alloc, tree, "lifetime")?;
    Ok((created, sequence, lifetime))
}

/// The place of a fragment; of another bundle, where nothing is read, zeros.
#[tactic(auto, unfolding(crate::specs::BuildText::place_at))]
fn read_place(alloc: Global, fragmented: bool, tree: &Value) -> Result<Piece, FieldFault>
    ensures { Gives IsFieldFault (λ place. place) result (place_at fragmented (view tree.now)) }
{
    if !fragmented {
        return Ok(Piece {
            offset: 0,
            total: 0,
        });
    }
    let offset = Field::read(alloc, tree, "offset")?;
    let total = Field::read(alloc, tree, "total")?;
    Ok(Piece { offset, total })
}

/// The place, if the bundle is a fragment.
fn place_if(fragmented: bool, place: Piece) -> Option<Piece>
    ensures { result ≡ place_if fragmented place }
{
    if fragmented { Some(place) } else { None }
}

/// The primary block of these fields.
fn primary_of(
    flags: u64,
    crc: u64,
    nodes: (Eid, Eid, Eid),
    times: (u64, u64, u64),
    place: Piece,
) -> Primary
    ensures { result ≡ primary_of flags crc nodes times place }
{
    let (destination, source, report_to) = nodes;
    let (created, sequence, lifetime) = times;
    Primary {
        flags,
        crc: CheckKind::of_number(crc),
        destination,
        source,
        report_to,
        created,
        sequence,
        lifetime,
        fragment: place_if(flags % 2 == 1, place),
    }
}

/// A primary block.
#[tactic(auto, unfolding(crate::specs::BuildText::primary_at))]
pub(crate) fn read_primary(alloc: Global, tree: &Value) -> Result<Primary, FieldFault>
    ensures { Gives IsFieldFault (λ primary. primary) result (primary_at (view tree.now)) }
{
    if !is_primary_shape(tree) {
        return Err(FieldFault::WrongShape);
    }
    let flags = Field::read(alloc, tree, "flags")?;
    let crc = Field::read(alloc, tree, "crc")?;
    let nodes = read_nodes(alloc, tree)?;
    let times = read_times(alloc, tree)?;
    let place = read_place(alloc, flags % 2 == 1, tree)?;
    Ok(primary_of(flags, crc, nodes, times, place))
}
