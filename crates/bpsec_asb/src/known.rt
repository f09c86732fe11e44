//! The operations that are known of a bundle's blocks.

ghost use Rattle.std.specs.Prelude.{◌≡◌, ◌<◌, ℕ, slice_index, [], not, map, filter, fold, All, Contains, OnOk, IfOk};
ghost use Rattle.std.specs.List.{flat_map};
ghost use Rattle.std.specs.List.Sorted.{IsStrictlySortedBy};
ghost use Rattle.std.specs.BTreeSet.{insert_key, contains};
ghost use Rattle.std.specs.Ordering.{nat_cmp};
ghost use Rattle.bpsec_asb.specs.Operations.{NumbersAreDistinct, IsKnown};
ghost use Rattle.bpsec_asb.specs.Order.{op_cmp};
ghost use Rattle.bpsec_asb.specs.Known.{targets_of, held_by, ListsHeld, ciphers, known};
ghost use Rattle.bpsec_asb.specs.Reading.{read_body};
ghost use Rattle.bpsec_asb.specs.declared.operation.OpId.{OpId};
ghost use Rattle.bpsec_asb.specs.declared.operation.Service.TheVariants.{Bib, Bcb};

use crate::asb::Asb;
use crate::operation::{OpId, Service};
use bp_blocks::Block;
use cbor_profile::{List, NoMemory, SpellError};
use std::alloc::Global;
use std::collections::BTreeSet;

/// The targets of a security block whose body is readable, else none.
fn targets(alloc: Global, body: &[u8]) -> Result<List<u64>, NoMemory>
    ensures value { IfOk result (λ targets. targets ≡ targets_of (read_body body.now)) }
    ensures bytes { (i : ℕ) → slice_index body.now i < 256 }
{
    match Asb::read(alloc, body) {
        Ok(asb) => Ok(asb.targets),
        Err(SpellError::Fault(_)) => Ok(List::new(alloc)),
        Err(SpellError::NoMemory) => Err(NoMemory::again()),
    }
}

/// Adds the operations of a service that a block holds.
fn add_held(
    alloc: Global,
    service: Service,
    block: &Block,
    ops: &mut BTreeSet<OpId>,
) -> Result<(), NoMemory>
    ensures keys { OnOk result (ops.new.keys ≡ fold (insert_key op_cmp) ops.old.keys (held_by service block.now)) }
    ensures held { OnOk result (ListsHeld service block.now) }
{
    if block.kind != service.block_type() {
        return Ok(());
    }
    for target in targets(alloc, block.body.as_slice())?.items() {
        ops.insert(OpId {
            service,
            block: block.number,
            target: *target,
        })?;
    }
    Ok(())
}

/// Adds the operations of the block confidentiality blocks.
fn add_ciphers(alloc: Global, blocks: &[Block], ops: &mut BTreeSet<OpId>) -> Result<(), NoMemory>
    ensures keys { OnOk result (ops.new.keys ≡ fold (insert_key op_cmp) ops.old.keys (ciphers blocks.now)) }
    ensures held { OnOk result (All (ListsHeld Bcb) blocks.now) }
{
    for block in blocks {
        add_held(alloc, Service::Bcb, block, ops)?;
    }
    Ok(())
}

/// The targets of these operations.
fn targets_among(alloc: Global, ops: &BTreeSet<OpId>) -> Result<BTreeSet<u64>, NoMemory>
    ensures { IfOk result
        (λ targets. targets.keys ≡ fold (insert_key nat_cmp) [] (map (λ op. op.target) ops.now.keys)) }
{
    let mut targets = BTreeSet::new(alloc);
    for op in ops.iter() {
        targets.insert(op.target)?;
    }
    Ok(targets)
}

/// Adds the operations of the block integrity blocks that aren't targeted.
fn add_visible(
    alloc: Global,
    blocks: &[Block],
    targeted: &BTreeSet<u64>,
    ops: &mut BTreeSet<OpId>,
) -> Result<(), NoMemory>
    ensures keys { OnOk result (ops.new.keys
        ≡ fold (insert_key op_cmp) ops.old.keys
        (flat_map (held_by Bib) (filter (λ block. not (contains nat_cmp targeted.now block.number)) blocks.now))) }
    ensures held { OnOk result
        (All (ListsHeld Bib) (filter (λ block. not (contains nat_cmp targeted.now block.number)) blocks.now)) }
{
    for block in blocks {
        if !targeted.contains(&block.number) {
            add_held(alloc, Service::Bib, block, ops)?;
        }
    }
    Ok(())
}

/// These operations as a list.
fn listed(alloc: Global, ops: BTreeSet<OpId>) -> Result<List<OpId>, NoMemory>
    ensures { IfOk result (λ list. list ≡ ops.keys) }
{
    Ok(List::of(ops.into_iter().collect(alloc)?))
}

/// The operations that are known of a bundle with these blocks (RFC 9172, section 3.9), in the order of service, block,
/// target: those of the readable security blocks that no operation covers.
pub fn operations(alloc: Global, blocks: &[Block]) -> Result<List<OpId>, NoMemory>
    requires { NumbersAreDistinct blocks.now }
    // What stands in the list is known.
    ensures means { IfOk result (λ ops. All (IsKnown blocks.now) ops) }
    // What is known stands in the list.
    ensures found { IfOk result (λ ops. (op : OpId) → IsKnown blocks.now op → Contains ops op) }
    // Each once, in order.
    ensures ordered { IfOk result (IsStrictlySortedBy op_cmp) }
    // Which list it is.
    ensures exact { IfOk result (λ ops. ops ≡ known blocks.now) }
{
    let mut ops = BTreeSet::new(alloc);
    add_ciphers(alloc, blocks, &mut ops)?;
    let targeted = targets_among(alloc, &ops)?;
    add_visible(alloc, blocks, &targeted, &mut ops)?;
    listed(alloc, ops)
}
