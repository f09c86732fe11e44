//! All the lines.

ghost use Rattle.std.specs.Prelude.{◌≡◌, ◌==◌, ◌&&◌, ◌++◌, OnOk, OnErr};
ghost use Rattle.std.specs.List.{flat_map, list_any};
ghost use Rattle.bpsec_explain.specs.Lines.{is_bib, has_primary_check, tells_age, block_lines, notes, lines, explanation};

use crate::blocks::put_block;
use crate::primary::put_primary;
use bp_blocks::Block;
use bp_bundle::Bundle;
use bp_primary::Primary;
use bpsec_asb::{OpId, Service, operations};
use cbor_profile::{Bytes, NoMemory};
use std::alloc::Global;

fn is_bib(service: Service) -> bool
    ensures { result ≡ is_bib service }
{
    match service {
        Service::Bib => true,
        Service::Bcb => false,
    }
}

/// Whether some bib operation targets the primary block.
fn is_signed(ops: &[OpId]) -> bool
    ensures { result ≡ list_any (λ op. is_bib op.service && op.target == 0) ops.now }
{
    ops.iter().any(|op| is_bib(op.service) && op.target == 0)
}

/// Whether there is an age block.
fn has_age(blocks: &[Block]) -> bool
    ensures { result ≡ list_any (λ block. block.kind == 7) blocks.now }
{
    blocks.iter().any(|block| block.kind == 7)
}

fn has_primary_check(primary: &Primary, ops: &[OpId]) -> bool
    ensures { result ≡ has_primary_check primary.now ops.now }
{
    primary.crc.number() != 0 || is_signed(ops)
}

fn tells_age(primary: &Primary, blocks: &[Block]) -> bool
    ensures { result ≡ tells_age primary.now blocks.now }
{
    primary.created != 0 || has_age(blocks)
}

#[tactic(auto, unfolding(crate::specs::Lines::notes))]
fn put_notes(bundle: &Bundle, ops: &[OpId], out: &mut Bytes) -> Result<(), NoMemory>
    ensures { OnOk result (out.new ≡ out.old ++ notes bundle.now ops.now) }
{
    if !has_primary_check(bundle.primary(), ops) {
        out.extend(b"note no-primary-check\n")?;
    }
    if !tells_age(bundle.primary(), bundle.blocks()) {
        out.extend(b"note no-age\n")?;
    }
    Ok(())
}

fn put_blocks(alloc: Global, bundle: &Bundle, ops: &[OpId], out: &mut Bytes) -> Result<(), NoMemory>
    ensures { OnOk result (out.new ≡ out.old
        ++ flat_map (block_lines bundle.now ops.now) bundle.now.blocks) }
{
    for block in bundle.blocks() {
        put_block(alloc, bundle, ops, block, out)?;
    }
    Ok(())
}

#[tactic(auto, unfolding(crate::specs::Lines::lines))]
fn put_lines(alloc: Global, bundle: &Bundle, ops: &[OpId], out: &mut Bytes) -> Result<(), NoMemory>
    ensures { OnOk result (out.new ≡ out.old ++ lines bundle.now ops.now) }
{
    put_primary(alloc, bundle.primary(), out)?;
    put_blocks(alloc, bundle, ops, out)?;
    put_notes(bundle, ops, out)
}

/// Appends the lines that explain a bundle, or leaves the bytes as they were for want of memory.
pub fn explain(alloc: Global, bundle: &Bundle, out: &mut Bytes) -> Result<(), NoMemory>
    ensures ok { OnOk result (out.new ≡ out.old ++ explanation bundle.now) }
    ensures err { OnErr result (out.new ≡ out.old) }
{
    let _size = bundle.size();
    let ops = operations(alloc, bundle.blocks())?;
    let mut lines = Bytes::new(alloc);
    put_lines(alloc, bundle, ops.items(), &mut lines)?;
    out.extend(lines.as_slice())
}
