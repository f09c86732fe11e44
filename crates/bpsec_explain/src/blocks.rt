//! The lines of canonical blocks.

ghost use Rattle.std.specs.Prelude.{◌≡◌, ◌++◌, OnOk};
ghost use Rattle.bpsec_explain.specs.Lines.{block_line, hidden_lines, body_lines, block_lines};

use crate::bodies::{put_age, put_hops, put_previous_node};
use crate::security::{Source, put_security};
use crate::text::{put_flags, put_number};
use bp_blocks::Block;
use bp_bundle::Bundle;
use bpsec_asb::{OpId, Service, is_covered};
use cbor_profile::{Bytes, NoMemory};
use std::alloc::Global;

#[tactic(auto, unfolding(crate::specs::Lines::block_line))]
fn put_block_line(alloc: Global, block: &Block, out: &mut Bytes) -> Result<(), NoMemory>
    ensures { OnOk result (out.new ≡ out.old ++ block_line block.now) }
{
    put_number(alloc, "block ", block.number, out)?;
    put_number(alloc, " type=", block.kind, out)?;
    put_flags(alloc, block.flags, out)?;
    put_number(alloc, " check=", block.crc.number(), out)?;
    put_number(alloc, " length=", block.body.len() as u64, out)?;
    out.extend(b"\n")
}

fn put_hidden(kind: u64, out: &mut Bytes) -> Result<(), NoMemory>
    ensures { OnOk result (out.new ≡ out.old ++ hidden_lines kind) }
{
    match kind {
        6 | 7 | 10 | 11 => out.extend(b"hidden\n"),
        _ => Ok(()),
    }
}

#[tactic(auto, unfolding(crate::specs::Lines::body_lines))]
fn put_body(alloc: Global, bundle: &Bundle, block: &Block, out: &mut Bytes) -> Result<(), NoMemory>
    ensures { OnOk result (out.new ≡ out.old ++ body_lines bundle.now block.now) }
{
    let body = block.body.as_slice();
    let service = match block.kind {
        6 => return put_previous_node(alloc, body, out),
        7 => return put_age(alloc, body, out),
        10 => return put_hops(alloc, body, out),
        11 => Service::Bib,
        12 => Service::Bcb,
        _ => return Ok(()),
    };
    put_security(
        alloc,
        Source {
            bundle,
            service,
            block,
        },
        out,
    )
}

/// The lines of a block.
#[tactic(auto, unfolding(crate::specs::Lines::block_lines))]
pub(crate) fn put_block(
    alloc: Global,
    bundle: &Bundle,
    ops: &[OpId],
    block: &Block,
    out: &mut Bytes,
) -> Result<(), NoMemory>
    ensures { OnOk result (out.new ≡ out.old ++ block_lines bundle.now ops.now block.now) }
{
    put_block_line(alloc, block, out)?;
    if is_covered(bundle.blocks(), ops, block.number) {
        put_hidden(block.kind, out)
    } else {
        put_body(alloc, bundle, block, out)
    }
}
