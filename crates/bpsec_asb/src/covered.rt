//! Blocks that operations cover.

ghost use Rattle.std.specs.Prelude.{◌≡◌, ◌==◌, ◌&&◌, not};
ghost use Rattle.std.specs.List.{list_any};
ghost use Rattle.bpsec_asb.specs.Known.{is_bcb, is_covered};

use crate::operation::{OpId, Service};
use bp_blocks::Block;

fn is_bcb(service: Service) -> bool
    ensures { result ≡ is_bcb service }
{
    match service {
        Service::Bib => false,
        Service::Bcb => true,
    }
}

fn is_targeted(ops: &[OpId], number: u64) -> bool
    ensures { result ≡ list_any (λ op. is_bcb op.service && op.target == number) ops.now }
{
    ops.iter()
        .any(|op| is_bcb(op.service) && op.target == number)
}

fn is_sealable(blocks: &[Block], number: u64) -> bool
    ensures { result ≡ list_any (λ block. block.number == number && not (block.kind == 12)) blocks.now }
{
    blocks
        .iter()
        .any(|block| block.number == number && block.kind != 12)
}

/// Whether one of these operations covers the block of this number (RFC 9172, section 3.8). Over the known operations of the
/// blocks that is whether any operation does, as a law says.
pub fn is_covered(blocks: &[Block], ops: &[OpId], number: u64) -> bool
    ensures { result ≡ is_covered blocks.now ops.now number }
{
    is_targeted(ops, number) && is_sealable(blocks, number)
}
