//! What the new blocks are made of: their headers, what they cover, and where they stand.

ghost use Rattle.std.specs.Prelude.{◌≡◌, ◌≤◌, ◌^◌, map, length, IfOk, IfSome, IsFalse};
ghost use Rattle.std.specs.Option.{option_copied};
ghost use Rattle.bpsec_asb.specs.SecurityBlock.{spelling};
ghost use Rattle.bpsec_scope.specs.View.{parts_of};
ghost use Rattle.bpsec_scope.specs.Target.{target_of, is_sealed, body_of};
ghost use Rattle.bpsec_facts.specs.View.{facts};
ghost use Rattle.bpsec_facts.specs.Refusal.{block_at};
ghost use Rattle.bpsec_facts.specs.Left.{AreShort, before_last, header_of, new_asb, new_block, new_header, signed_parts};

use crate::bibs::copied;
use crate::case::Case;
use crate::items::{block_check, block_flags, block_kind, block_number};
use crate::splits::check_left;
use crate::targets::block_at;
use bp_blocks::Block;
use bp_primary::Primary;
use bpsec_asb::{Asb, Pair};
use bpsec_plan::{Cover, Item};
use bpsec_scope::{Covered, Header, TargetOf};
use cbor_profile::{Bytes, List, NoMemory};
use std::alloc::Global;

/// The fields of a block that a scope may cover.
pub fn header_of(block: &Block) -> Header
    ensures { result ≡ header_of block.now }
{
    Header {
        kind: block.kind,
        number: block.number,
        flags: block.flags,
    }
}

/// Those of the new block of an item.
pub fn new_header(item: &Item) -> Header
    ensures { result ≡ new_header item.now }
{
    Header {
        kind: block_kind(item),
        number: block_number(item),
        flags: block_flags(item),
    }
}

/// The new block of an item, with this body.
#[tactic(auto, unfolding(crate::specs::Left::new_block))]
pub fn new_block(case: &Case, item: &Item, body: Bytes) -> Block
    ensures { result ≡ new_block (facts case.now) item.now body }
{
    let number = block_number(item);
    Block {
        kind: block_kind(item),
        number,
        flags: block_flags(item),
        crc: check_left(case.items, number, block_check(item)),
        body,
    }
}

/// A security block of the context with this id, with parameters.
pub fn new_asb(
    alloc: Global,
    context: i64,
    cover: &Cover,
    parameters: List<Pair>,
    results: List<List<Pair>>,
) -> Result<Asb, NoMemory>
    ensures { IfOk result (λ asb. asb ≡ new_asb context cover.now parameters results) }
{
    Ok(Asb {
        targets: copied(alloc, cover.targets.items())?,
        context,
        flags: 1,
        source: cover.source.copy(alloc)?,
        parameters: Some(parameters),
        results,
    })
}

/// The block of this number, whose body a context takes.
pub fn short_block_at(blocks: &[Block], number: u64) -> Option<&Block>
    requires { AreShort blocks.now }
    ensures value { option_copied result ≡ block_at blocks.now number }
    ensures short { IfSome (option_copied result) (λ block. length block.body ≤ 2 ^ 32) }
{
    block_at(blocks, number)
}

/// What a code covers: the primary block where there is no block.
pub fn signed_covered<'a>(
    primary: &'a Primary,
    header: Header,
    block: Option<&'a Block>,
) -> Covered<'a>
    ensures parts { parts_of result ≡ signed_parts primary.now header (option_copied block.entry) }
    ensures unsealed { IsFalse (is_sealed (target_of result.target)) }
    ensures short { IfSome (option_copied block.entry) (λ block. length block.body ≤ 2 ^ 32)
        → length (body_of (target_of result.target)) ≤ 2 ^ 32 }
{
    match block {
        Some(block) => Covered {
            target: TargetOf::Body(block.body.as_slice()),
            primary,
            target_header: Some(header_of(block)),
            security_header: header,
        },
        None => Covered {
            target: TargetOf::Primary,
            primary,
            target_header: None,
            security_header: header,
        },
    }
}

/// The blocks with the new ones before the last.
pub fn before_last(blocks: List<Block>, new: List<Block>) -> Result<List<Block>, NoMemory>
    ensures { IfOk result (λ all. all ≡ before_last blocks new) }
{
    let mut all = blocks.into_vec();
    let last = all.pop();
    let mut new = new.into_vec();
    all.append(&mut new)?;
    if let Some(last) = last {
        all.push(last)?;
    }
    Ok(List::of(all))
}
