//! Step 5, the other half: the results of bcb items, and the blocks of the secured bundle in their order.

ghost use Rattle.std.specs.Prelude.{◌≡◌, ◌==◌, ◌++◌, ◌∷◌, [], map, find, IfOk, OnOk, All};
ghost use Rattle.std.specs.Option.{option_copied};
ghost use Rattle.bpsec_asb.specs.SecurityBlock.{spelling};
ghost use Rattle.bpsec_facts.specs.View.{facts};
ghost use Rattle.bpsec_secure.specs.Usable.{Ciphers, IsUsable};
ghost use Rattle.bpsec_secure.specs.Tags.{tag_at, AreTags};
ghost use Rattle.bpsec_facts.specs.Left.{before_last};
ghost use Rattle.bpsec_secure.specs.Secured.{plain_block, sealed, sealed_result, sealed_asb, finished, added, kept};

use crate::parameters::cipher_parameters;
use crate::sealing::Tag;
use bp_blocks::Block;
use bpsec_asb::Pair;
use bpsec_facts::{Case, before_last, body_of, new_asb, only_tag};
use bpsec_plan::{Cover, Item};
use cbor_profile::{Bytes, List, NoMemory};
use std::alloc::Global;

fn found_tag(tags: &[Tag], target: u64) -> Option<&Tag>
    ensures { option_copied result ≡ find (λ tag. tag.number == target) tags.now }
{
    tags.iter().find(|tag| tag.number == target)
}

/// The tag over the block of this number, or no bytes.
fn tag_at(tags: &[Tag], target: u64) -> &[u8]
    ensures { result.now ≡ tag_at tags.now target }
{
    match found_tag(tags, target) {
        Some(found) => found.tag.as_slice(),
        None => &[],
    }
}

/// The entry of a target.
#[tactic(auto, unfolding(crate::specs::Secured::sealed_result), using(crate::proofs::TagLemmas::tag_found))]
fn sealed_result(
    alloc: Global,
    case: &Case,
    tags: &[Tag],
    tag_in_body: bool,
    target: u64,
) -> Result<List<Pair>, NoMemory>
    requires { AreTags (facts case.now) tags.now }
    ensures { IfOk result (λ entry. entry ≡ sealed_result (facts case.now) tag_in_body target) }
{
    if tag_in_body {
        Ok(List::new(alloc))
    } else {
        only_tag(alloc, tag_at(tags, target))
    }
}

/// The results of a bcb item.
fn sealed_results(
    alloc: Global,
    case: &Case,
    tags: &[Tag],
    tag_in_body: bool,
    targets: &[u64],
) -> Result<List<List<Pair>>, NoMemory>
    requires { AreTags (facts case.now) tags.now }
    ensures { IfOk result (λ results. results
        ≡ map (sealed_result (facts case.now) tag_in_body) targets.now) }
{
    let mut results = List::new(alloc);
    for target in targets {
        let entry = sealed_result(alloc, case, tags, tag_in_body, *target)?;
        results.append(entry)?;
    }
    Ok(results)
}

/// The body of the new block of a bcb item.
#[tactic(auto, unfolding(crate::specs::Secured::sealed_asb))]
fn sealed_body(
    alloc: Global,
    case: &Case,
    tags: &[Tag],
    cover: &Cover,
    vector: &[u8],
    tag_in_body: bool,
) -> Result<Bytes, NoMemory>
    requires tags { AreTags (facts case.now) tags.now }
    requires usable { Ciphers case.now.ring.now cover.now vector.now }
    ensures { IfOk result (λ body. body
        ≡ spelling (sealed_asb (facts case.now) cover.now vector.now tag_in_body)) }
{
    let parameters = cipher_parameters(alloc, case.ring, cover, vector)?;
    let results = sealed_results(alloc, case, tags, tag_in_body, cover.targets.items())?;
    let asb = new_asb(alloc, 2, cover, parameters, results)?;
    body_of(alloc, &asb)
}

/// The new block of an item.
fn finished(
    alloc: Global,
    case: &Case,
    tags: &[Tag],
    item: &Item,
    block: &Block,
) -> Result<Block, NoMemory>
    requires tags { AreTags (facts case.now) tags.now }
    requires usable { IsUsable case.now.ring.now item.now }
    ensures { IfOk result (λ new. new ≡ finished (facts case.now) item.now block.now) }
{
    match item {
        Item::Bcb {
            cover,
            iv,
            tag_in_body,
            ..
        } => Ok(Block {
            kind: block.kind,
            number: block.number,
            flags: block.flags,
            crc: block.crc,
            body: sealed_body(alloc, case, tags, cover, iv.as_slice(), *tag_in_body)?,
        }),
        Item::Bib(_) | Item::Split(_) => block.copy(alloc),
    }
}

/// Appends the new block of an item.
fn add_finished(
    alloc: Global,
    case: &Case,
    tags: &[Tag],
    item: &Item,
    block: &Block,
    new: &mut List<Block>,
) -> Result<(), NoMemory>
    requires tags { AreTags (facts case.now) tags.now }
    requires usable { IsUsable case.now.ring.now item.now }
    ensures { OnOk result (new.new ≡ new.old ++ finished (facts case.now) item.now block.now ∷ []) }
{
    let block = finished(alloc, case, tags, item, block)?;
    new.append(block)
}

/// The new blocks.
fn added_blocks(
    alloc: Global,
    case: &Case,
    tags: &[Tag],
    blocks: &[Block],
) -> Result<List<Block>, NoMemory>
    requires tags { AreTags (facts case.now) tags.now }
    requires usable { All (IsUsable case.now.ring.now) case.now.items.now }
    requires blocks { blocks.now ≡ map (sealed (facts case.now))
        (map (plain_block (facts case.now)) case.now.items.now) }
    ensures { IfOk result (λ new. new ≡ map (added (facts case.now)) case.now.items.now) }
{
    let mut new = List::new(alloc);
    for (i, item) in case.items.iter().enumerate() {
        add_finished(alloc, case, tags, item, &blocks[i], &mut new)?;
    }
    Ok(new)
}

/// All blocks, of those that are sealed.
pub(crate) fn joined(
    alloc: Global,
    case: &Case,
    tags: &[Tag],
    old: List<Block>,
    new: &[Block],
) -> Result<List<Block>, NoMemory>
    requires tags { AreTags (facts case.now) tags.now }
    requires usable { All (IsUsable case.now.ring.now) case.now.items.now }
    requires old { old ≡ map (kept (facts case.now)) case.now.blocks.now }
    requires new { new.now ≡ map (sealed (facts case.now))
        (map (plain_block (facts case.now)) case.now.items.now) }
    ensures { IfOk result (λ all. all
        ≡ before_last (map (kept (facts case.now)) case.now.blocks.now)
        (map (added (facts case.now)) case.now.items.now)) }
{
    let added = added_blocks(alloc, case, tags, new)?;
    before_last(old, added)
}
