//! Steps 1 and 2: splits, and the blocks that lose their checks.

ghost use Rattle.std.specs.Prelude.{◌≡◌, ◌==◌, map, slice_get, position, IfOk};
ghost use Rattle.std.specs.Option.{option_copied, option_and_then};
ghost use Rattle.std.specs.List.{list_any};
ghost use Rattle.bpsec_asb.specs.SecurityBlock.{spelling};
ghost use Rattle.bpsec_facts.specs.View.{facts};
ghost use Rattle.bpsec_facts.specs.Left.{results_for, narrowed, narrowed_body, splits_from, left_in, body_left, check_left, primary_left, block_left};

use crate::bibs::{ShownBib, left_of, shown_at};
use crate::case::Case;
use crate::items::is_target;
use bp_blocks::Block;
use bp_crc::CheckKind;
use bp_primary::Primary;
use bpsec_asb::{Asb, Pair};
use bpsec_plan::Item;
use cbor_profile::{Bytes, List, NoMemory};
use std::alloc::Global;

/// How many bytes a tag behind a body may have.
const ROOM_FOR_TAG: usize = 16;

// ---- splits

/// These pairs again.
fn copied_pairs(alloc: Global, pairs: &[Pair]) -> Result<List<Pair>, NoMemory>
    ensures { IfOk result (λ copies. copies ≡ pairs.now) }
{
    let mut copies = List::new(alloc);
    for pair in pairs {
        let value = pair.value.copy(alloc)?;
        let copy = Pair { id: pair.id, value };
        copies.append(copy)?;
    }
    Ok(copies)
}

/// The results of a target, where it has an entry.
fn results_at(asb: &Asb, target: u64) -> Option<&List<Pair>>
    ensures { option_copied result
        ≡ option_and_then (slice_get asb.now.results)
        (position (λ listed. listed == target) asb.now.targets) }
{
    match asb.place_of(target) {
        Some(index) => asb.results.items().get(index),
        None => None,
    }
}

/// The results of a target.
#[tactic(auto, unfolding(crate::specs::Left::results_for))]
fn results_for(alloc: Global, asb: &Asb, target: u64) -> Result<List<Pair>, NoMemory>
    ensures { IfOk result (λ results. results ≡ results_for asb.now target) }
{
    match results_at(asb, target) {
        Some(results) => copied_pairs(alloc, results.items()),
        None => Ok(List::new(alloc)),
    }
}

/// The results of these targets.
fn results_of_all(alloc: Global, asb: &Asb, targets: &[u64]) -> Result<List<List<Pair>>, NoMemory>
    ensures { IfOk result (λ results. results ≡ map (results_for asb.now) targets.now) }
{
    let mut all = List::new(alloc);
    for target in targets {
        let results = results_for(alloc, asb, *target)?;
        all.append(results)?;
    }
    Ok(all)
}

/// The security block with these of its targets.
#[tactic(auto, unfolding(crate::specs::Left::narrowed))]
fn narrowed(alloc: Global, asb: &Asb, targets: List<u64>) -> Result<Asb, NoMemory>
    ensures { IfOk result (λ narrow. narrow ≡ narrowed asb.now targets) }
{
    let results = results_of_all(alloc, asb, targets.items())?;
    let mut narrow = asb.copy(alloc)?;
    narrow.targets = targets;
    narrow.results = results;
    Ok(narrow)
}

/// The body that a security block is.
pub fn body_of(alloc: Global, asb: &Asb) -> Result<Bytes, NoMemory>
    ensures { IfOk result (λ body. body ≡ spelling asb.now) }
{
    let mut body = Bytes::new(alloc);
    asb.put(&mut body)?;
    Ok(body)
}

/// The body of a block integrity block with these of its targets.
pub fn narrowed_body(
    alloc: Global,
    targets: List<u64>,
    bib: Option<&ShownBib>,
) -> Result<Bytes, NoMemory>
    ensures { IfOk result (λ body. body ≡ narrowed_body targets (option_copied bib.entry)) }
{
    match bib {
        Some(bib) => {
            let narrow = narrowed(alloc, &bib.asb, targets)?;
            body_of(alloc, &narrow)
        }
        None => Ok(Bytes::new(alloc)),
    }
}

/// A body again, with room for a tag behind it.
fn copied_body(alloc: Global, body: &[u8]) -> Result<Bytes, NoMemory>
    ensures { IfOk result (λ copy. copy ≡ body.now) }
{
    let mut copy = Bytes::new(alloc);
    copy.reserve(body.len() + ROOM_FOR_TAG)?;
    copy.extend(body)?;
    Ok(copy)
}

/// What splits leave in a body.
fn left_in(
    alloc: Global,
    items: &[Item],
    bib: Option<&ShownBib>,
    body: &[u8],
) -> Result<Bytes, NoMemory>
    ensures { IfOk result (λ left. left ≡ left_in items.now (option_copied bib.entry) body.now) }
{
    match bib {
        Some(bib) => {
            let left = left_of(alloc, items, bib.number, bib.asb.targets.items())?;
            let narrow = narrowed(alloc, &bib.asb, left)?;
            body_of(alloc, &narrow)
        }
        None => copied_body(alloc, body),
    }
}

/// Whether the item splits the block of this number.
fn splits_from(number: u64, item: &Item) -> bool
    ensures { result ≡ splits_from number item.now }
{
    match item {
        Item::Bib(_) | Item::Bcb { .. } => false,
        Item::Split(split) => split.from == number,
    }
}

fn is_split(items: &[Item], number: u64) -> bool
    ensures { result ≡ list_any (splits_from number) items.now }
{
    items.iter().any(|item| splits_from(number, item))
}

/// What splits leave in the body of a block.
#[tactic(auto, unfolding(crate::specs::Left::body_left))]
fn body_left(alloc: Global, case: &Case, block: &Block) -> Result<Bytes, NoMemory>
    ensures { IfOk result (λ body. body ≡ body_left (facts case.now) block.now) }
{
    if is_split(case.items, block.number) {
        let bib = shown_at(case.shown, block.number);
        left_in(alloc, case.items, bib, block.body.as_slice())
    } else {
        copied_body(alloc, block.body.as_slice())
    }
}

// ---- checks

/// The check that the block of this number keeps.
pub(crate) fn check_left(items: &[Item], number: u64, check: CheckKind) -> CheckKind
    ensures { result ≡ check_left items.now number check }
{
    if is_target(items, number) {
        CheckKind::None
    } else {
        check
    }
}

/// The block with this check.
fn with_check(mut primary: Primary, crc: CheckKind) -> Primary
    ensures { result ≡ record primary { crc = crc } }
{
    primary.crc = crc;
    primary
}

/// The primary block after both steps.
#[tactic(auto, unfolding(crate::specs::Left::primary_left))]
pub fn primary_left(alloc: Global, case: &Case) -> Result<Primary, NoMemory>
    ensures { IfOk result (λ primary. primary ≡ primary_left (facts case.now)) }
{
    let crc = check_left(case.items, 0, case.primary.crc);
    Ok(with_check(case.primary.copy(alloc)?, crc))
}

/// A block of the bundle after both steps.
#[tactic(auto, unfolding(crate::specs::Left::block_left))]
fn block_left(alloc: Global, case: &Case, block: &Block) -> Result<Block, NoMemory>
    ensures { IfOk result (λ left. left ≡ block_left (facts case.now) block.now) }
{
    Ok(Block {
        kind: block.kind,
        number: block.number,
        flags: block.flags,
        crc: check_left(case.items, block.number, block.crc),
        body: body_left(alloc, case, block)?,
    })
}

/// The blocks of the bundle after both steps.
pub fn blocks_left(alloc: Global, case: &Case) -> Result<List<Block>, NoMemory>
    ensures { IfOk result (λ left. left ≡ map (block_left (facts case.now)) case.now.blocks.now) }
{
    let mut left = List::new(alloc);
    for block in case.blocks {
        left.append(block_left(alloc, case, block)?)?;
    }
    Ok(left)
}
