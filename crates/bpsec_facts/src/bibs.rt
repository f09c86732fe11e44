//! Block integrity blocks: those that are there, and what splits leave of them.

ghost use Rattle.std.specs.Prelude.{◌≡◌, ◌==◌, ◌&&◌, ◌++◌, [], pos, map, Ok, IfOk, OnOk};
ghost use Rattle.std.specs.Option.{option_copied};
ghost use Rattle.std.specs.List.{find};
ghost use Rattle.bpsec_context.specs.Integrity as integrity;
ghost use Rattle.bpsec_facts.specs.Bibs.{is_visible_bib, parameters_of, has_bad_parameters, is_divisible, shown_in, shown_bibs, shown_at, moves, is_moved, left_of, remaining, planned_bib, result_bibs};

use crate::items::is_in;
use bp_blocks::Block;
use bp_primary::Primary;
use bpsec_asb::{Asb, OpId, Pair, is_covered};
use bpsec_context::{Judgement, MissetReason, Suite};
use bpsec_plan::Item;
use bpsec_scope::{Covered, Header, TargetOf};
use cbor_profile::{List, NoMemory, SpellError};
use std::alloc::Global;

/// A readable block integrity block that no operation covers.
#[derive(Debug, Drop)]
pub struct ShownBib {
    pub number: u64,
    pub asb: Asb,
    /// Whether it can be split.
    pub divisible: bool,
}

/// The targets of a block integrity block in the result.
#[derive(Debug, Drop)]
pub struct ResultBib {
    pub number: u64,
    pub targets: List<u64>,
}

/// Whether it is a block integrity block that no operation covers.
pub(crate) fn is_visible_bib(blocks: &[Block], ops: &[OpId], block: &Block) -> bool
    ensures { result ≡ is_visible_bib blocks.now ops.now block.now }
{
    block.kind == 11 && !is_covered(blocks, ops, block.number)
}

/// Whether context 1 can't take these parameters. It is asked to judge without a key, so nothing is hashed.
#[tactic(auto, unfolding(crate::specs::Bibs::has_bad_parameters, bpsec_context::specs::Integrity::judged))]
fn has_bad_parameters<S: Suite>(suite: &S, primary: &Primary, parameters: &[Pair]) -> bool
    requires { S.judged (pos 1) ≡ integrity.judged }
    ensures { result ≡ has_bad_parameters parameters.now }
{
    let covered = Covered {
        target: TargetOf::Primary,
        primary,
        target_header: None,
        security_header: Header {
            kind: 11,
            number: 0,
            flags: 0,
        },
    };
    let judged = suite.judge(1, None, parameters, &[], &covered);
    matches!(judged, Judgement::Misset(MissetReason::BadParameter))
}

fn parameters_of(parameters: &Option<List<Pair>>) -> &[Pair]
    ensures { result.now ≡ parameters_of parameters.now }
{
    match parameters {
        Some(parameters) => parameters.items(),
        None => &[],
    }
}

/// Whether a block integrity block can be split.
#[tactic(auto, unfolding(crate::specs::Bibs::is_divisible))]
fn is_divisible<S: Suite>(suite: &S, primary: &Primary, asb: &Asb) -> bool
    requires judged { S.judged (pos 1) ≡ integrity.judged }
    requires scope { S.scope (pos 1) ≡ integrity.scope_of }
    ensures { result ≡ is_divisible asb.now }
{
    let parameters = parameters_of(&asb.parameters);
    asb.context == 1
        && !has_bad_parameters(suite, primary, parameters)
        && suite.scope_of(1, parameters) & 0x4 != 0x4
}

/// Adds the block if it is one of those that are shown.
fn add_shown<S: Suite>(
    alloc: Global,
    suite: &S,
    primary: &Primary,
    blocks: &[Block],
    ops: &[OpId],
    block: &Block,
    shown: &mut List<ShownBib>,
) -> Result<(), NoMemory>
    requires judged { S.judged (pos 1) ≡ integrity.judged }
    requires scope { S.scope (pos 1) ≡ integrity.scope_of }
    ensures { OnOk result (shown.new ≡ shown.old ++ shown_in blocks.now ops.now block.now) }
{
    if !is_visible_bib(blocks, ops, block) {
        return Ok(());
    }
    match Asb::read(alloc, block.body.as_slice()) {
        Ok(asb) => {
            let divisible = is_divisible(suite, primary, &asb);
            let bib = ShownBib {
                number: block.number,
                asb,
                divisible,
            };
            shown.append(bib)
        }
        Err(SpellError::Fault(_)) => Ok(()),
        Err(SpellError::NoMemory) => Err(NoMemory::again()),
    }
}

/// The readable block integrity blocks that no operation covers.
#[tactic(auto, unfolding(crate::specs::Bibs::shown_bibs))]
pub fn shown_bibs<S: Suite>(
    alloc: Global,
    suite: &S,
    primary: &Primary,
    blocks: &[Block],
    ops: &[OpId],
) -> Result<List<ShownBib>, NoMemory>
    requires judged { S.judged (pos 1) ≡ integrity.judged }
    requires scope { S.scope (pos 1) ≡ integrity.scope_of }
    ensures { IfOk result (λ shown. shown ≡ shown_bibs blocks.now ops.now) }
{
    let mut shown = List::new(alloc);
    for block in blocks {
        add_shown(alloc, suite, primary, blocks, ops, block, &mut shown)?;
    }
    Ok(shown)
}

/// The one with this number.
pub fn shown_at(shown: &[ShownBib], number: u64) -> Option<&ShownBib>
    ensures { option_copied result ≡ shown_at shown.now number }
{
    shown.iter().find(|bib| bib.number == number)
}

/// Whether an item moves a target out of the block of this number.
fn moves(number: u64, target: u64, item: &Item) -> bool
    ensures { result ≡ moves number target item.now }
{
    match item {
        Item::Bib(_) | Item::Bcb { .. } => false,
        Item::Split(split) => split.from == number && is_in(split.targets.items(), target),
    }
}

fn is_moved(items: &[Item], number: u64, target: u64) -> bool
    ensures { result ≡ is_moved items.now number target }
{
    items.iter().any(|item| moves(number, target, item))
}

/// The targets that these items leave the block of this number.
pub(crate) fn left_of(
    alloc: Global,
    items: &[Item],
    number: u64,
    targets: &[u64],
) -> Result<List<u64>, NoMemory>
    ensures { IfOk result (λ left. left ≡ left_of items.now number targets.now) }
{
    let mut left = List::new(alloc);
    for target in targets {
        if !is_moved(items, number, *target) {
            left.append(*target)?;
        }
    }
    Ok(left)
}

/// These numbers again.
pub fn copied(alloc: Global, numbers: &[u64]) -> Result<List<u64>, NoMemory>
    ensures { IfOk result (λ copy. copy ≡ numbers.now) }
{
    Ok(List::of(Vec::from_slice(alloc, numbers)?))
}

/// Adds what splits leave of the blocks that are there.
fn add_remaining(
    alloc: Global,
    items: &[Item],
    shown: &[ShownBib],
    bibs: &mut List<ResultBib>,
) -> Result<(), NoMemory>
    ensures { OnOk result (bibs.new ≡ bibs.old ++ map (remaining items.now) shown.now) }
{
    for bib in shown {
        let targets = left_of(alloc, items, bib.number, bib.asb.targets.items())?;
        let number = bib.number;
        bibs.append(ResultBib { number, targets })?;
    }
    Ok(())
}

/// Adds the block that an item makes.
fn add_planned(alloc: Global, item: &Item, bibs: &mut List<ResultBib>) -> Result<(), NoMemory>
    ensures { OnOk result (bibs.new ≡ bibs.old ++ planned_bib item.now) }
{
    let (number, targets) = match item {
        Item::Bib(cover) => (cover.block, cover.targets.items()),
        Item::Split(split) => (split.block, split.targets.items()),
        Item::Bcb { .. } => return Ok(()),
    };
    let targets = copied(alloc, targets)?;
    bibs.append(ResultBib { number, targets })
}

/// The block integrity blocks of the result.
#[tactic(auto, unfolding(crate::specs::Bibs::result_bibs))]
pub fn result_bibs(
    alloc: Global,
    shown: &[ShownBib],
    items: &[Item],
) -> Result<List<ResultBib>, NoMemory>
    ensures { IfOk result (λ bibs. bibs ≡ result_bibs shown.now items.now) }
{
    let mut bibs = List::new(alloc);
    add_remaining(alloc, items, shown, &mut bibs)?;
    for item in items {
        add_planned(alloc, item, &mut bibs)?;
    }
    Ok(bibs)
}
