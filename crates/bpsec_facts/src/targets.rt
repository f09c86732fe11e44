//! The reasons that speak of targets and numbers.

ghost use Rattle.std.specs.Prelude.{◌≡◌, ◌==◌, ◌&&◌, ◌||◌};
ghost use Rattle.std.specs.Option.{option_copied};
ghost use Rattle.std.specs.List.{find, list_any};
ghost use Rattle.bpsec_facts.specs.Items.{block_number, targets_of, service_of, same, is_in};
ghost use Rattle.bpsec_asb.specs.Known.{is_covered};
ghost use Rattle.bpsec_facts.specs.View.{facts};
ghost use Rattle.bpsec_facts.specs.Refusal.{block_at, has_block, item_at, has_item, is_there, no_target, kind_at, forbids, target_forbidden, is_taken, already_there, under_cipher, number_taken, is_security, primary_covered};

use crate::case::Case;
use crate::items::{block_kind, block_number, is_cipher, is_in, same, service_of, targets_of};
use bp_blocks::Block;
use bpsec_asb::{OpId, Service, is_covered};
use bpsec_plan::Item;

/// The block of this number.
pub(crate) fn block_at(blocks: &[Block], number: u64) -> Option<&Block>
    ensures { option_copied result ≡ block_at blocks.now number }
{
    blocks.iter().find(|block| block.number == number)
}

fn has_block(blocks: &[Block], number: u64) -> bool
    ensures { result ≡ has_block blocks.now number }
{
    blocks.iter().any(|block| block.number == number)
}

/// The first item whose new block has this number.
fn item_at(items: &[Item], number: u64) -> Option<&Item>
    ensures { option_copied result ≡ item_at items.now number }
{
    items.iter().find(|item| block_number(item) == number)
}

fn has_item(items: &[Item], number: u64) -> bool
    ensures { result ≡ has_item items.now number }
{
    items.iter().any(|item| block_number(item) == number)
}

fn is_there(case: &Case, number: u64) -> bool
    ensures { result ≡ is_there (facts case.now) number }
{
    number == 0 || has_block(case.blocks, number) || has_item(case.items, number)
}

#[tactic(auto, unfolding(crate::specs::Refusal::no_target))]
pub(crate) fn no_target(case: &Case, item: &Item) -> bool
    ensures { result ≡ no_target (facts case.now) item.now }
{
    targets_of(item)
        .iter()
        .any(|target| !is_there(case, *target))
}

/// The type of the bundle's block of this number, or else of the first item's.
fn kind_at(case: &Case, number: u64) -> u64
    ensures { result ≡ kind_at (facts case.now) number }
{
    if let Some(block) = block_at(case.blocks, number) {
        return block.kind;
    }
    match item_at(case.items, number) {
        Some(item) => block_kind(item),
        None => 0,
    }
}

/// Whether the item's service isn't for this target.
fn forbids(case: &Case, item: &Item, target: u64) -> bool
    ensures { result ≡ forbids (facts case.now) item.now target }
{
    let kind = kind_at(case, target);
    if is_cipher(item) {
        target == 0 || kind == 12
    } else {
        target != 0 && (kind == 11 || kind == 12)
    }
}

#[tactic(auto, unfolding(crate::specs::Refusal::target_forbidden))]
pub(crate) fn target_forbidden(case: &Case, item: &Item) -> bool
    ensures { result ≡ target_forbidden (facts case.now) item.now }
{
    targets_of(item)
        .iter()
        .any(|target| forbids(case, item, *target))
}

fn is_operated(ops: &[OpId], service: Service, target: u64) -> bool
    ensures { result ≡ list_any (λ op. same op.service service && op.target == target) ops.now }
{
    ops.iter()
        .any(|op| same(op.service, service) && op.target == target)
}

fn is_planned(before: &[Item], service: Service, target: u64) -> bool
    ensures { result ≡ list_any (λ earlier. same (service_of earlier) service
        && is_in (targets_of earlier) target) before.now }
{
    before.iter().any(|earlier| same(service_of(earlier), service)
        && is_in(targets_of(earlier), target))
}

/// Whether the target has an operation of the item's service.
fn is_taken(case: &Case, before: &[Item], item: &Item, target: u64) -> bool
    ensures { result ≡ is_taken (facts case.now) before.now item.now target }
{
    let service = service_of(item);
    is_operated(case.ops, service, target) || is_planned(before, service, target)
}

#[tactic(auto, unfolding(crate::specs::Refusal::already_there))]
pub(crate) fn already_there(case: &Case, before: &[Item], item: &Item) -> bool
    ensures { result ≡ already_there (facts case.now) before.now item.now }
{
    targets_of(item)
        .iter()
        .any(|target| is_taken(case, before, item, *target))
}

fn some_covered(blocks: &[Block], ops: &[OpId], targets: &[u64]) -> bool
    ensures { result ≡ list_any (is_covered blocks.now ops.now) targets.now }
{
    targets
        .iter()
        .any(|target| is_covered(blocks, ops, *target))
}

#[tactic(auto, unfolding(crate::specs::Refusal::under_cipher))]
pub(crate) fn under_cipher(case: &Case, item: &Item) -> bool
    ensures { result ≡ under_cipher (facts case.now) item.now }
{
    !is_cipher(item) && some_covered(case.blocks, case.ops, targets_of(item))
}

#[tactic(auto, unfolding(crate::specs::Refusal::number_taken))]
pub(crate) fn number_taken(case: &Case, before: &[Item], item: &Item) -> bool
    ensures { result ≡ number_taken (facts case.now) before.now item.now }
{
    let number = block_number(item);
    number <= 1 || has_block(case.blocks, number) || has_item(before, number)
}

fn has_security(blocks: &[Block]) -> bool
    ensures { result ≡ list_any is_security blocks.now }
{
    blocks
        .iter()
        .any(|block| block.kind == 11 || block.kind == 12)
}

#[tactic(auto, unfolding(crate::specs::Refusal::primary_covered))]
pub(crate) fn primary_covered(case: &Case, item: &Item) -> bool
    ensures { result ≡ primary_covered (facts case.now) item.now }
{
    !is_cipher(item)
        && is_in(targets_of(item), 0)
        && case.primary.crc.number() != 0
        && has_security(case.blocks)
}
