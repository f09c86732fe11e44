//! The first reason that holds.

ghost use Rattle.std.specs.Prelude.{◌≡◌, Some, IfOk};
ghost use Rattle.bpsec_facts.specs.View.{facts};
ghost use Rattle.bpsec_facts.specs.Refusal.{is_unreadable, lesser, unreadable, nowhere, too_many, early_refusal};

use crate::bibs::is_visible_bib;
use crate::case::Case;
use crate::reason::{PlanReason, Refusal};
use crate::table::{first_bad_split, first_refused};
use bp_blocks::Block;
use bpsec_asb::Asb;
use cbor_profile::{NoMemory, SpellError};
use std::alloc::Global;

/// The most canonical blocks of a bundle.
const BLOCK_LIMIT: usize = 64;

/// Whether it is a security block that must be readable and isn't.
fn is_unreadable(alloc: Global, case: &Case, block: &Block) -> Result<bool, NoMemory>
    ensures { IfOk result (λ is. is ≡ is_unreadable (facts case.now) block.now) }
{
    if block.kind != 12 && !is_visible_bib(case.blocks, case.ops, block) {
        return Ok(false);
    }
    match Asb::read(alloc, block.body.as_slice()) {
        Ok(_) => Ok(false),
        Err(SpellError::Fault(_)) => Ok(true),
        Err(SpellError::NoMemory) => Err(NoMemory::again()),
    }
}

/// The lesser of both numbers.
fn lesser(least: Option<u64>, number: u64) -> Option<u64>
    ensures { result ≡ lesser least number }
{
    match least {
        Some(least) => Some(least.min(number)),
        None => Some(number),
    }
}

/// The least number of a security block that must be readable and isn't.
#[tactic(auto, unfolding(crate::specs::Refusal::unreadable))]
pub fn unreadable(alloc: Global, case: &Case) -> Result<Option<u64>, NoMemory>
    ensures { IfOk result (λ least. least ≡ unreadable (facts case.now)) }
{
    let mut least = None;
    for block in case.blocks {
        if is_unreadable(alloc, case, block)? {
            least = lesser(least, block.number);
        }
    }
    Ok(least)
}

/// A reason that holds for no item.
pub fn nowhere(reason: PlanReason) -> Option<Refusal>
    ensures { result ≡ Some (nowhere reason) }
{
    Some(Refusal { reason, at: None })
}

/// `TooManyBlocks`, where it holds.
pub fn too_many(case: &Case) -> Option<Refusal>
    ensures { result ≡ too_many (facts case.now) }
{
    if BLOCK_LIMIT < case.blocks.len() + case.items.len() {
        nowhere(PlanReason::TooManyBlocks)
    } else {
        None
    }
}

/// The first reason that holds before anything is made: all of them but `TooLong`.
#[tactic(auto, unfolding(crate::specs::Refusal::early_refusal))]
pub fn early_refusal(alloc: Global, case: &Case) -> Result<Option<Refusal>, NoMemory>
    ensures { IfOk result (λ refusal. refusal ≡ early_refusal (facts case.now)) }
{
    if case.primary.is_fragment() {
        return Ok(nowhere(PlanReason::IsFragment));
    }
    if let Some(number) = unreadable(alloc, case)? {
        return Ok(Some(Refusal {
            reason: PlanReason::Unreadable,
            at: Some(number),
        }));
    }
    if let Some(index) = first_bad_split(alloc, case)? {
        return Ok(Some(Refusal {
            reason: PlanReason::BadSplit,
            at: Some(index as u64),
        }));
    }
    Ok(first_refused(case, too_many(case)))
}
