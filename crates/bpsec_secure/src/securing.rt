//! Securing.

ghost use Rattle.std.specs.Prelude.{◌≡◌, ◌||◌, pos, true, map, None, IfOk, IfSome, IfNone, MatchResult, IsTrue, All};
ghost use Rattle.std.specs.List.{list_any};
ghost use Rattle.bpsec_context.specs.Integrity as integrity;
ghost use Rattle.bpsec_context.specs.Confidentiality as confidentiality;
ghost use Rattle.bp_bundle.specs.Spelling.{IsBundle};
ghost use Rattle.bpsec_policy.specs.Ring.{is_ring};
ghost use Rattle.bpsec_plan.specs.Items.{is_plan};
ghost use Rattle.bpsec_facts.specs.declared.reason.PlanReason.TheVariants.{TooLong};
ghost use Rattle.bpsec_facts.specs.View.{facts};
ghost use Rattle.bpsec_facts.specs.Left.{AreShort, is_long};
ghost use Rattle.bpsec_secure.specs.Usable.{IsUsable};
ghost use Rattle.bpsec_facts.specs.Refusal.{early_refusal, nowhere};
ghost use Rattle.bpsec_facts.specs.Left.{block_left};
ghost use Rattle.bpsec_secure.specs.Secured.{plain_block, secured};
ghost use Rattle.bpsec_facts.specs.Answer.{long_refusal, or_next, HasShape, Answers, IsFaultOf};
ghost use Rattle.bpsec_secure.specs.Answer.{refusal, secured_bundle};

use crate::adding::joined;
use crate::sealing::seal_all;
use crate::signing::new_blocks;
use bp_blocks::Block;
use bp_bundle::Bundle;
use bp_bundle::laws::bundles_have_no_fault_of_shape;
use bp_primary::Primary;
use bpsec_asb::operations;
use bpsec_context::Suite;
use bpsec_facts::{
    Case, PlanFault, Refusal, blocks_left, bundle_of, early_refusal, primary_left, result_bibs,
    shown_bibs, too_long,
};
use bpsec_plan::Plan;
use bpsec_policy::KeyRing;
use cbor_profile::{BUNDLE_LIMIT, List, NoMemory};
use std::alloc::Global;

/// Whether a body alone is longer than a bundle may be.
fn has_long(blocks: &[Block]) -> bool
    ensures { result ≡ list_any is_long blocks.now }
{
    blocks
        .iter()
        .any(|block| BUNDLE_LIMIT < block.body.len() as u64)
}

/// Whether a body of either list is.
fn either_long(old: &[Block], new: &[Block]) -> bool
    ensures { result ≡ (list_any is_long old.now || list_any is_long new.now) }
{
    has_long(old) || has_long(new)
}

/// The parts of the secured bundle, or None where a body alone is too long.
#[tactic(auto, unfolding(crate::specs::Secured::secured))]
fn parts<S: Suite>(
    alloc: Global,
    case: &Case,
    suite: &S,
) -> Result<Option<(Primary, List<Block>)>, NoMemory>
    requires signed { S.signed (pos 1) ≡ integrity.signed }
    requires sealed { S.sealed (pos 2) ≡ confidentiality.sealed }
    requires usable { All (IsUsable case.now.ring.now) case.now.items.now }
    requires bodies { AreShort case.now.blocks.now }
    ensures made { IfOk result (λ parts.
        IfSome parts (λ p. record { primary = p.0; blocks = p.1 } ≡ secured (facts case.now))) }
    ensures long { IfOk result (λ parts. IfNone parts
        ((list_any is_long (map (block_left (facts case.now)) case.now.blocks.now)
        || list_any is_long (map (plain_block (facts case.now)) case.now.items.now)) ≡ true)) }
{
    let primary = primary_left(alloc, case)?;
    let mut old = blocks_left(alloc, case)?;
    let mut new = new_blocks(alloc, case, suite, &primary)?;
    if either_long(old.items(), new.items()) {
        return Ok(None);
    }
    let tags = seal_all(alloc, case, suite, &primary, &mut old, &mut new)?;
    let blocks = joined(alloc, case, tags.items(), old, new.items())?;
    Ok(Some((primary, blocks)))
}

/// The secured bundle, where no reason before `TooLong` holds.
fn applied<S: Suite>(
    alloc: Global,
    case: &Case,
    suite: &S,
) -> Result<Result<Bundle, Refusal>, NoMemory>
    requires signed { S.signed (pos 1) ≡ integrity.signed }
    requires sealed { S.sealed (pos 2) ≡ confidentiality.sealed }
    requires usable { All (IsUsable case.now.ring.now) case.now.items.now }
    requires bodies { AreShort case.now.blocks.now }
    requires shape { HasShape (secured (facts case.now)) }
    ensures { IfOk result (λ answer.
        Answers answer (long_refusal (secured (facts case.now))) (secured (facts case.now))) }
{
    match parts(alloc, case, suite)? {
        Some((primary, blocks)) => Ok(bundle_of(primary, blocks)),
        None => Ok(Err(too_long())),
    }
}

/// The secured bundle, or the first reason against it.
fn decided<S: Suite>(
    alloc: Global,
    case: &Case,
    suite: &S,
) -> Result<Result<Bundle, Refusal>, NoMemory>
    requires signed { S.signed (pos 1) ≡ integrity.signed }
    requires sealed { S.sealed (pos 2) ≡ confidentiality.sealed }
    requires bundle { IsBundle (record {
      primary = case.now.primary.now;
      blocks = case.now.blocks.now;
    }) }
    requires plan { IsTrue (is_plan case.now.items.now) }
    requires ring { IsTrue (is_ring case.now.ring.now) }
    ensures { IfOk result (λ answer. Answers answer
        (or_next (early_refusal (facts case.now)) (long_refusal (secured (facts case.now))))
        (secured (facts case.now))) }
{
    bundles_have_no_fault_of_shape();
    if let Some(refusal) = early_refusal(alloc, case)? {
        return Ok(Err(refusal));
    }
    applied(alloc, case, suite)
}

/// The secured bundle, or the first reason against it, unless memory runs out.
#[tactic(auto, unfolding(bpsec_facts::specs::Facts::facts_of, crate::specs::Answer::refusal, crate::specs::Answer::secured_bundle))]
fn answered<S: Suite>(
    alloc: Global,
    bundle: &Bundle,
    plan: &Plan,
    ring: &KeyRing,
    suite: &S,
) -> Result<Result<Bundle, Refusal>, NoMemory>
    requires judged { S.judged (pos 1) ≡ integrity.judged }
    requires scope { S.scope (pos 1) ≡ integrity.scope_of }
    requires signed { S.signed (pos 1) ≡ integrity.signed }
    requires sealed { S.sealed (pos 2) ≡ confidentiality.sealed }
    ensures { IfOk result (λ answer. Answers answer
        (refusal bundle.now plan.now ring.now) (secured_bundle bundle.now plan.now ring.now)) }
{
    // Asked for so that what every bundle, plan and ring keeps is known.
    let _size = bundle.size();
    let _keys = ring.keys();
    let items = plan.items();
    let ops = operations(alloc, bundle.blocks())?;
    let shown = shown_bibs(alloc, suite, bundle.primary(), bundle.blocks(), ops.items())?;
    let bibs = result_bibs(alloc, shown.items(), items)?;
    let case = Case {
        primary: bundle.primary(),
        blocks: bundle.blocks(),
        ops: ops.items(),
        shown: shown.items(),
        bibs: bibs.items(),
        items,
        ring,
    };
    decided(alloc, &case, suite)
}

/// The bundle that the plan makes of this one, or the first reason against it (RFC 9172, section 3; RFC 9173, sections 3.8 and
/// 4.8). The suite serves the contexts 1 and 2 of RFC 9173 by their definitions.
pub fn secure<S: Suite>(
    alloc: Global,
    bundle: &Bundle,
    plan: &Plan,
    ring: &KeyRing,
    suite: &S,
) -> Result<Bundle, PlanFault>
    requires judged { S.judged (pos 1) ≡ integrity.judged }
    requires scope { S.scope (pos 1) ≡ integrity.scope_of }
    requires signed { S.signed (pos 1) ≡ integrity.signed }
    requires sealed { S.sealed (pos 2) ≡ confidentiality.sealed }
    ensures ok { IfOk result (λ secured. secured ≡ secured_bundle bundle.now plan.now ring.now) }
    // Which reason it is, or none. Memory may run out in each case.
    ensures exact { MatchResult result (λ _. refusal bundle.now plan.now ring.now ≡ None)
        (λ fault. IsFaultOf fault (refusal bundle.now plan.now ring.now)) }
{
    match answered(alloc, bundle, plan, ring, suite) {
        Ok(Ok(secured)) => Ok(secured),
        Ok(Err(Refusal { reason, at })) => Err(PlanFault::Refused { reason, at }),
        Err(error) => Err(error.into()),
    }
}
