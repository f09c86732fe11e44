//! The bundle with the code.

ghost use Rattle.std.specs.Prelude.{◌≡◌, ◌≤◌, ◌∷◌, ◌^◌, [], length, map, take, None, IfOk, IsFalse, MatchResult};
ghost use Rattle.std.specs.Option.{option_copied};
ghost use Rattle.bp_bundle.specs.Spelling.{IsBundle};
ghost use Rattle.bpsec_asb.specs.SecurityBlock.{spelling};
ghost use Rattle.bpsec_scope.specs.View.{parts_of};
ghost use Rattle.bpsec_scope.specs.Target.{body_of, is_sealed, target_of};
ghost use Rattle.bpsec_context.specs.Calls.{only_tag};
ghost use Rattle.bpsec_plan.specs.declared.item.Item.TheVariants.{Bib};
ghost use Rattle.bpsec_facts.specs.View.{facts};
ghost use Rattle.bpsec_facts.specs.Left.{AreShort, key_of_cover, primary_left};
ghost use Rattle.bpsec_facts.specs.Answer.{Answers, HasShape, IsFaultOf, long_refusal, or_next};
ghost use Rattle.bpsec_mac.specs.Mac.{code_of, cover_of, early_refusal, mac_asb, mac_block};
ghost use Rattle.bpsec_mac.specs.Mac.{mac_bundle, mac_parameters, parts_of_target, refusal, with_mac};

use crate::item::{MacItem, cover_of};
use crate::refusal::early_refusal;
use bp_blocks::Block;
use bp_bundle::Bundle;
use bp_bundle::laws::bundles_have_no_fault_of_shape;
use bp_primary::Primary;
use bpsec_asb::{Pair, operations};
use bpsec_cmac::CmacContext;
use bpsec_context::laws::{numbers_are_read_as_spelled, the_default_suite_is_rfc_9173};
use bpsec_context::{DefaultSuite, GcmContext, HmacContext, IntegrityContext};
use bpsec_facts::{
    Case, PlanFault, Refusal, add_number, before_last, blocks_left, body_of, bundle_of, key_named,
    new_asb, new_block, new_header, only_tag, primary_left, result_bibs, short_block_at,
    shown_bibs, signed_covered,
};
use bpsec_plan::{Cover, Item};
use bpsec_policy::KeyRing;
use bpsec_scope::Covered;
use cbor_profile::{Bytes, List, NoMemory};
use std::alloc::Global;

/// The parameters of the new block.
fn parameters(alloc: Global, cover: &Cover) -> Result<List<Pair>, NoMemory>
    ensures { IfOk result (λ pairs. pairs ≡ mac_parameters cover.now) }
{
    let mut pairs = List::new(alloc);
    add_number(alloc, 3, cover.scope % 8, &mut pairs)?;
    Ok(pairs)
}

/// The code at the front of `tag`, and its length.
fn sign(
    ring: &KeyRing,
    cover: &Cover,
    parameters: &[Pair],
    covered: &Covered,
    tag: &mut [u8; 64],
) -> usize
    requires parameters { parameters.now ≡ mac_parameters cover.now }
    requires key { length (key_of_cover ring.now cover.now) ≡ 16 }
    requires unsealed { IsFalse (is_sealed (target_of covered.now.target)) }
    requires body { length (body_of (target_of covered.now.target)) ≤ 2 ^ 32 }
    ensures len { result ≤ 64 }
    ensures code { take result tag.new ≡ code_of ring.now cover.now (parts_of covered.now) }
{
    numbers_are_read_as_spelled();
    let key = key_named(ring, cover.key.as_slice());
    match CmacContext.sign(key, parameters, covered, tag) {
        Ok(len) => len,
        Err(_) => unreachable!(),
    }
}

/// The results of the new block.
fn results(
    alloc: Global,
    case: &Case,
    primary: &Primary,
    item: &Item,
    cover: &Cover,
    target: u64,
    parameters: &[Pair],
) -> Result<List<List<Pair>>, NoMemory>
    requires primary { primary.now ≡ primary_left (facts case.now) }
    requires item { item.now ≡ Bib cover.now }
    requires parameters { parameters.now ≡ mac_parameters cover.now }
    requires key { length (key_of_cover case.now.ring.now cover.now) ≡ 16 }
    requires bodies { AreShort case.now.blocks.now }
    ensures { IfOk result (λ results. results ≡ only_tag
        (code_of case.now.ring.now cover.now (parts_of_target (facts case.now) cover.now target)) ∷ []) }
{
    let block = short_block_at(case.blocks, target);
    let covered = signed_covered(primary, new_header(item), block);
    let mut tag = [0; 64];
    let len = sign(case.ring, cover, parameters, &covered, &mut tag);
    let mut results = List::new(alloc);
    results.append(only_tag(alloc, &tag[..len])?)?;
    Ok(results)
}

/// The body of the new block.
#[tactic(auto, unfolding(crate::specs::Mac::mac_asb))]
fn body(
    alloc: Global,
    case: &Case,
    primary: &Primary,
    item: &Item,
    cover: &Cover,
    target: u64,
) -> Result<Bytes, NoMemory>
    requires primary { primary.now ≡ primary_left (facts case.now) }
    requires item { item.now ≡ Bib cover.now }
    requires key { length (key_of_cover case.now.ring.now cover.now) ≡ 16 }
    requires bodies { AreShort case.now.blocks.now }
    ensures { IfOk result (λ body. body
        ≡ spelling (mac_asb (facts case.now) cover.now target)) }
{
    let parameters = parameters(alloc, cover)?;
    let results = results(
        alloc,
        case,
        primary,
        item,
        cover,
        target,
        parameters.items(),
    )?;
    let asb = new_asb(alloc, -1, cover, parameters, results)?;
    body_of(alloc, &asb)
}

/// The parts of the bundle with the code.
#[tactic(auto, unfolding(crate::specs::Mac::mac_block, crate::specs::Mac::with_mac))]
fn parts(
    alloc: Global,
    case: &Case,
    item: &Item,
    cover: &Cover,
    target: u64,
) -> Result<(Primary, List<Block>), NoMemory>
    requires item { item.now ≡ Bib cover.now }
    requires key { length (key_of_cover case.now.ring.now cover.now) ≡ 16 }
    requires bodies { AreShort case.now.blocks.now }
    ensures { IfOk result (λ parts. record { primary = parts.0; blocks = parts.1 }
        ≡ with_mac (facts case.now) cover.now target) }
{
    let primary = primary_left(alloc, case)?;
    let body = body(alloc, case, &primary, item, cover, target)?;
    let mut new = List::new(alloc);
    new.append(new_block(case, item, body))?;
    let blocks = before_last(blocks_left(alloc, case)?, new)?;
    Ok((primary, blocks))
}

/// The bundle with the code, or the first reason against it.
fn decided(
    alloc: Global,
    case: &Case,
    item: &Item,
    cover: &Cover,
    target: u64,
) -> Result<Result<Bundle, Refusal>, NoMemory>
    requires item { item.now ≡ Bib cover.now }
    requires items { case.now.items.now ≡ item.now ∷ [] }
    requires bundle { IsBundle (record {
      primary = case.now.primary.now;
      blocks = case.now.blocks.now;
    }) }
    ensures { IfOk result (λ answer. Answers answer
        (or_next (early_refusal (facts case.now) cover.now)
        (long_refusal (with_mac (facts case.now) cover.now target)))
        (with_mac (facts case.now) cover.now target)) }
{
    bundles_have_no_fault_of_shape();
    if let Some(refusal) = early_refusal(alloc, case, cover)? {
        return Ok(Err(refusal));
    }
    let (primary, blocks) = parts(alloc, case, item, cover, target)?;
    Ok(bundle_of(primary, blocks))
}

/// The bundle with the code, or the first reason against it, unless memory runs out.
#[tactic(auto, unfolding(crate::specs::Mac::mac_facts, crate::specs::Mac::refusal, crate::specs::Mac::mac_bundle, bpsec_facts::specs::Facts::facts_of))]
fn answered(
    alloc: Global,
    bundle: &Bundle,
    item: &MacItem,
    ring: &KeyRing,
) -> Result<Result<Bundle, Refusal>, NoMemory>
    ensures { IfOk result (λ answer. Answers answer
        (refusal bundle.now item.now ring.now) (mac_bundle bundle.now item.now ring.now)) }
{
    // Asked for so that what every bundle keeps is known.
    let _size = bundle.size();
    let cover = cover_of(alloc, item)?;
    let items = [Item::Bib(cover_of(alloc, item)?)];
    let ops = operations(alloc, bundle.blocks())?;
    the_default_suite_is_rfc_9173();
    let suite = DefaultSuite {
        integrity: HmacContext,
        cipher: GcmContext,
    };
    let shown = shown_bibs(
        alloc,
        &suite,
        bundle.primary(),
        bundle.blocks(),
        ops.items(),
    )?;
    let bibs = result_bibs(alloc, shown.items(), &items)?;
    let case = Case {
        primary: bundle.primary(),
        blocks: bundle.blocks(),
        ops: ops.items(),
        shown: shown.items(),
        bibs: bibs.items(),
        items: &items,
        ring,
    };
    decided(alloc, &case, &items[0], &cover, item.target)
}

/// The bundle with the code that the item asks for (RFC 9172, section 3.7; RFC 4493), or the first reason against it, with 0
/// for the item; for `Unreadable` the least number of a block, and for `IsFragment`, `TooManyBlocks` and `TooLong` none.
pub fn add_mac(
    alloc: Global,
    bundle: &Bundle,
    item: &MacItem,
    ring: &KeyRing,
) -> Result<Bundle, PlanFault>
    ensures ok { IfOk result (λ with. with ≡ mac_bundle bundle.now item.now ring.now) }
    // Which reason it is, or none. Memory may run out in each case.
    ensures exact { MatchResult result (λ _. refusal bundle.now item.now ring.now ≡ None)
        (λ fault. IsFaultOf fault (refusal bundle.now item.now ring.now)) }
{
    match answered(alloc, bundle, item, ring) {
        Ok(Ok(with)) => Ok(with),
        Ok(Err(Refusal { reason, at })) => Err(PlanFault::Refused { reason, at }),
        Err(error) => Err(error.into()),
    }
}
