//! Steps 3 and 4: the new blocks, and the results of bib items.

ghost use Rattle.std.specs.Prelude.{◌≡◌, ◌≤◌, ◌^◌, pos, map, take, length, IfOk, IfSome, IsFalse, All};
ghost use Rattle.bpsec_asb.specs.SecurityBlock.{spelling};
ghost use Rattle.bpsec_scope.specs.View.{parts_of};
ghost use Rattle.bpsec_scope.specs.Target.{target_of, is_sealed, body_of};
ghost use Rattle.bpsec_context.specs.Integrity as integrity;
ghost use Rattle.bpsec_facts.specs.View.{facts};
ghost use Rattle.bpsec_secure.specs.Parameters.{integrity_parameters};
ghost use Rattle.bpsec_facts.specs.Left.{AreShort};
ghost use Rattle.bpsec_secure.specs.Usable.{Signs, IsUsable};
ghost use Rattle.bpsec_facts.specs.Left.{primary_left};
ghost use Rattle.bpsec_secure.specs.Secured.{code_of, signed_result, signed_asb, plain_body, plain_block};

use crate::parameters::{integrity_parameters, outer_key};
use bp_blocks::Block;
use bp_primary::Primary;
use bpsec_asb::Pair;
use bpsec_context::Suite;
use bpsec_context::laws::{byte_strings_are_read_as_spelled, numbers_are_read_as_spelled};
use bpsec_facts::{
    Case, body_of, copied, narrowed_body, new_asb, new_block, new_header, only_tag, short_block_at,
    shown_at, signed_covered,
};
use bpsec_plan::{Cover, Item};
use bpsec_policy::KeyRing;
use bpsec_scope::Covered;
use cbor_profile::{Bytes, List, NoMemory};
use key_wrap::laws::{unwrapping_undoes_wrapping, wrapped_keys_have_eight_bytes_more};
use std::alloc::Global;

/// The code of a bib item over a target, at the front of `tag`, and its length.
fn sign<S: Suite>(
    ring: &KeyRing,
    suite: &S,
    cover: &Cover,
    parameters: &[Pair],
    covered: &Covered,
    tag: &mut [u8; 64],
) -> usize
    requires suite { S.signed (pos 1) ≡ integrity.signed }
    requires parameters { parameters.now ≡ integrity_parameters ring.now cover.now }
    requires usable { Signs ring.now cover.now }
    requires unsealed { IsFalse (is_sealed (target_of covered.now.target)) }
    requires body { length (body_of (target_of covered.now.target)) ≤ 2 ^ 32 }
    ensures len { result ≤ 64 }
    ensures code { take result tag.new ≡ code_of ring.now cover.now (parts_of covered.now) }
{
    numbers_are_read_as_spelled();
    byte_strings_are_read_as_spelled();
    unwrapping_undoes_wrapping();
    wrapped_keys_have_eight_bytes_more();
    let key = outer_key(ring, cover);
    match suite.sign(1, key, parameters, covered, tag) {
        Ok(len) => len,
        Err(_) => unreachable!(),
    }
}

/// The result of a bib item for a target.
#[tactic(auto, unfolding(crate::specs::Secured::signed_result))]
fn signed_result<S: Suite>(
    alloc: Global,
    case: &Case,
    suite: &S,
    primary: &Primary,
    item: &Item,
    cover: &Cover,
    parameters: &[Pair],
    target: u64,
) -> Result<List<Pair>, NoMemory>
    requires suite { S.signed (pos 1) ≡ integrity.signed }
    requires primary { primary.now ≡ primary_left (facts case.now) }
    requires parameters { parameters.now ≡ integrity_parameters case.now.ring.now cover.now }
    requires usable { Signs case.now.ring.now cover.now }
    requires bodies { AreShort case.now.blocks.now }
    ensures { IfOk result (λ results. results
        ≡ signed_result (facts case.now) item.now cover.now target) }
{
    let block = short_block_at(case.blocks, target);
    let covered = signed_covered(primary, new_header(item), block);
    let mut tag = [0; 64];
    let len = sign(case.ring, suite, cover, parameters, &covered, &mut tag);
    only_tag(alloc, &tag[..len])
}

/// The results of a bib item.
fn signed_results<S: Suite>(
    alloc: Global,
    case: &Case,
    suite: &S,
    primary: &Primary,
    item: &Item,
    cover: &Cover,
    parameters: &[Pair],
) -> Result<List<List<Pair>>, NoMemory>
    requires suite { S.signed (pos 1) ≡ integrity.signed }
    requires primary { primary.now ≡ primary_left (facts case.now) }
    requires parameters { parameters.now ≡ integrity_parameters case.now.ring.now cover.now }
    requires usable { Signs case.now.ring.now cover.now }
    requires bodies { AreShort case.now.blocks.now }
    ensures { IfOk result (λ results. results
        ≡ map (signed_result (facts case.now) item.now cover.now) cover.now.targets) }
{
    let mut results = List::new(alloc);
    for target in cover.targets.items() {
        let found = signed_result(
            alloc, case, suite, primary, item, cover, parameters, *target,
        )?;
        results.append(found)?;
    }
    Ok(results)
}

/// The body of the new block of a bib item.
#[tactic(auto, unfolding(crate::specs::Secured::signed_asb))]
fn signed_body<S: Suite>(
    alloc: Global,
    case: &Case,
    suite: &S,
    primary: &Primary,
    item: &Item,
    cover: &Cover,
) -> Result<Bytes, NoMemory>
    requires suite { S.signed (pos 1) ≡ integrity.signed }
    requires primary { primary.now ≡ primary_left (facts case.now) }
    requires usable { Signs case.now.ring.now cover.now }
    requires bodies { AreShort case.now.blocks.now }
    ensures { IfOk result (λ body. body
        ≡ spelling (signed_asb (facts case.now) item.now cover.now)) }
{
    let parameters = integrity_parameters(alloc, case.ring, cover)?;
    let results = signed_results(alloc, case, suite, primary, item, cover, parameters.items())?;
    let asb = new_asb(alloc, 1, cover, parameters, results)?;
    body_of(alloc, &asb)
}

/// The body of the new block of an item, before anything is sealed.
fn plain_body<S: Suite>(
    alloc: Global,
    case: &Case,
    suite: &S,
    primary: &Primary,
    item: &Item,
) -> Result<Bytes, NoMemory>
    requires suite { S.signed (pos 1) ≡ integrity.signed }
    requires primary { primary.now ≡ primary_left (facts case.now) }
    requires usable { IsUsable case.now.ring.now item.now }
    requires bodies { AreShort case.now.blocks.now }
    ensures { IfOk result (λ body. body ≡ plain_body (facts case.now) item.now) }
{
    match item {
        Item::Bib(cover) => signed_body(alloc, case, suite, primary, item, cover),
        Item::Bcb { .. } => Ok(Bytes::new(alloc)),
        Item::Split(split) => {
            let targets = copied(alloc, split.targets.items())?;
            narrowed_body(alloc, targets, shown_at(case.shown, split.from))
        }
    }
}

/// The new block of an item, before anything is sealed.
#[tactic(auto, unfolding(crate::specs::Secured::plain_block))]
fn plain_block<S: Suite>(
    alloc: Global,
    case: &Case,
    suite: &S,
    primary: &Primary,
    item: &Item,
) -> Result<Block, NoMemory>
    requires suite { S.signed (pos 1) ≡ integrity.signed }
    requires primary { primary.now ≡ primary_left (facts case.now) }
    requires usable { IsUsable case.now.ring.now item.now }
    requires bodies { AreShort case.now.blocks.now }
    ensures { IfOk result (λ block. block ≡ plain_block (facts case.now) item.now) }
{
    let body = plain_body(alloc, case, suite, primary, item)?;
    Ok(new_block(case, item, body))
}

/// The new blocks, before anything is sealed.
pub(crate) fn new_blocks<S: Suite>(
    alloc: Global,
    case: &Case,
    suite: &S,
    primary: &Primary,
) -> Result<List<Block>, NoMemory>
    requires suite { S.signed (pos 1) ≡ integrity.signed }
    requires primary { primary.now ≡ primary_left (facts case.now) }
    requires usable { All (IsUsable case.now.ring.now) case.now.items.now }
    requires bodies { AreShort case.now.blocks.now }
    ensures { IfOk result (λ new. new ≡ map (plain_block (facts case.now)) case.now.items.now) }
{
    let mut new = List::new(alloc);
    for item in case.items {
        new.append(plain_block(alloc, case, suite, primary, item)?)?;
    }
    Ok(new)
}
