//! The reason that holds for an item.

ghost use Rattle.std.specs.Prelude.{◌≡◌, [], IfOk};
ghost use Rattle.bpsec_facts.specs.View.{facts};
ghost use Rattle.bpsec_facts.specs.Refusal.{refuses, first_at, first_item, first_of, item_reasons, bad_split};

use crate::case::Case;
use crate::keys::{iv_repeated, iv_shared, key_length, no_key};
use crate::overlaps::{bad_flags, bad_split, bib_left_plain, no_shared_target, partial_overlap};
use crate::reason::{PlanReason, Refusal};
use crate::targets::{
    already_there, no_target, number_taken, primary_covered, target_forbidden, under_cipher,
};
use bpsec_plan::Item;
use cbor_profile::NoMemory;
use std::alloc::Global;

/// The reasons that hold for items, in their order, after `BadSplit`.
const ITEM_REASONS: [PlanReason; 14] = [
    PlanReason::NoTarget,
    PlanReason::TargetForbidden,
    PlanReason::AlreadyThere,
    PlanReason::UnderCipher,
    PlanReason::NumberTaken,
    PlanReason::NoKey,
    PlanReason::KeyLength,
    PlanReason::IvShared,
    PlanReason::IvRepeated,
    PlanReason::NoSharedTarget,
    PlanReason::PartialOverlap,
    PlanReason::BibLeftPlain,
    PlanReason::PrimaryCovered,
    PlanReason::BadFlags,
];

/// Whether a reason other than `BadSplit` holds for an item, after those before it.
fn refuses(reason: PlanReason, case: &Case, before: &[Item], item: &Item) -> bool
    ensures { result ≡ refuses reason (facts case.now) before.now item.now }
{
    match reason {
        PlanReason::NoTarget => no_target(case, item),
        PlanReason::TargetForbidden => target_forbidden(case, item),
        PlanReason::AlreadyThere => already_there(case, before, item),
        PlanReason::UnderCipher => under_cipher(case, item),
        PlanReason::NumberTaken => number_taken(case, before, item),
        PlanReason::NoKey => no_key(case, item),
        PlanReason::KeyLength => key_length(case, item),
        PlanReason::IvShared => iv_shared(item),
        PlanReason::IvRepeated => iv_repeated(case, before, item),
        PlanReason::NoSharedTarget => no_shared_target(case, item),
        PlanReason::PartialOverlap => partial_overlap(case, item),
        PlanReason::BibLeftPlain => bib_left_plain(case, item),
        PlanReason::PrimaryCovered => primary_covered(case, item),
        PlanReason::BadFlags => bad_flags(item),
        _ => false,
    }
}

/// The least index of an item for which the reason holds.
fn first_item(reason: PlanReason, case: &Case) -> Option<usize>
    ensures { result ≡ first_item (facts case.now) reason }
{
    for (i, item) in case.items.iter().enumerate() {
        if refuses(reason, case, &case.items[..i], item) {
            return Some(i);
        }
    }
    None
}

/// The first of the reasons that holds for an item, and where; else what comes next.
#[tactic(auto, unfolding(crate::specs::Refusal::first_of))]
pub fn first_of(case: &Case, reasons: &[PlanReason], next: Option<Refusal>) -> Option<Refusal>
    ensures { result ≡ first_of (facts case.now) reasons.now next }
{
    let [reason, more @ ..] = reasons else {
        return next;
    };
    match first_item(*reason, case) {
        Some(i) => Some(Refusal {
            reason: *reason,
            at: Some(i as u64),
        }),
        None => first_of(case, more, next),
    }
}

/// The least index of a split that can't be done.
pub(crate) fn first_bad_split(alloc: Global, case: &Case) -> Result<Option<usize>, NoMemory>
    ensures { IfOk result (λ at. at
        ≡ first_at (bad_split (facts case.now)) [] (facts case.now).items) }
{
    for (i, item) in case.items.iter().enumerate() {
        if bad_split(alloc, case, &case.items[..i], item)? {
            return Ok(Some(i));
        }
    }
    Ok(None)
}

/// The first reason after `BadSplit` that holds for an item, and where; else what comes next.
pub(crate) fn first_refused(case: &Case, next: Option<Refusal>) -> Option<Refusal>
    ensures { result ≡ first_of (facts case.now) item_reasons next }
{
    first_of(case, &ITEM_REASONS, next)
}
