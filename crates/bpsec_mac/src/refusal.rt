//! The first reason that holds.

ghost use Rattle.std.specs.Prelude.{◌≡◌, Some, IfOk};
ghost use Rattle.bpsec_facts.specs.View.{facts};
ghost use Rattle.bpsec_facts.specs.Left.{key_of_cover};
ghost use Rattle.bpsec_mac.specs.Mac.{after_length, before_length, early_refusal, length_or};

use bpsec_facts::{Case, PlanReason, Refusal, first_of, key_named, nowhere, too_many, unreadable};
use bpsec_plan::Cover;
use cbor_profile::NoMemory;
use std::alloc::Global;

/// The reasons that come before the key's length.
const BEFORE_LENGTH: [PlanReason; 6] = [
    PlanReason::NoTarget,
    PlanReason::TargetForbidden,
    PlanReason::AlreadyThere,
    PlanReason::UnderCipher,
    PlanReason::NumberTaken,
    PlanReason::NoKey,
];

/// Those that come after it.
const AFTER_LENGTH: [PlanReason; 1] = [PlanReason::PrimaryCovered];

/// How many bytes a key of AES-128 has.
const KEY_BYTES: usize = 16;

/// `KeyLength`, where the key isn't one of AES-128; else what comes next.
fn length_or(key: &[u8], next: Option<Refusal>) -> Option<Refusal>
    ensures { result ≡ length_or key.now next }
{
    if key.len() != KEY_BYTES {
        Some(Refusal {
            reason: PlanReason::KeyLength,
            at: Some(0),
        })
    } else {
        next
    }
}

/// The first reason that holds before anything is made: all of them but `TooLong`.
#[tactic(auto, unfolding(crate::specs::Mac::early_refusal))]
pub(crate) fn early_refusal(
    alloc: Global,
    case: &Case,
    cover: &Cover,
) -> Result<Option<Refusal>, NoMemory>
    ensures { IfOk result (λ refusal. refusal ≡ early_refusal (facts case.now) cover.now) }
{
    if case.primary.is_fragment() {
        return Ok(nowhere(PlanReason::IsFragment));
    }
    if let Some(number) = unreadable(alloc, case)? {
        return Ok(Some(Refusal {
            reason: PlanReason::Unreadable,
            at: Some(number),
        }));
    }
    let key = key_named(case.ring, cover.key.as_slice());
    let after = length_or(key, first_of(case, &AFTER_LENGTH, too_many(case)));
    Ok(first_of(case, &BEFORE_LENGTH, after))
}
