//! The kinds of text that words name, and the status by which each is refused.

ghost use Rattle.std.specs.Prelude.{◌≡◌, ◌<◌, ℕ, List, Result, Err, None, length, refl, IfOk};
ghost use Rattle.cbor_profile.specs.Step.{Gives};
ghost use Rattle.bp_text.specs.Fault.{IsTextError};
ghost use Rattle.bp_text.specs.declared.fault.TextFault.{TextFault};
ghost use Rattle.bp_text.specs.declared.fault.TextReason.TheVariants.{TooLong};
ghost use Rattle.bp_build.specs.BuildText.{build_of};
ghost use Rattle.bpsec_plan.specs.PlanText.{plan_of};
ghost use Rattle.bpsec_policy.specs.PolicyText.{policy_of};
ghost use Rattle.bpsec_policy.specs.RingText.{ring_of};
ghost use Rattle.bpsec_answer.specs.Lines.{refused};
ghost use Rattle.bpsec_answer.specs.Statuses.{IsRefusedEarly};
ghost use Rattle.bpsec_answer.specs.declared.status.Status.{Status};
ghost use Rattle.bpsec_answer.specs.declared.status.Status.TheVariants as statuses;
ghost use Rattle.bpsec_jobs.specs.Texts.{long_builds, long_plans, long_policies, long_rings};

use bp_build::bundle_from_json;
use bp_bundle::Bundle;
use bp_text::{TextError, TextFault};
use bpsec_answer::{Answer, Status, refusal};
use bpsec_plan::Plan;
use bpsec_policy::{KeyRing, Policy};
use cbor_profile::NoMemory;
use std::alloc::Global;

/// A kind of text that a word names.
pub trait NamedText: Sized + Drop {
    /// What the bytes give, or the first fault.
    ghost reads: { List ℕ → Result Self TextFault };

    /// The status of a refusal.
    ghost ends: { TextFault → Status };

    /// Reads the bytes.
    fn read(alloc: Global, bytes: &[u8]) -> Result<Self, TextError>
        ensures { Gives IsTextError (λ text. text) result (reads bytes.now) };

    /// The status of a refusal.
    fn status(fault: TextFault) -> Status
        ensures { result ≡ ends fault };

    /// A text of more than 1,048,576 bytes is too long.
    ghost long: { (bytes : List ℕ) → 1048576 < length bytes
        → reads bytes ≡ Err (record { entry = None; reason = TooLong }) };

    /// It is refused before a read of the input.
    ghost early: { (fault : TextFault) → IsRefusedEarly (ends fault) };
}

/// The text of `build`.
impl NamedText for Bundle {
    ghost reads = { build_of };

    ghost ends = { λ fault. statuses.TextRefused fault };

    fn read(alloc: Global, bytes: &[u8]) -> Result<Bundle, TextError> {
        bundle_from_json(alloc, bytes)
    }

    fn status(fault: TextFault) -> Status {
        Status::TextRefused(fault)
    }

    ghost long = { long_builds };

    ghost early = { λ _. refl };
}

impl NamedText for Policy {
    ghost reads = { policy_of };

    ghost ends = { λ fault. statuses.PolicyRefused fault };

    fn read(alloc: Global, bytes: &[u8]) -> Result<Policy, TextError> {
        Policy::from_json(alloc, bytes)
    }

    fn status(fault: TextFault) -> Status {
        Status::PolicyRefused(fault)
    }

    ghost long = { long_policies };

    ghost early = { λ _. refl };
}

/// The plan of `secure`.
impl NamedText for Plan {
    ghost reads = { plan_of };

    ghost ends = { λ fault. statuses.TextRefused fault };

    fn read(alloc: Global, bytes: &[u8]) -> Result<Plan, TextError> {
        Plan::from_json(alloc, bytes)
    }

    fn status(fault: TextFault) -> Status {
        Status::TextRefused(fault)
    }

    ghost long = { long_plans };

    ghost early = { λ _. refl };
}

impl NamedText for KeyRing {
    ghost reads = { ring_of };

    ghost ends = { λ fault. statuses.RingRefused fault };

    fn read(alloc: Global, bytes: &[u8]) -> Result<KeyRing, TextError> {
        KeyRing::from_json(alloc, bytes)
    }

    fn status(fault: TextFault) -> Status {
        Status::RingRefused(fault)
    }

    ghost long = { long_rings };

    ghost early = { λ _. refl };
}

/// The answer to a text that breaks a rule.
pub fn text_refused<T: NamedText>(alloc: Global, fault: TextFault) -> Result<Answer, NoMemory>
    ensures { IfOk result (λ answer. answer ≡ refused (T.ends fault)) }
{
    refusal(alloc, T::status(fault))
}
