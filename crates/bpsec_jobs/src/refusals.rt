//! Refusals that several jobs have.

ghost use Rattle.std.specs.Prelude.{◌≡◌, IfOk};
ghost use Rattle.bpsec_jobs.specs.Refusals.{bundle_refused, pieces_refused};

use bpsec_answer::{Answer, PiecesReason, Refused, Status, refusal};
use cbor_profile::{Fault, NoMemory};
use std::alloc::Global;

/// The answer to an input that is no bundle.
pub fn bundle_refused(alloc: Global, fault: Fault) -> Result<Answer, NoMemory>
    ensures { IfOk result (λ answer. answer ≡ bundle_refused fault) }
{
    refusal(alloc, Status::BundleRefused(Refused::Fault(fault)))
}

/// The answer where fragments aren't made or joined.
pub(crate) fn pieces_refused(
    alloc: Global,
    reason: PiecesReason,
    at: Option<u64>,
) -> Result<Answer, NoMemory>
    ensures { IfOk result (λ answer. answer ≡ pieces_refused reason at) }
{
    refusal(alloc, Status::PiecesRefused { reason, at })
}
