//! The reason code of a report.

ghost use Rattle.std.specs.Prelude.{◌≡◌, find, is_none};
ghost use Rattle.std.specs.Option.{option_copied};
ghost use Rattle.bp_report.specs.Reason.{misset_code, verdict_code, is_fatal, decides, reason_of};

use bpsec_context::MissetReason;
use bpsec_node::{Event, Outcome, Verdict};
use bpsec_policy::Action;

/// The reason codes that reports of this crate have, under the names of the registry (RFC 9171, section 9.5; RFC 9172, sections 7.1
/// and 11.2).
#[derive(Clone, Copy, Debug, PartialEq, Eq)]
pub enum ReasonCode {
    NoAdditionalInformation,
    MissingSecurityOperation,
    UnknownSecurityOperation,
    UnexpectedSecurityOperation,
    FailedSecurityOperation,
    ConflictingSecurityOperation,
}

impl ReasonCode {
    ghost use Rattle.bp_report.specs.Reason.{code_number};

    /// Its number in the registry.
    pub fn number(self) -> u64
        ensures { result ≡ code_number self }
    {
        match self {
            ReasonCode::NoAdditionalInformation => 0,
            ReasonCode::MissingSecurityOperation => 12,
            ReasonCode::UnknownSecurityOperation => 13,
            ReasonCode::UnexpectedSecurityOperation => 14,
            ReasonCode::FailedSecurityOperation => 15,
            ReasonCode::ConflictingSecurityOperation => 16,
        }
    }
}

/// The code of an operation that can't be judged.
fn misset_code(reason: MissetReason) -> ReasonCode
    ensures { result ≡ misset_code reason }
{
    match reason {
        MissetReason::UnknownContext => ReasonCode::UnknownSecurityOperation,
        MissetReason::NoTarget | MissetReason::TargetForbidden | MissetReason::OtherService => {
            ReasonCode::UnexpectedSecurityOperation
        }
        MissetReason::BadParameter
        | MissetReason::BadResult
        | MissetReason::NoKey
        | MissetReason::KeyLength
        | MissetReason::UnwrapRefused
        | MissetReason::NarrowScope => ReasonCode::FailedSecurityOperation,
    }
}

/// The code of a verdict, if it has one.
fn verdict_code(verdict: Verdict) -> Option<ReasonCode>
    ensures { result ≡ verdict_code verdict }
{
    match verdict {
        Verdict::NotOurs | Verdict::Blocked | Verdict::Passed => None,
        Verdict::Failed => Some(ReasonCode::FailedSecurityOperation),
        Verdict::Misset(reason) => Some(misset_code(reason)),
        Verdict::Conflict => Some(ReasonCode::ConflictingSecurityOperation),
        Verdict::Missing => Some(ReasonCode::MissingSecurityOperation),
        Verdict::Broken(_) => Some(ReasonCode::UnknownSecurityOperation),
    }
}

/// Whether an action on this target leaves no bundle.
fn is_fatal(action: Action, target: u64) -> bool
    ensures { result ≡ is_fatal action target }
{
    match action {
        Action::Keep => false,
        Action::Remove => target <= 1,
        Action::Discard => true,
    }
}

/// Whether the event decides the reason.
fn decides(discarded: bool, event: &Event) -> bool
    ensures { result ≡ decides discarded event.now }
{
    if discarded {
        is_fatal(event.action, event.target)
    } else {
        verdict_code(event.verdict).is_some()
    }
}

/// The first event that decides.
fn deciding(events: &[Event], discarded: bool) -> Option<&Event>
    ensures { option_copied result ≡ find (decides discarded) events.now }
{
    events.iter().find(|event| decides(discarded, event))
}

/// The code of the first event that decides.
#[tactic(auto, unfolding(crate::specs::Reason::reason_of))]
fn code_of(events: &[Event], discarded: bool) -> ReasonCode
    ensures { result ≡ reason_of events.now discarded }
{
    match deciding(events, discarded) {
        Some(event) => {
            verdict_code(event.verdict).unwrap_or(ReasonCode::NoAdditionalInformation)
        }
        None => ReasonCode::NoAdditionalInformation,
    }
}

/// The reason that a report of this outcome gives: of a discarded bundle the first event whose action discards it, or removes its
/// primary block or its payload block, of another the first event with a code. Takes no memory.
pub fn reason_of(outcome: &Outcome) -> ReasonCode
    ensures { result ≡ reason_of outcome.now.outcome.events (is_none outcome.now.outcome.bundle) }
{
    code_of(outcome.events(), outcome.bundle().is_none())
}
