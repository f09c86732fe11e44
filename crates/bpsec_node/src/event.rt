//! Verdicts and events.

use bpsec_asb::Service;
use bpsec_context::MissetReason;
use bpsec_policy::Action;
use cbor_profile::{Bytes, Reason};

/// What became of a security operation, of an integrity block that can't be read, or of a requirement.
#[derive(Clone, Copy, Debug, PartialEq, Eq)]
pub enum Verdict {
    /// The node has no role in it.
    NotOurs,
    /// Its target is sealed, and wasn't opened.
    Blocked,
    /// It is judged right.
    Passed,
    /// It is judged wrong.
    Failed,
    /// It can't be judged.
    Misset(MissetReason),
    /// Another integrity operation has the same target.
    Conflict,
    /// No operation meets the requirement.
    Missing,
    /// The integrity block can't be read, with the reason of its first fault.
    Broken(Reason),
}

/// A verdict, and what follows from it.
#[derive(Debug, Drop)]
pub struct Event {
    /// The number of the target; 0 is the primary block.
    pub target: u64,
    pub service: Service,
    /// The number of the security block; 0 where an operation is missing.
    pub block: u64,
    pub verdict: Verdict,
    /// The name of the rule, or of the requirement, or `broken`.
    pub rule: Bytes,
    /// What is done with the target.
    pub action: Action,
}
