//! What becomes of an operation.

/// Why an operation can't be judged. A context gives the reasons BadParameter to UnwrapRefused, a suite UnknownContext and
/// OtherService too; NoTarget, TargetForbidden and NarrowScope come from the node.
#[derive(Clone, Copy, Debug, PartialEq, Eq)]
pub enum MissetReason {
    /// The target isn't in the bundle.
    NoTarget,
    /// The service may not apply to a block of the target's type (RFC 9172, sections 3.7 and 3.8).
    TargetForbidden,
    /// No context of the suite has the id.
    UnknownContext,
    /// The context serves the other service.
    OtherService,
    /// A parameter stands twice, has a value that the context doesn't know, or is missing.
    BadParameter,
    /// A result stands twice, has a value that the context doesn't know, or is missing.
    BadResult,
    /// There is no key.
    NoKey,
    /// The key has another length than it must have.
    KeyLength,
    /// A wrapped key isn't one of this key-encryption key (RFC 3394, section 2.2.3).
    UnwrapRefused,
    /// The operation covers less than it must.
    NarrowScope,
}

impl MissetReason {
    ghost use Rattle.std.specs.Prelude.{◌≡◌};
    ghost use Rattle.bpsec_context.specs.Reasons.{reason_number};

    /// Its number, from 1 on in the order of this list.
    pub fn number(self) -> u8
        ensures { result ≡ reason_number self }
    {
        match self {
            MissetReason::NoTarget => 1,
            MissetReason::TargetForbidden => 2,
            MissetReason::UnknownContext => 3,
            MissetReason::OtherService => 4,
            MissetReason::BadParameter => 5,
            MissetReason::BadResult => 6,
            MissetReason::NoKey => 7,
            MissetReason::KeyLength => 8,
            MissetReason::UnwrapRefused => 9,
            MissetReason::NarrowScope => 10,
        }
    }
}

/// How an operation is judged.
#[derive(Clone, Copy, Debug, PartialEq, Eq)]
pub enum Judgement {
    /// The tag is the one that is due.
    Right,
    /// The tag isn't the one that is due.
    Wrong,
    /// Whether it is can't be said.
    Misset(MissetReason),
}
