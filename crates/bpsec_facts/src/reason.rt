//! Refusals.

ghost use Rattle.std.specs.Prelude.{◌≡◌};

use cbor_profile::NoMemory;

/// Why a plan can't be applied to a bundle, in the order in which they are looked for.
#[derive(Clone, Copy, Debug, PartialEq, Eq)]
pub enum PlanReason {
    /// The bundle is a fragment.
    IsFragment,
    /// A block confidentiality block isn't readable, or a block integrity block that no operation covers isn't.
    Unreadable,
    /// The block integrity block can't be split so.
    BadSplit,
    /// A target is neither 0, nor a block of the bundle, nor one of the plan.
    NoTarget,
    /// The service may not apply to a block of the target's type (RFC 9172, sections 3.7 and 3.8).
    TargetForbidden,
    /// The target has an operation of that service (section 3.2).
    AlreadyThere,
    /// A block that is to be signed is sealed.
    UnderCipher,
    /// The number is 0 or 1, or that of another block.
    NumberTaken,
    /// The ring has no key of that name.
    NoKey,
    /// A key has a length that doesn't do.
    KeyLength,
    /// Several targets share an initialisation vector, and the plan doesn't say so.
    IvShared,
    /// The key and the initialisation vector were used before.
    IvRepeated,
    /// A block integrity block is to be sealed, and none of its targets (section 3.9).
    NoSharedTarget,
    /// Some targets of a block integrity block are to be sealed, and not all.
    PartialOverlap,
    /// All targets of a block integrity block are to be sealed, and not the block (section 3.9).
    BibLeftPlain,
    /// The primary block is to be signed, and loses a check that another security block may cover.
    PrimaryCovered,
    /// The flags of a block confidentiality block don't go with its targets (section 3.8).
    BadFlags,
    /// There would be more than 64 canonical blocks.
    TooManyBlocks,
    /// The result would have more bytes than the bundle limit.
    TooLong,
}

/// A refusal, and where: the index of an item, or for `Unreadable` the number of a block.
#[derive(Clone, Copy, Debug, PartialEq, Eq)]
pub struct Refusal {
    pub reason: PlanReason,
    pub at: Option<u64>,
}

/// Why a plan wasn't applied.
#[derive(Clone, Copy, Debug, PartialEq, Eq)]
pub enum PlanFault {
    /// The first reason that holds, with the least index of an item for which it does; for `Unreadable` the least number
    /// of a block, and for `IsFragment`, `TooManyBlocks` and `TooLong` none.
    Refused { reason: PlanReason, at: Option<u64> },
    /// No memory was left.
    NoMemory,
}

impl From<NoMemory> for PlanFault {
    ghost use Rattle.bpsec_facts.specs.declared.reason.PlanFault.{PlanFault};

    ghost from_gives = { λ _ fault. fault ≡ PlanFault.NoMemory };

    fn from(_error: NoMemory) -> PlanFault {
        PlanFault::NoMemory
    }
}
