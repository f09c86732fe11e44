//! How a run of the program ended.

ghost use Rattle.std.specs.Prelude.{◌≡◌};
ghost use Rattle.bpsec_answer.specs.Statuses.{code_of};

use bp_text::TextFault;
use bpsec_facts::PlanReason;
use cbor_profile::Fault;

/// How a run of the program ended.
#[derive(Clone, Copy, Debug, PartialEq, Eq)]
pub enum Status {
    /// The command was done.
    Done,
    /// The bundle was discarded.
    Discarded,
    /// The words are no line of the grammar: this is the index of the faulty word.
    Usage {
        word: u64,
    },
    /// The input is refused.
    BundleRefused(Refused),
    /// The text of the policy is refused.
    PolicyRefused(TextFault),
    /// The text of the key ring is refused.
    RingRefused(TextFault),
    /// The text of the bundle or of the plan is refused.
    TextRefused(TextFault),
    /// Reading failed.
    ReadFault(Reading),
    /// Writing failed. What went out is a prefix of what was due.
    WriteFault(Writing),
    /// No memory was left.
    NoMemory,
    /// The plan can't be applied to the bundle: the first reason, and the index of an item or the number of a block.
    PlanRefused {
        reason: PlanReason,
        at: Option<u64>,
    },
    /// Something was found that an owner may not have meant.
    Found,
    /// The bundle can't be cut so, or the fragments can't be joined: why, and at which place of the whole payload.
    PiecesRefused {
        reason: PiecesReason,
        at: Option<u64>,
    },
}

/// Why an input is refused.
#[derive(Clone, Copy, Debug, PartialEq, Eq)]
pub enum Refused {
    /// It is no bundle: this is its first fault.
    Fault(Fault),
    /// It is a fragment, which a node doesn't take.
    Fragment,
    /// A block confidentiality block can't be read: the one of least number, with its first fault.
    BrokenBcb {
        block: u64,
        fault: Fault,
    },
    /// Two block confidentiality blocks cover one block: the least target, and the two least numbers of these.
    DoubleCipher {
        target: u64,
        first: u64,
        second: u64,
    },
}

/// Why a bundle isn't cut, or fragments aren't joined.
#[derive(Clone, Copy, Debug, PartialEq, Eq)]
pub enum PiecesReason {
    /// It is a fragment.
    IsFragment,
    /// Its flags forbid that.
    MustNotFragment,
    /// A fragment would have no payload.
    PieceZero,
    /// There would be more than 256 fragments.
    TooMany,
    /// A fragment, or the bundle that they are joined to, would have more bytes than the bundle limit.
    TooLong,
    /// The bundle is no fragment.
    NotFragment,
    /// The fragment is of another bundle.
    OtherBundle,
    /// The fragment ends behind the whole payload.
    PastTotal,
    /// The whole payload has more bytes than the bundle limit.
    OverLimit,
    /// Two fragments of offset 0 have other blocks.
    OtherBlocks,
    /// Two fragments differ in a byte.
    Disagree,
    /// No fragment covers a place.
    Gap,
}

/// What couldn't be read.
#[derive(Clone, Copy, Debug, PartialEq, Eq)]
pub enum Reading {
    /// The input.
    Input,
    /// A named file.
    Shelf,
}

/// What couldn't be written.
#[derive(Clone, Copy, Debug, PartialEq, Eq)]
pub enum Writing {
    /// The output.
    Out,
    /// The report.
    Report,
}

impl Status {
    /// The status's number, the exit status of the program.
    pub fn code(&self) -> u8
        ensures { result ≡ code_of self.now }
    {
        match self {
            Status::Done => 0,
            Status::Discarded => 1,
            Status::Usage { .. } => 2,
            Status::BundleRefused(_) => 3,
            Status::PolicyRefused(_) => 4,
            Status::RingRefused(_) => 5,
            Status::TextRefused(_) => 6,
            Status::ReadFault(_) => 7,
            Status::WriteFault(_) => 8,
            Status::NoMemory => 9,
            Status::PlanRefused { .. } => 10,
            Status::PiecesRefused { .. } => 11,
            Status::Found => 16,
        }
    }
}
