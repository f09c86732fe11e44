//! Why a stream is refused.

ghost use Rattle.std.specs.Prelude.{◌≡◌};
ghost use Rattle.bp_tcpcl.specs.Reasons.{reason_name, reason_number};
ghost use Rattle.bp_tcpcl.specs.declared.reason.LinkError.TheVariants as errors;

use cbor_profile::NoMemory;
use std::error::Error;
use std::fmt;

/// What is wrong with a stream. The first six are of its parts, the others of its messages.
#[derive(Clone, Copy, Debug, PartialEq, Eq)]
pub enum LinkReason {
    /// One of the first four bytes differs from `dtn!`.
    NotContact = 1,
    /// The version isn't 4.
    Version = 2,
    /// A message's first byte isn't 1 to 7.
    UnknownMessage = 3,
    /// A length is above its limit.
    TooLong = 4,
    /// A part would end past the limit of the input.
    TooMuch = 5,
    /// The input ends inside a part, or before the contact header's end.
    Truncated = 6,
    /// The first message isn't SESS_INIT.
    NotInit = 7,
    /// A later message is SESS_INIT.
    SecondInit = 8,
    /// A segment without START, and no transfer is open.
    NotStarted = 9,
    /// A segment with START, and a transfer is open.
    StartedTwice = 10,
    /// A segment without START whose id isn't the open one.
    OtherTransfer = 11,
    /// A segment with START whose id was used before.
    RepeatedTransfer = 12,
    /// A segment with START after a SESS_TERM.
    AfterTerm = 13,
    /// A segment with START after 256 transfers.
    TooMany = 14,
    /// The transfer's bytes pass the bundle limit.
    TransferTooLong = 15,
    /// The transfer's bytes aren't the spelling of one bundle.
    NotBundle = 16,
    /// The input ends with no SESS_INIT or with a transfer open.
    Unended = 17,
}

impl LinkReason {
    /// The number of the reason, 1 to 17.
    pub fn number(self) -> u64
        ensures { result ≡ reason_number self }
    {
        self as u64
    }

    /// The name of the reason, as reports tell it.
    pub fn name(self) -> &'static str
        ensures { result.now ≡ reason_name self }
    {
        match self {
            LinkReason::NotContact => "NotContact",
            LinkReason::Version => "Version",
            LinkReason::UnknownMessage => "UnknownMessage",
            LinkReason::TooLong => "TooLong",
            LinkReason::TooMuch => "TooMuch",
            LinkReason::Truncated => "Truncated",
            LinkReason::NotInit => "NotInit",
            LinkReason::SecondInit => "SecondInit",
            LinkReason::NotStarted => "NotStarted",
            LinkReason::StartedTwice => "StartedTwice",
            LinkReason::OtherTransfer => "OtherTransfer",
            LinkReason::RepeatedTransfer => "RepeatedTransfer",
            LinkReason::AfterTerm => "AfterTerm",
            LinkReason::TooMany => "TooMany",
            LinkReason::TransferTooLong => "TransferTooLong",
            LinkReason::NotBundle => "NotBundle",
            LinkReason::Unended => "Unended",
        }
    }
}

/// Why a stream isn't read on.
#[derive(Clone, Copy, Debug, PartialEq, Eq)]
pub enum LinkError {
    /// Its first fault. The place is the number of bytes of the input before the field, the part or the message that is at
    /// fault, but for `Truncated` the number of all bytes given.
    Fault { place: u64, reason: LinkReason },
    /// No memory was left.
    NoMemory,
}

impl fmt::Display for LinkError {
    fn fmt<W: fmt::Write>(&self, f: &mut fmt::Formatter<W>) -> fmt::Result {
        match self {
            LinkError::Fault { place, reason } => {
                let reason = reason.name();
                write!(f, "{reason} at {place}")
            }
            LinkError::NoMemory => f.write_str("out of memory"),
        }
    }
}

impl Error for LinkError {}

impl From<NoMemory> for LinkError {
    ghost from_gives = { λ _ e. e ≡ errors.NoMemory };

    fn from(_error: NoMemory) -> LinkError {
        LinkError::NoMemory
    }
}
