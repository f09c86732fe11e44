//! Faults of spelled bytes: the first one that reading from the left meets, and its place.

ghost use Rattle.std.specs.Prelude.{◌≡◌, List, Ok, Err};
ghost use Rattle.cbor_profile.specs.Reasons.{reason_name, reason_number};
ghost use Rattle.cbor_profile.specs.Token.{IsToken, token_head};
ghost use Rattle.cbor_profile.specs.declared.fault.SpellError.TheVariants.{NoMemory};
ghost use Rattle.cbor_profile.specs.declared.fault.SpellError.TheVariants as errors;

use crate::head::{Head, HeadRead, head_at};
use crate::memory;
use std::error::Error;
use std::fmt;

/// What is wrong with a token.
#[derive(Clone, Copy, Debug, PartialEq, Eq)]
pub enum Reason {
    /// The first byte doesn't begin a bundle.
    NotBundle = 1,
    /// The bytes end before the token does.
    Truncated = 2,
    /// A shorter form of the head would do.
    NotShortest = 3,
    /// Another major type is wanted here, or the head is none of the profile.
    WrongKind = 4,
    /// An array has another number of items.
    WrongCount = 5,
    /// A number is out of its range.
    WrongValue = 6,
    /// A text breaks its rule.
    WrongText = 7,
    /// A check value isn't that of its block.
    WrongCheck = 8,
    /// The bundle is too long, or has too many blocks.
    TooLong = 9,
    /// Bytes follow the end.
    Trailing = 10,
    /// A number that may stand once stood before.
    Repeated = 11,
}

impl Reason {
    /// The number of the reason, 1 to 11.
    pub fn number(self) -> u64
        ensures { result ≡ reason_number self }
    {
        self as u64
    }

    /// The name of the reason, as reports tell it.
    pub fn name(self) -> &'static str
        ensures { result.now ≡ reason_name self }
    {
        match self {
            Reason::NotBundle => "NotBundle",
            Reason::Truncated => "Truncated",
            Reason::NotShortest => "NotShortest",
            Reason::WrongKind => "WrongKind",
            Reason::WrongCount => "WrongCount",
            Reason::WrongValue => "WrongValue",
            Reason::WrongText => "WrongText",
            Reason::WrongCheck => "WrongCheck",
            Reason::TooLong => "TooLong",
            Reason::Trailing => "Trailing",
            Reason::Repeated => "Repeated",
        }
    }
}

/// A fault of spelled bytes. Its place is the number of bytes before the token, but for `Truncated` the number of all
/// bytes given.
#[derive(Clone, Copy, Debug, PartialEq, Eq)]
pub struct Fault {
    pub place: u64,
    pub reason: Reason,
}

impl fmt::Display for Fault {
    fn fmt<W: fmt::Write>(&self, f: &mut fmt::Formatter<W>) -> fmt::Result {
        let place = self.place;
        let reason = self.reason.name();
        write!(f, "{reason} at {place}")
    }
}

impl Error for Fault {}

/// Why spelled bytes weren't read.
#[derive(Clone, Copy, Debug, PartialEq, Eq)]
pub enum SpellError {
    /// The bytes aren't what was to be read: this is their first fault.
    Fault(Fault),
    /// No memory was left.
    NoMemory,
}

impl fmt::Display for SpellError {
    fn fmt<W: fmt::Write>(&self, f: &mut fmt::Formatter<W>) -> fmt::Result {
        match self {
            SpellError::Fault(fault) => write!(f, "{fault}"),
            SpellError::NoMemory => f.write_str("out of memory"),
        }
    }
}

impl Error for SpellError {}

impl From<memory::NoMemory> for SpellError {
    ghost from_gives = { λ _ e. e ≡ NoMemory };

    fn from(_error: memory::NoMemory) -> SpellError {
        SpellError::NoMemory
    }
}

impl From<Fault> for SpellError {
    ghost from_gives = { λ fault e. e ≡ errors.Fault fault };

    fn from(fault: Fault) -> SpellError {
        SpellError::Fault(fault)
    }
}

/// Reads the head of a token at the front of what is left: its major type is one of `kinds`. Takes no memory.
#[tactic(auto, unfolding(crate::specs::Token::token_head))]
pub fn head_of_token<'a>(bytes: &'a [u8], kinds: &[u8]) -> Result<(Head, &'a [u8]), Reason>
    ensures { IsToken result (token_head kinds.now bytes.now) }
{
    let [first, ..] = bytes else {
        return Err(Reason::Truncated);
    };
    if !kinds.contains(&(first / 32)) {
        return Err(Reason::WrongKind);
    }
    match head_at(bytes) {
        HeadRead::Whole { head, len } => Ok((head, &bytes[len..])),
        HeadRead::Short => Err(Reason::Truncated),
        HeadRead::NotShortest => Err(Reason::NotShortest),
        HeadRead::Bad => Err(Reason::WrongKind),
    }
}
