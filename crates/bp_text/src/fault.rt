//! Faults of texts.

ghost use Rattle.std.specs.Prelude.{◌≡◌, Some, None};
ghost use Rattle.bp_text.specs.Fault.{number_of};
ghost use Rattle.bp_text.specs.declared.fault.FieldFault.TheVariants as fields;
ghost use Rattle.bp_text.specs.declared.fault.TextError.TheVariants as errors;

use cbor_profile::NoMemory;
use std::error::Error;
use std::fmt;

/// Why a text is refused.
#[derive(Clone, Copy, Debug, PartialEq, Eq)]
pub enum TextReason {
    /// The text has more than 1,048,576 bytes.
    TooLong = 1,
    /// The bytes are no JSON text, or nest deeper than 127.
    NotJson = 2,
    /// A key is missing or not listed, or its value is of another kind or out of its range.
    WrongShape = 3,
    /// The version isn't one that is read.
    Version = 4,
    /// A list is longer than its limit.
    TooMany = 5,
    /// A text isn't a word of its list, or no endpoint id.
    UnknownWord = 6,
    /// A text isn't hexadecimal, or stands for too few or too many bytes.
    BadHex = 7,
    /// A name stood before, or is reserved.
    RepeatedName = 8,
    /// The parts are those of no bundle.
    NotABundle = 9,
}

impl TextReason {
    /// The number of the reason. A smaller one is looked for first within one step.
    pub fn number(self) -> u8
        ensures { result ≡ number_of self }
    {
        self as u8
    }
}

/// Why a text is refused, and at which entry of its list, counted from 0, if the fault lies in one.
#[derive(Clone, Copy, Debug, PartialEq, Eq)]
pub struct TextFault {
    pub entry: Option<u64>,
    pub reason: TextReason,
}

/// Why a text wasn't read.
#[derive(Clone, Copy, Debug, PartialEq, Eq)]
pub enum TextError {
    /// It is no such text: this is its first fault.
    Fault(TextFault),
    /// No memory was left.
    NoMemory,
}

impl fmt::Display for TextError {
    fn fmt<W: fmt::Write>(&self, f: &mut fmt::Formatter<W>) -> fmt::Result {
        match self {
            TextError::Fault(fault) => {
                let reason = fault.reason;
                match fault.entry {
                    Some(entry) => write!(f, "{reason:?} at entry {entry}"),
                    None => write!(f, "{reason:?}"),
                }
            }
            TextError::NoMemory => f.write_str("out of memory"),
        }
    }
}

impl Error for TextError {}

impl From<TextFault> for TextError {
    ghost from_gives = { λ fault e. e ≡ errors.Fault fault };

    fn from(fault: TextFault) -> TextError {
        TextError::Fault(fault)
    }
}

impl From<NoMemory> for TextError {
    ghost from_gives = { λ _ e. e ≡ errors.NoMemory };

    fn from(_error: NoMemory) -> TextError {
        TextError::NoMemory
    }
}

/// Why a field wasn't read.
#[derive(Clone, Copy, Debug, PartialEq, Eq)]
pub enum FieldFault {
    /// There is no such field of that kind and range.
    WrongShape,
    /// The text there isn't a word of its list, or no endpoint id.
    UnknownWord,
    /// The text there isn't hexadecimal, or stands for too few or too many bytes.
    BadHex,
    /// No memory was left.
    NoMemory,
}

impl fmt::Display for FieldFault {
    fn fmt<W: fmt::Write>(&self, f: &mut fmt::Formatter<W>) -> fmt::Result {
        f.write_str(match self {
            FieldFault::WrongShape => "the field has another shape",
            FieldFault::UnknownWord => "the word is unknown",
            FieldFault::BadHex => "no hexadecimal text of that length",
            FieldFault::NoMemory => "out of memory",
        })
    }
}

impl Error for FieldFault {}

impl From<NoMemory> for FieldFault {
    ghost from_gives = { λ _ e. e ≡ fields.NoMemory };

    fn from(_error: NoMemory) -> FieldFault {
        FieldFault::NoMemory
    }
}

impl FieldFault {
    ghost use Rattle.bp_text.specs.Fault.{error_at};

    /// The error of a text that has this fault in the entry with this index, or in none.
    pub fn at(self, entry: Option<u64>) -> TextError
        ensures { result ≡ error_at entry self }
    {
        let reason = match self {
            FieldFault::WrongShape => TextReason::WrongShape,
            FieldFault::UnknownWord => TextReason::UnknownWord,
            FieldFault::BadHex => TextReason::BadHex,
            FieldFault::NoMemory => return TextError::NoMemory,
        };
        TextError::Fault(TextFault { entry, reason })
    }
}
