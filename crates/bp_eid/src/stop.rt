//! Where reading stops.

ghost use Rattle.std.specs.Prelude.{◌≡◌, ◌≤◌};
ghost use Rattle.bp_eid.specs.declared.stop.ReadError.TheVariants as errors;

use cbor_profile::{Fault, NoMemory, Reason};
use std::error::Error;
use std::fmt;

/// A token that isn't permitted: why not, and how many bytes are left where it begins.
#[derive(Clone, Copy, Debug, PartialEq, Eq)]
pub struct Stop {
    pub reason: Reason,
    pub left: usize,
}

impl Stop {
    ghost use Rattle.bp_eid.specs.Reading.{fault_of};

    /// The fault of an input of so many bytes.
    pub fn fault(self, given: usize) -> Fault
        requires { self.left ≤ given }
        ensures { result ≡ fault_of given self }
    {
        let place = match self.reason {
            Reason::Truncated => given,
            _ => given - self.left,
        };
        Fault {
            place: place as u64,
            reason: self.reason,
        }
    }
}

/// Why nothing was read.
#[derive(Clone, Copy, Debug, PartialEq, Eq)]
pub enum ReadError {
    /// Reading stops at this token.
    Stop(Stop),
    /// No memory was left.
    NoMemory,
}

impl fmt::Display for ReadError {
    fn fmt<W: fmt::Write>(&self, f: &mut fmt::Formatter<W>) -> fmt::Result {
        match self {
            ReadError::Stop(stop) => {
                let left = stop.left;
                let reason = stop.reason.name();
                write!(f, "{reason} with {left} bytes left")
            }
            ReadError::NoMemory => f.write_str("out of memory"),
        }
    }
}

impl Error for ReadError {}

impl From<Stop> for ReadError {
    ghost from_gives = { λ stop e. e ≡ errors.Stop stop };

    fn from(stop: Stop) -> ReadError {
        ReadError::Stop(stop)
    }
}

impl From<NoMemory> for ReadError {
    ghost from_gives = { λ _ e. e ≡ errors.NoMemory };

    fn from(_error: NoMemory) -> ReadError {
        ReadError::NoMemory
    }
}
