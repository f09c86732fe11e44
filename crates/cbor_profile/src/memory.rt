//! Want of memory.

use std::alloc::{AllocError, AllocFailed};
use std::error::Error;
use std::fmt;

/// No memory was left for what was asked. It begins where an allocation failed: nothing else makes one.
#[derive(Clone, Copy, Debug, PartialEq, Eq)]
pub struct NoMemory(pub(crate) ());

impl NoMemory {
    /// The want of memory that another error told by a variant without a value: for the arm that passes it on.
    pub fn again() -> NoMemory {
        NoMemory(())
    }
}

impl fmt::Display for NoMemory {
    fn fmt<W: fmt::Write>(&self, f: &mut fmt::Formatter<W>) -> fmt::Result {
        f.write_str("out of memory")
    }
}

impl Error for NoMemory {}

impl From<AllocError> for NoMemory {
    fn from(_error: AllocError) -> NoMemory {
        NoMemory(())
    }
}

impl<T: Drop> From<AllocFailed<T>> for NoMemory {
    fn from(_error: AllocFailed<T>) -> NoMemory {
        NoMemory(())
    }
}
