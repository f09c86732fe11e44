//! Why a row isn't run.

use cbor_profile::NoMemory;
use std::alloc::{AllocError, AllocFailed};

/// Why a row isn't run.
#[derive(Clone, Copy, Debug, PartialEq, Eq)]
pub enum Trouble {
    NoMemory,
    /// The row lacks this, or has it in another form.
    Row(&'static str),
}

impl From<NoMemory> for Trouble {
    fn from(_: NoMemory) -> Trouble {
        Trouble::NoMemory
    }
}

impl From<AllocError> for Trouble {
    fn from(_: AllocError) -> Trouble {
        Trouble::NoMemory
    }
}

impl<T: Drop> From<AllocFailed<T>> for Trouble {
    fn from(_: AllocFailed<T>) -> Trouble {
        Trouble::NoMemory
    }
}

impl From<&'static str> for Trouble {
    fn from(lacking: &'static str) -> Trouble {
        Trouble::Row(lacking)
    }
}
