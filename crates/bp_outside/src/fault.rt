//! How a device fails, and the count of its faults.

ghost use Rattle.std.specs.Prelude.{◌≡◌, ◌≤◌};
ghost use Rattle.bp_outside.specs.Memory.{counted};

use std::error::Error;
use std::fmt;

/// A device failed, and its count of faults rose.
#[derive(Clone, Copy, Debug, PartialEq, Eq)]
pub struct Failed;

impl fmt::Display for Failed {
    fn fmt<W: fmt::Write>(&self, f: &mut fmt::Formatter<W>) -> fmt::Result {
        f.write_str("a device failed")
    }
}

impl Error for Failed {}

/// How many calls failed. It stands still at its last value.
#[derive(Debug, Drop)]
pub(crate) struct Faults {
    pub(crate) count: u64,
}

impl Faults {
    /// No call has failed so far.
    pub(crate) fn new() -> Faults
        ensures { result.count ≡ 0 }
    {
        Faults { count: 0 }
    }

    /// Counts one more fault.
    pub(crate) fn rise(&mut self) -> Failed
        ensures counts { self.new.count ≡ counted self.old.count }
        ensures rises { self.old.count ≤ self.new.count }
    {
        self.count = self.count.saturating_add(1);
        Failed
    }
}
