//! Calls that are counted, and those of them that are to fail.

ghost use Rattle.std.specs.Prelude.{◌≡◌, ◌↔◌, Contains, IsTrue, IsFalse};
ghost use Rattle.bp_outside.specs.Memory.{counted, NoneFails};

use cbor_profile::List;

/// The numbers of the calls that are to fail, and how many calls there were. The count stands still at its last value.
#[derive(Debug, Drop)]
pub(crate) struct Calls {
    pub(crate) failing: List<u64>,
    pub(crate) count: u64,
}

impl Calls {
    /// No call so far.
    pub(crate) fn new(failing: List<u64>) -> Calls
        ensures { result ≡ record { failing = failing; count = 0 } }
    {
        Calls { failing, count: 0 }
    }

    /// Counts one more call, and says whether it is to fail.
    pub(crate) fn begin(&mut self) -> bool
        ensures fails { IsTrue result ↔ Contains self.old.failing self.old.count }
        ensures counts { self.new ≡ record self.old { count = counted self.old.count } }
        ensures none_fails { NoneFails self.old.failing self.old.count
            → IsFalse result × NoneFails self.new.failing self.new.count }
    {
        let number = self.count;
        self.count = number.saturating_add(1);
        self.failing.items().contains(&number)
    }
}
