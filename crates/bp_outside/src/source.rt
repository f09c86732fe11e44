//! What bytes are read from.

ghost use Rattle.std.specs.Prelude.{◌≡◌, ℕ, ◌<◌, ◌≤◌, List, [], length, take, Option, IfSome, IfOk, OnOk, OnErr, IsOk};
ghost use Rattle.bp_outside.specs.Outside.{Rose, Taken};

use crate::fault::Failed;

/// What bytes are read from: standard input, or a list of bytes in memory.
pub trait Source {
    /// The bytes that are left, where the source tells them.
    ghost left: { Self → Option (List ℕ) };

    /// How many reads failed.
    ghost faults: { Self → ℕ };

    /// No read of it fails, now or later.
    ghost steady: { Self → Type 0 };

    /// Reads bytes into the front of the buffer, and answers how many. For a buffer that isn't empty it answers 0 only
    /// where nothing is left.
    fn read(&mut self, buf: &mut [u8]) -> Result<usize, Failed>
        ensures within { IfOk result (λ n. n ≤ length buf.old) }
        ensures moved { IfOk result (λ n. Taken (left self.old) (take n buf.new) (left self.new)) }
        ensures ended { IfOk result
            (λ n. n ≡ 0 → 0 < length buf.old → IfSome (left self.old) (λ bytes. bytes ≡ [])) }
        ensures stays { OnErr result (left self.new ≡ left self.old) }

        ensures quiet { OnOk result (faults self.new ≡ faults self.old) }
        ensures failed { OnErr result (Rose (faults self.old) (faults self.new)) }
        ensures never_falls { faults self.old ≤ faults self.new }
        ensures reads_on { steady self.old → IsOk result × steady self.new };
}
