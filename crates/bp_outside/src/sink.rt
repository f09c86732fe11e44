//! What bytes are written to.

ghost use Rattle.std.specs.Prelude.{◌≡◌, ℕ, ◌-◌, ◌<◌, ◌≤◌, List, [], length, take, Option, IfOk, OnOk, OnErr, IsOk, IsOkAnd};
ghost use Rattle.bp_outside.specs.Outside.{Rose, Appended};

use crate::fault::Failed;

/// What bytes are written to: standard output, standard error, or a list of bytes in memory.
pub trait Sink {
    /// The bytes written so far, where the sink tells them.
    ghost written: { Self → Option (List ℕ) };

    /// How many writes failed.
    ghost faults: { Self → ℕ };

    /// This many more bytes are taken without a fault, however they are cut.
    ghost takes: { Self → ℕ → Type 0 };

    /// Writes bytes from the front of the piece, and answers how many: at least one where there is one.
    fn write(&mut self, piece: &[u8]) -> Result<usize, Failed>
        ensures within { IfOk result (λ n. n ≤ length piece.now) }
        ensures some { IfOk result (λ n. 0 < length piece.now → 0 < n) }
        ensures moved { IfOk result
            (λ n. Appended (written self.old) (take n piece.now) (written self.new)) }
        ensures stays { OnErr result (written self.new ≡ written self.old) }

        ensures quiet { OnOk result (faults self.new ≡ faults self.old) }
        ensures failed { OnErr result (Rose (faults self.old) (faults self.new)) }
        ensures never_falls { faults self.old ≤ faults self.new }
        ensures takes_on { (n : ℕ) → takes self.old n → length piece.now ≤ n
            → IsOkAnd result (λ k. takes self.new (n - k)) };
}

/// Writes the whole piece, in as many writes as the sink wants. Takes no memory. A fault leaves a proper prefix of the
/// piece written.
pub fn write_all<W: Sink>(out: &mut W, piece: &[u8]) -> Result<(), Failed>
    ensures ok { OnOk result (Appended (W.written out.old) piece.now (W.written out.new)) }
    ensures prefix { OnErr result ((n : ℕ) × (n < length piece.now)
        × Appended (W.written out.old) (take n piece.now) (W.written out.new)) }
    ensures nothing { piece.now ≡ [] → out.new ≡ out.old }

    ensures quiet { OnOk result (W.faults out.new ≡ W.faults out.old) }
    ensures failed { OnErr result (Rose (W.faults out.old) (W.faults out.new)) }
    ensures never_falls { W.faults out.old ≤ W.faults out.new }
    ensures takes_on { (n : ℕ) → W.takes out.old n → length piece.now ≤ n
        → IsOk result × W.takes out.new (n - length piece.now) }
{
    let mut done = 0;
    while done < piece.len() {
        done += out.write(&piece[done..])?;
    }
    Ok(())
}
