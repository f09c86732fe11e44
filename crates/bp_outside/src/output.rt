//! A writer of the system to write to, as standard output.

ghost use Rattle.std.specs.Prelude.{◌≡◌, ◌<◌, ◌≤◌, ℕ, length, take, IfOk, OnOk, OnErr};
ghost use Rattle.std.specs.Io.KnownBytes.{Appends};
ghost use Rattle.bp_outside.specs.Memory.{counted};

use crate::fault::{Failed, Faults};
use crate::sink::Sink;
use std::io::Write;
use std::marker::Model;

/// A writer to write to, as standard output, flushed after each write. It tells no bytes. Each error of the writer is a
/// fault, and so is a write that takes no byte of a piece that has one.
#[derive(Debug, Drop)]
pub struct OutputSink<W> {
    writer: W,
    faults: Faults,
}

impl<W> Model for OutputSink<W> {
    ghost use Rattle.bp_outside.specs.Real.{Counted};

    ghost Value = { Counted W };

    ghost view = { λ s. record { device = s.writer; faults = s.faults.count } };
}

impl<W> OutputSink<W> {
    /// This writer, with no fault so far.
    pub fn new(writer: W) -> OutputSink<W>
        ensures { result ≡ record { device = writer; faults = 0 } }
    {
        OutputSink {
            writer,
            faults: Faults::new(),
        }
    }
}

/// One write, and a flush: how many bytes the writer took, and whether both went well.
fn write_through<W: Write>(writer: &mut W, piece: &[u8]) -> (usize, bool)
    ensures within { result.0 ≤ length piece.now }
    ensures bytes { Appends (W.contents writer.old) (W.contents writer.new) (take result.0 piece.now) }
{
    match writer.write(piece) {
        Ok(n) => (n, writer.flush().is_ok()),
        Err(_) => (0, false),
    }
}

impl<W: Write> Sink for OutputSink<W> {
    ghost use Rattle.std.specs.Prelude.{None};

    ghost written = { λ _. None };

    ghost faults = { λ s. s.faults };

    ghost takes = { λ _ _. ⊥ };

    fn write(&mut self, piece: &[u8]) -> Result<usize, Failed>
        ensures within { IfOk result (λ n. n ≤ length piece.now) }
        ensures some { IfOk result (λ n. 0 < length piece.now → 0 < n) }
        ensures bytes { IfOk result (λ n.
            Appends (W.contents self.old.device) (W.contents self.new.device) (take n piece.now)) }
        // Where it fails, the writer got a prefix of the piece, and nothing else.
        ensures prefix { OnErr result ((n : ℕ) × (n ≤ length piece.now)
            × Appends (W.contents self.old.device) (W.contents self.new.device) (take n piece.now)) }
        ensures quiet { OnOk result (self.new.faults ≡ self.old.faults) }
        ensures failed { OnErr result (self.new.faults ≡ counted self.old.faults) }
        ensures never_falls { self.old.faults ≤ self.new.faults }
    {
        let (n, well) = write_through(&mut self.writer, piece);
        if well && (n > 0 || piece.is_empty()) {
            Ok(n)
        } else {
            Err(self.faults.rise())
        }
    }
}
