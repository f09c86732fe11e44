//! A reader of the system to read from, as standard input.

ghost use Rattle.std.specs.Prelude.{◌≡◌, ◌≤◌, length, IfOk, OnOk, OnErr};
ghost use Rattle.std.specs.Io.KnownBytes.{ReadConsumes};
ghost use Rattle.bp_outside.specs.Memory.{counted};

use crate::fault::{Failed, Faults};
use crate::source::Source;
use std::io::Read;
use std::marker::Model;

/// A reader to read from, as standard input. It tells no bytes, and each error of the reader is a fault.
#[derive(Debug, Drop)]
pub struct InputSource<R> {
    reader: R,
    faults: Faults,
}

impl<R> Model for InputSource<R> {
    ghost use Rattle.bp_outside.specs.Real.{Counted};

    ghost Value = { Counted R };

    ghost view = { λ s. record { device = s.reader; faults = s.faults.count } };
}

impl<R> InputSource<R> {
    /// This reader, with no fault so far.
    pub fn new(reader: R) -> InputSource<R>
        ensures { result ≡ record { device = reader; faults = 0 } }
    {
        InputSource {
            reader,
            faults: Faults::new(),
        }
    }
}

impl<R: Read> Source for InputSource<R> {
    ghost use Rattle.std.specs.Prelude.{None};

    ghost left = { λ _. None };

    ghost faults = { λ s. s.faults };

    ghost steady = { λ _. ⊥ };

    fn read(&mut self, buf: &mut [u8]) -> Result<usize, Failed>
        ensures within { IfOk result (λ n. n ≤ length buf.old) }
        ensures bytes { ReadConsumes (R.remaining self.old.device) (R.remaining self.new.device) result buf.new }
        ensures quiet { OnOk result (self.new.faults ≡ self.old.faults) }
        ensures failed { OnErr result (self.new.faults ≡ counted self.old.faults) }
        ensures never_falls { self.old.faults ≤ self.new.faults }
    {
        match self.reader.read(buf) {
            Ok(n) => Ok(n),
            Err(_) => Err(self.faults.rise()),
        }
    }
}
