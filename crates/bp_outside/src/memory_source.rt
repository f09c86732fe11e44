//! A list of bytes to read from, some of whose reads fail.

ghost use Rattle.std.specs.Prelude.{◌≡◌, ◌<◌, ◌≤◌, ◌↔◌, ◌++◌, [], length, take, drop, min, Contains, IfOk, OnErr, IsOk, IsErr};
ghost use Rattle.bp_outside.specs.Memory.{counted, NoneFails};

use crate::calls::Calls;
use crate::fault::{Failed, Faults};
use crate::portion::give;
use crate::source::Source;
use cbor_profile::{Bytes, List};
use std::marker::Model;

/// A list of bytes to read from, at most so many a read. The reads of some numbers fail.
#[derive(Debug, Drop)]
pub struct MemorySource {
    bytes: Bytes,
    given: usize,
    most: usize,
    calls: Calls,
    faults: Faults,
}

impl Model for MemorySource {
    ghost use Rattle.std.specs.Prelude.{◌≤◌, length, drop};
    ghost use Rattle.bp_outside.specs.Memory.{SourceState};

    ghost Value = { SourceState };

    ghost view = { λ s. record {
      left = drop s.given s.bytes;
      most = s.most;
      failing = s.calls.failing;
      calls = s.calls.count;
      faults = s.faults.count;
    } };

    ghost invariant = { λ s. (s.given ≤ length s.bytes) × (1 ≤ s.most) };
}

impl MemorySource {
    /// These bytes, at most `most` of them a read. The reads whose numbers, counted from 0, stand in `failing` fail.
    pub fn new(bytes: Bytes, most: usize, failing: List<u64>) -> MemorySource
        requires { 1 ≤ most }
        ensures { result ≡ record { left = bytes; most = most; failing = failing; calls = 0; faults = 0 } }
    {
        MemorySource {
            bytes,
            given: 0,
            most,
            calls: Calls::new(failing),
            faults: Faults::new(),
        }
    }
}

impl Source for MemorySource {
    ghost use Rattle.std.specs.Prelude.{Some};

    ghost left = { λ s. Some s.left };

    ghost faults = { λ s. s.faults };

    ghost steady = { λ s. NoneFails s.failing s.calls };

    fn read(&mut self, buf: &mut [u8]) -> Result<usize, Failed>
        ensures fails { IsErr result ↔ Contains self.old.failing self.old.calls }
        ensures gives { IfOk result
            (λ n. n ≡ min self.old.most (min (length buf.old) (length self.old.left))) }
        ensures moved { IfOk result (λ n. self.old.left ≡ take n buf.new ++ self.new.left) }
        ensures rest { IfOk result (λ n. self.new ≡ record self.old {
          left = drop n self.old.left;
          calls = counted self.old.calls;
        }) }
        ensures fault { OnErr result (self.new ≡ record self.old {
          calls = counted self.old.calls;
          faults = counted self.old.faults;
        }) }

        ensures ended { IfOk result (λ n. n ≡ 0 → 0 < length buf.old → self.old.left ≡ []) }
        ensures never_falls { self.old.faults ≤ self.new.faults }
        ensures reads_on { NoneFails self.old.failing self.old.calls
            → IsOk result × NoneFails self.new.failing self.new.calls }
    {
        if self.calls.begin() {
            return Err(self.faults.rise());
        }
        let n = give(self.bytes.as_slice(), self.given, self.most, buf);
        self.given += n;
        Ok(n)
    }
}
