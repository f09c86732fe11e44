//! A list of bytes to write to, some of whose writes fail.

ghost use Rattle.std.specs.Prelude.{◌≡◌, ◌-◌, ◌<◌, ◌≤◌, ◌↔◌, ◌⊎◌, ◌++◌, ℕ, [], length, take, min, Contains, IfOk, OnErr, IsErr, IsOkAnd};
ghost use Rattle.bp_outside.specs.Memory.{counted, NoneFails};

use crate::calls::Calls;
use crate::fault::{Failed, Faults};
use crate::sink::Sink;
use cbor_profile::{List, NoMemory};
use std::alloc::Global;
use std::marker::Model;

/// A list of bytes to write to, with room for so many. The writes of some numbers fail.
#[derive(Debug, Drop)]
pub struct MemorySink {
    written: Vec<u8>,
    room: usize,
    calls: Calls,
    faults: Faults,
}

impl Model for MemorySink {
    ghost use Rattle.std.specs.Prelude.{◌+◌, ◌≤◌, vec_len, vec_capacity};
    ghost use Rattle.bp_outside.specs.Memory.{SinkState};

    ghost Value = { SinkState };

    ghost view = { λ s. record {
      written = s.written.items;
      room = s.room;
      failing = s.calls.failing;
      calls = s.calls.count;
      faults = s.faults.count;
    } };

    ghost invariant = { λ s. vec_len s.written + s.room ≤ vec_capacity s.written };
}

impl MemorySink {
    /// Nothing written so far, and room for `room` bytes, which is taken at once. The writes whose numbers, counted from
    /// 0, stand in `failing` fail.
    pub fn new(alloc: Global, room: usize, failing: List<u64>) -> Result<MemorySink, NoMemory>
        ensures { IfOk result (λ sink. sink ≡ record {
          written = [];
          room = room;
          failing = failing;
          calls = 0;
          faults = 0;
        }) }
    {
        Ok(MemorySink {
            written: Vec::with_capacity(alloc, room)?,
            room,
            calls: Calls::new(failing),
            faults: Faults::new(),
        })
    }

    /// All that was written.
    pub fn bytes(&self) -> &[u8]
        ensures { result.now ≡ self.now.written }
    {
        self.written.as_slice()
    }
}

impl Sink for MemorySink {
    ghost use Rattle.std.specs.Prelude.{Some};

    ghost written = { λ s. Some s.written };

    ghost faults = { λ s. s.faults };

    ghost takes = { λ s n. NoneFails s.failing s.calls × (n ≤ s.room) };

    fn write(&mut self, piece: &[u8]) -> Result<usize, Failed>
        ensures fails { IsErr result
            ↔ (Contains self.old.failing self.old.calls
            ⊎ ((self.old.room ≡ 0) × (0 < length piece.now))) }
        ensures takes { IfOk result (λ n. n ≡ min (length piece.now) self.old.room) }
        ensures after { IfOk result (λ n. self.new ≡ record self.old {
          written = self.old.written ++ take n piece.now;
          room = self.old.room - n;
          calls = counted self.old.calls;
        }) }
        ensures fault { OnErr result (self.new ≡ record self.old {
          calls = counted self.old.calls;
          faults = counted self.old.faults;
        }) }

        ensures some { IfOk result (λ n. 0 < length piece.now → 0 < n) }
        ensures never_falls { self.old.faults ≤ self.new.faults }
        ensures takes_on { (n : ℕ) → NoneFails self.old.failing self.old.calls × (n ≤ self.old.room)
            → length piece.now ≤ n
            → IsOkAnd result (λ k. NoneFails self.new.failing self.new.calls
            × (n - k ≤ self.new.room)) }
    {
        let is_full = self.room == 0 && !piece.is_empty();
        if self.calls.begin() || is_full {
            return Err(self.faults.rise());
        }
        let n = piece.len().min(self.room);
        self.written.extend_from_slice(&piece[..n]).unwrap();
        self.room -= n;
        Ok(n)
    }
}
