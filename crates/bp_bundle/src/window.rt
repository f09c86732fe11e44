//! Bytes of an input that were read and wait to be taken.

ghost use Rattle.std.specs.Prelude.{◌≡◌, ◌^◌, ◌<◌, ◌≤◌, [], drop, take, length, vec_len, true, false, Ok, Err, IfSome, IfOk, OnOk, OnErr, IsOk, IsErrOf};
ghost use Rattle.cbor_profile.specs.declared.fault.Fault.{Fault};
ghost use Rattle.bp_outside.specs.Outside.{Rose, Taken};
ghost use Rattle.bp_bundle.specs.BackToBack.{place};
ghost use Rattle.bp_bundle.specs.Window.{Fills};

use crate::whole_input::{InputFault, PIECE};
use bp_outside::Source;
use cbor_profile::NoMemory;
use std::alloc::Global;
use std::marker::Model;

/// Bytes that wait to be taken, and how many were read in all.
#[derive(Drop)]
pub(crate) struct Window {
    /// Room for a piece, from the first read on.
    buffer: Vec<u8>,
    from: usize,
    to: usize,
    taken: u64,
}

impl Model for Window {
    ghost use Rattle.std.specs.Prelude.{◌-◌, ◌≤◌, slice_range, vec_len};
    ghost use Rattle.bp_bundle.specs.BackToBack.{Waiting};

    ghost Value = { Waiting };

    ghost view = { λ w. record { held = slice_range w.buffer.items w.from w.to; taken = w.taken } };

    ghost invariant = { λ w. (w.from ≤ w.to) × (w.to ≤ vec_len w.buffer) × (vec_len w.buffer ≤ 65536) × (w.to - w.from ≤ w.taken) };
}

/// Room for a piece, where there is none yet.
fn make_room(alloc: Global, buffer: &mut Vec<u8>) -> Result<(), InputFault>
    requires { vec_len buffer.old ≤ 65536 }
    ensures ok { OnOk result ((0 < vec_len buffer.new) × (vec_len buffer.new ≤ 65536)) }
    ensures grows { vec_len buffer.old ≤ vec_len buffer.new }
    ensures err { OnErr result (result ≡ Err InputFault.NoMemory) }
    ensures stays { OnErr result (buffer.new ≡ buffer.old) }
{
    if buffer.is_empty() {
        match vec![in alloc; 0u8; PIECE] {
            Ok(room) => *buffer = room,
            Err(error) => return Err(InputFault::from(NoMemory::from(error))),
        }
    }
    Ok(())
}

/// Reads a piece into the front of the room.
fn read_piece<S: Source>(source: &mut S, buffer: &mut Vec<u8>) -> Result<usize, InputFault>
    requires { 0 < vec_len buffer.old }
    ensures len { vec_len buffer.new ≡ vec_len buffer.old }
    ensures within { IfOk result (λ n. n ≤ vec_len buffer.new) }
    ensures moved { IfOk result (λ n. Taken (S.left source.old) (take n buffer.new.items) (S.left source.new)) }
    ensures ended { IfOk result (λ n. n ≡ 0 → IfSome (S.left source.old) (λ rest. rest ≡ [])) }
    ensures stays { OnErr result (S.left source.new ≡ S.left source.old) }
    ensures err { OnErr result (result ≡ Err InputFault.Failed) }
    ensures quiet { OnOk result (S.faults source.new ≡ S.faults source.old) }
    ensures failed { OnErr result (Rose (S.faults source.old) (S.faults source.new)) }
    ensures reads_on { S.steady source.old → IsOk result × S.steady source.new }
{
    match source.read(buffer.as_mut_slice()) {
        Ok(n) => Ok(n),
        Err(_failed) => Err(InputFault::Failed),
    }
}

impl Window {
    pub(crate) fn new(alloc: Global) -> Window
        ensures { result ≡ record { held = []; taken = 0 } }
    {
        Window {
            buffer: Vec::new(alloc),
            from: 0,
            to: 0,
            taken: 0,
        }
    }

    /// How many bytes were read.
    pub(crate) fn taken(&self) -> u64
        ensures taken { result ≡ self.now.taken }
        ensures within { length self.now.held ≤ self.now.taken }
    {
        self.taken
    }

    /// The bytes that wait.
    pub(crate) fn held(&self) -> &[u8]
        ensures held { result.now ≡ self.now.held }
        ensures few { length self.now.held ≤ 65536 }
        ensures within { length self.now.held ≤ self.now.taken }
    {
        &self.buffer.as_slice()[self.from..self.to]
    }

    /// Where the first byte that waits stands in the input.
    pub(crate) fn place(&self) -> u64
        ensures place { result ≡ place self.now }
        ensures few { length self.now.held ≤ 65536 }
    {
        self.taken - (self.to - self.from) as u64
    }

    /// Takes so many of the bytes that wait, or all where there are fewer.
    pub(crate) fn take(&mut self, count: usize)
        ensures { self.new ≡ record self.old { held = drop count self.old.held } }
    {
        if count < self.to - self.from {
            self.from += count;
        } else {
            self.from = self.to;
        }
    }

    /// Reads a piece where no byte waits, and answers whether one waits then.
    pub(crate) fn fill<S: Source>(
        &mut self,
        alloc: Global,
        source: &mut S,
    ) -> Result<bool, InputFault>
        requires { self.old.taken < 2 ^ 62 }
        ensures fills { Fills self.old (S.left source.old) self.new (S.left source.new) }
        ensures few { length self.new.held ≤ 65536 }
        ensures some { result ≡ Ok true → 0 < length self.new.held }
        ensures none { result ≡ Ok false → (self.new.held ≡ []) × IfSome (S.left source.new) (λ rest. rest ≡ []) }
        ensures no_fault { (fault : Fault) → result ≡ Err (InputFault.Fault fault) → ⊥ }
        ensures quiet { (IsErrOf result InputFault.Failed → ⊥) → S.faults source.new ≡ S.faults source.old }
        ensures failed { IsErrOf result InputFault.Failed → Rose (S.faults source.old) (S.faults source.new) }
        ensures reads_on { S.steady source.old → (IsErrOf result InputFault.Failed → ⊥) × S.steady source.new }
    {
        if self.from < self.to {
            return Ok(true);
        }
        match make_room(alloc, &mut self.buffer) {
            Ok(()) => {}
            Err(fault) => return Err(fault),
        }
        match read_piece(source, &mut self.buffer) {
            Ok(n) => {
                self.from = 0;
                self.to = n;
                self.taken += n as u64;
                Ok(n > 0)
            }
            Err(fault) => Err(fault),
        }
    }
}
