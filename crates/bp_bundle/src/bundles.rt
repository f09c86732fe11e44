//! Bundles back to back in one input.

ghost use Rattle.std.specs.Prelude.{◌≡◌, ◌+◌, ◌^◌, ◌<◌, ◌≤◌, [], None, Some, Err, length, IsErrOf};
ghost use Rattle.std.specs.Result.{result_err};
ghost use Rattle.bp_outside.specs.Outside.{Rose};
ghost use Rattle.bp_bundle.specs.BackToBack.{Reads, waiting};
ghost use Rattle.bp_bundle.specs.declared.whole_input.InputFault.{InputFault};

use crate::bundle::Bundle;
use crate::in_turn::read_next;
use crate::whole_input::InputFault;
use crate::window::Window;
use bp_outside::Source;
use std::alloc::Global;
use std::marker::Model;

/// Reads the bundles of an input that stand back to back. It stops at the first fault, and answers it for good.
#[derive(Drop)]
pub struct Bundles {
    alloc: Global,
    window: Window,
    met: Option<InputFault>,
}

impl Model for Bundles {
    ghost use Rattle.bp_bundle.specs.BackToBack.{Reading};

    ghost Value = { Reading };

    ghost view = { λ b. record { held = b.window.held; taken = b.window.taken; met = b.met } };
}

impl Bundles {
    /// Nothing is read so far. Takes no memory.
    pub fn new(alloc: Global) -> Bundles
        ensures { result ≡ record { held = []; taken = 0; met = None } }
    {
        Bundles {
            alloc,
            window: Window::new(alloc),
            met: None,
        }
    }

    /// How many bytes were read from the source. Takes no memory.
    pub fn taken(&self) -> u64
        ensures taken { result ≡ self.now.taken }
        ensures within { length self.now.held ≤ self.now.taken }
    {
        self.window.taken()
    }

    /// Reads the next bundle: none where the input has ended before a byte of it. An error is answered for good.
    pub fn next<S: Source>(&mut self, source: &mut S) -> Result<Option<Bundle>, InputFault>
        requires { self.old.taken < 2 ^ 60 }
        ensures means { self.old.met ≡ None → Reads (waiting self.old) (S.left source.old) (waiting self.new) (S.left source.new) result }
        ensures met { self.new.met ≡ result_err result }
        ensures again { (fault : InputFault) → self.old.met ≡ Some fault → (result ≡ Err fault) × (self.new ≡ self.old) × (source.new ≡ source.old) }
        ensures at_most { self.new.taken ≤ self.old.taken + 2 ^ 32 }
        ensures quiet { (IsErrOf result InputFault.Failed → ⊥) → S.faults source.new ≡ S.faults source.old }
        ensures failed { self.old.met ≡ None → IsErrOf result InputFault.Failed → Rose (S.faults source.old) (S.faults source.new) }
        ensures reads_on { S.steady source.old → S.steady source.new × (self.old.met ≡ None → IsErrOf result InputFault.Failed → ⊥) }
    {
        if let Some(fault) = self.met {
            return Err(fault);
        }
        match read_next(self.alloc, &mut self.window, source) {
            Ok(found) => Ok(found),
            Err(fault) => {
                self.met = Some(fault);
                Err(fault)
            }
        }
    }
}
