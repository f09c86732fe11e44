//! The third step: the input, read as one bundle and its end. Here alone are faults of the input.

ghost use Rattle.std.specs.Prelude.{◌≡◌, ℕ, [], List, IfOk, IfSome, IsErrOf};
ghost use Rattle.bp_outside.specs.Outside.{Rose};
ghost use Rattle.bp_bundle.specs.FirstFault.{read_only};
ghost use Rattle.bp_bundle.specs.WholeInput.{IsInput, TakesAtMost, most_taken};
ghost use Rattle.bpsec_answer.specs.Riders.{NoInputFault, NoShelfFault, ReadsOn};
ghost use Rattle.bpsec_answer.specs.declared.answer.Hindrance.{Hindrance};

use bp_bundle::{Bundle, InputFault, read_one};
use bp_outside::Source;
use bpsec_answer::Hindrance;
use cbor_profile::Fault;
use std::alloc::Global;

/// Reads one bundle and the end of the input, or its first fault.
pub fn read_bundle<S: Source>(
    alloc: Global,
    input: &mut S,
) -> Result<Result<Bundle, Fault>, Hindrance>
    ensures means { IfOk result (λ read. (bytes : List ℕ)
        × IsInput (S.left input.old) bytes × (read ≡ read_only bytes)) }
    ensures ended { IfOk result (λ read. IfOk read
        (λ _. IfSome (S.left input.new) (λ rest. rest ≡ []))) }
    ensures at_most { TakesAtMost most_taken (S.left input.old) (S.left input.new) }
    ensures quiet { NoInputFault result → S.faults input.new ≡ S.faults input.old }
    ensures failed { IsErrOf result Hindrance.Input
        → Rose (S.faults input.old) (S.faults input.new) }
    ensures no_shelf { NoShelfFault result }
    ensures reads_on { ReadsOn (S.steady input.old) result }
{
    match read_one(alloc, input) {
        Ok(bundle) => Ok(Ok(bundle)),
        Err(InputFault::Fault(fault)) => Ok(Err(fault)),
        Err(InputFault::Failed) => Err(Hindrance::Input),
        Err(InputFault::NoMemory) => Err(Hindrance::Memory),
    }
}
