//! One bundle that is the whole of an input.

ghost use Rattle.std.specs.Prelude.{◌≡◌, ◌+◌, ◌<◌, ◌≤◌, ℕ, List, Option, [], length, Ok, IfOk, IfSome, IsErrOf};
ghost use Rattle.cbor_profile.specs.declared.TheConstants.{BUNDLE_LIMIT};
ghost use Rattle.bp_outside.specs.Outside.{Rose};
ghost use Rattle.bp_bundle.specs.WholeInput.{Answered, HasTaken, HasEnded, Stepped, TakesAtMost, count, fault_of_error, most_taken};
ghost use Rattle.cbor_profile.specs.declared.fault.Reason.TheVariants.{Trailing};
ghost use Rattle.bp_bundle.specs.declared.whole_input.InputFault.{InputFault};
ghost use Rattle.bp_bundle.specs.declared.whole_input.Step.{Step};

use crate::bundle::Bundle;
use crate::laws;
use crate::reader::Reader;
use bp_outside::Source;
use cbor_profile::{Fault, NoMemory, Reason, SpellError};
use std::alloc::Global;

/// Why an input isn't read.
#[derive(Clone, Copy, Debug, PartialEq, Eq)]
pub enum InputFault {
    /// A read failed.
    Failed,
    /// It isn't what was to be read: this is its first fault.
    Fault(Fault),
    /// No memory was left.
    NoMemory,
}

/// How many bytes are asked for at once.
pub(crate) const PIECE: usize = 65536;

/// The fault of bytes after a bundle of so many.
fn trailing(place: u64) -> InputFault
    ensures { result ≡ InputFault.Fault (record { place = place; reason = Trailing }) }
{
    InputFault::Fault(Fault {
        place,
        reason: Reason::Trailing,
    })
}

impl From<SpellError> for InputFault {
    ghost from_gives = { λ error fault. fault ≡ fault_of_error error };

    fn from(error: SpellError) -> InputFault {
        match error {
            SpellError::Fault(fault) => InputFault::Fault(fault),
            SpellError::NoMemory => InputFault::NoMemory,
        }
    }
}

impl From<NoMemory> for InputFault {
    ghost from_gives = { λ _ fault. fault ≡ InputFault.NoMemory };

    fn from(_error: NoMemory) -> InputFault {
        InputFault::NoMemory
    }
}

/// What one more piece of the input came to.
#[derive(Clone, Copy)]
pub(crate) enum Step {
    /// The bundle goes on.
    More,
    /// The input has ended.
    Over,
    /// The bundle has ended, and whether with the piece.
    Done(bool),
}

/// Reads one more piece and feeds it.
fn take<S: Source>(
    source: &mut S,
    buffer: &mut [u8],
    reader: &mut Reader,
) -> Result<Step, InputFault>
    requires some { 0 < length buffer.old }
    requires few { length buffer.old ≤ 65536 }
    ensures means { (before : Option (List ℕ)) → HasTaken before (S.left source.old) reader.old → Stepped before (S.left source.new) reader.new result }
    ensures onwards { (before : Option (List ℕ)) → HasTaken before (S.left source.old) reader.old → result ≡ Ok Step.More → count reader.old < count reader.new }
    ensures at_most { (before : Option (List ℕ)) → HasTaken before (S.left source.old) reader.old → TakesAtMost (BUNDLE_LIMIT + 65544) before (S.left source.new) }
    ensures quiet { (IsErrOf result InputFault.Failed → ⊥) → S.faults source.new ≡ S.faults source.old }
    ensures failed { IsErrOf result InputFault.Failed → Rose (S.faults source.old) (S.faults source.new) }
    ensures reads_on { S.steady source.old → (IsErrOf result InputFault.Failed → ⊥) × S.steady source.new }
{
    laws::reading_stays_the_same();
    let Ok(n) = source.read(buffer) else {
        return Err(InputFault::Failed);
    };
    if n == 0 {
        return Ok(Step::Over);
    }
    match reader.feed(&buffer[..n]) {
        Ok(fed) if fed.done => Ok(Step::Done(fed.taken == n)),
        Ok(_) => Ok(Step::More),
        Err(error) => Err(InputFault::from(error)),
    }
}

/// The bundle that the reader has taken whole, and whether nothing follows it.
fn ended<S: Source>(
    source: &mut S,
    buffer: &mut [u8],
    reader: Reader,
    all: bool,
) -> Result<Bundle, InputFault>
    requires { 0 < length buffer.old }
    ensures means { (before : Option (List ℕ)) → HasEnded before (S.left source.old) reader all → Answered before result }
    ensures ended { (before : Option (List ℕ)) → HasEnded before (S.left source.old) reader all → IfOk result (λ _. IfSome (S.left source.new) (λ rest. rest ≡ [])) }
    ensures at_most { (before : Option (List ℕ)) → HasEnded before (S.left source.old) reader all → TakesAtMost most_taken before (S.left source.new) }
    ensures quiet { (IsErrOf result InputFault.Failed → ⊥) → S.faults source.new ≡ S.faults source.old }
    ensures failed { IsErrOf result InputFault.Failed → Rose (S.faults source.old) (S.faults source.new) }
    ensures reads_on { S.steady source.old → (IsErrOf result InputFault.Failed → ⊥) × S.steady source.new }
{
    laws::bundles_are_read_as_spelled();
    laws::bundles_have_one_spelling();
    let bundle = match reader.finish() {
        Ok(bundle) => bundle,
        Err(error) => return Err(InputFault::from(error)),
    };
    let size = bundle.size();
    if !all {
        return Err(trailing(size));
    }
    match source.read(&mut buffer[..1]) {
        Ok(0) => Ok(bundle),
        Ok(_) => Err(trailing(size)),
        Err(_) => Err(InputFault::Failed),
    }
}

/// What the end of an input gives that ends before its bundle does.
fn over(reader: Reader) -> Result<Bundle, InputFault>
    ensures means { (before now : Option (List ℕ)) → HasTaken before now reader → IfSome now (λ rest. rest ≡ []) → Answered before result }
    ensures no_fault { IsErrOf result InputFault.Failed → ⊥ }
{
    laws::bundles_are_read_as_spelled();
    match reader.finish() {
        Ok(bundle) => Ok(bundle),
        Err(error) => Err(InputFault::from(error)),
    }
}

/// Reads one bundle and the end of the input, or its first fault.
pub fn read_one<S: Source>(alloc: Global, source: &mut S) -> Result<Bundle, InputFault>
    ensures means { Answered (S.left source.old) result }
    ensures ended { IfOk result (λ _. IfSome (S.left source.new) (λ rest. rest ≡ [])) }
    ensures at_most { TakesAtMost most_taken (S.left source.old) (S.left source.new) }
    ensures quiet { (IsErrOf result InputFault.Failed → ⊥) → S.faults source.new ≡ S.faults source.old }
    ensures failed { IsErrOf result InputFault.Failed → Rose (S.faults source.old) (S.faults source.new) }
    ensures reads_on { S.steady source.old → (IsErrOf result InputFault.Failed → ⊥) × S.steady source.new }
{
    let mut buffer = [0u8; PIECE];
    let mut reader = Reader::new(alloc);
    loop {
        match take(source, &mut buffer, &mut reader) {
            Ok(Step::More) => {}
            Ok(Step::Over) => return over(reader),
            Ok(Step::Done(all)) => return ended(source, &mut buffer, reader, all),
            Err(fault) => return Err(fault),
        }
    }
}
