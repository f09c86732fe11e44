//! Reading the next of several bundles.

ghost use Rattle.std.specs.Prelude.{◌≡◌, ◌+◌, ◌^◌, ◌<◌, ◌≤◌, ℕ, List, [], IfSome, IsErrOf};
ghost use Rattle.cbor_profile.specs.declared.TheConstants.{BUNDLE_LIMIT};
ghost use Rattle.bp_outside.specs.Outside.{Rose};
ghost use Rattle.bp_bundle.specs.Spelling.{IsBundle, spelling};
ghost use Rattle.bp_bundle.specs.Taking.{Took};
ghost use Rattle.bp_bundle.specs.BackToBack.{Reads};
ghost use Rattle.bp_bundle.specs.Window.{FitsThere, HasWhole, fault_there, over_there};

use crate::bundle::Bundle;
use crate::laws;
use crate::reader::Reader;
use crate::whole_input::InputFault;
use crate::window::Window;
use bp_outside::Source;
use cbor_profile::{Fault, Reason, SpellError};
use std::alloc::Global;

/// The fault of a bundle that begins at this place.
fn fault_there(place: u64, error: SpellError) -> InputFault
    requires { FitsThere place error }
    ensures { result ≡ fault_there place error }
{
    match error {
        SpellError::Fault(fault) => InputFault::Fault(Fault {
            place: place + fault.place,
            reason: fault.reason,
        }),
        SpellError::NoMemory => InputFault::from(error),
    }
}

/// What the end of an input gives after so many bytes of a bundle that begins at this place.
fn over(place: u64, count: u64) -> Result<Option<Bundle>, InputFault>
    requires { place + count < 2 ^ 64 }
    ensures { result ≡ over_there place count }
{
    if count == 0 {
        return Ok(None);
    }
    Err(InputFault::Fault(Fault {
        place: place + count,
        reason: Reason::Truncated,
    }))
}

/// The bundle that a reader has taken whole.
fn whole(reader: Reader) -> Bundle
    requires { HasWhole reader }
    ensures means { (taken : List ℕ) → Took reader taken → taken ≡ spelling result }
    ensures shape { IsBundle result }
{
    laws::bundles_are_read_as_spelled();
    match reader.finish() {
        Ok(bundle) => bundle,
        Err(_error) => unreachable!(),
    }
}

/// Reads the next bundle behind what was taken before.
pub(crate) fn read_next<S: Source>(
    alloc: Global,
    window: &mut Window,
    source: &mut S,
) -> Result<Option<Bundle>, InputFault>
    requires { window.old.taken < 2 ^ 60 }
    ensures means { Reads window.old (S.left source.old) window.new (S.left source.new) result }
    ensures quiet { (IsErrOf result InputFault.Failed → ⊥) → S.faults source.new ≡ S.faults source.old }
    ensures failed { IsErrOf result InputFault.Failed → Rose (S.faults source.old) (S.faults source.new) }
    ensures reads_on { S.steady source.old → (IsErrOf result InputFault.Failed → ⊥) × S.steady source.new }
{
    laws::bundles_are_read_as_spelled();
    laws::reading_stays_the_same();
    let place = window.place();
    let mut reader = Reader::new(alloc);
    let mut count: u64 = 0;
    loop {
        match window.fill(alloc, source) {
            Ok(true) => {}
            Ok(false) => return over(place, count),
            Err(fault) => return Err(fault),
        }
        match reader.feed(window.held()) {
            Ok(fed) => {
                window.take(fed.taken);
                if fed.done {
                    return Ok(Some(whole(reader)));
                }
                count += fed.taken as u64;
            }
            Err(error) => return Err(fault_there(place, error)),
        }
    }
}
