//! `reassemble`: the fragments of an input, joined. Each is read and then added before the next is read.

ghost use Rattle.std.specs.Prelude.{◌≡◌, ◌+◌, ◌*◌, ◌^◌, ◌<◌, ◌++◌, ℕ, [], List};
ghost use Rattle.std.specs.Prelude.{None, IfOk, IsErrOf};
ghost use Rattle.bp_outside.specs.Outside.{Rose};
ghost use Rattle.bp_bundle.specs.Shape.{Contents};
ghost use Rattle.bp_bundle.specs.WholeInput.{IsInput, TakesAtMost};
ghost use Rattle.bp_bundle.specs.BackToBack.{place, waiting, most_for_one};
ghost use Rattle.bp_fragments.specs.Assembled.{Took};
ghost use Rattle.bp_fragments.specs.Joined.{joined};
ghost use Rattle.bpsec_jobs.specs.Reassembled.{add_refused, gathering, joined_answer, reassembled};
ghost use Rattle.bpsec_answer.specs.Riders.{Ended, NoFault, NoInputFault, NoOutput};
ghost use Rattle.bpsec_answer.specs.Riders.{NoShelfFault, NotEarly, ReadsOn};
ghost use Rattle.bpsec_answer.specs.Statuses.{IsSuccess, IsFault, IsRefusedEarly};
ghost use Rattle.bpsec_answer.specs.declared.answer.Hindrance.{Hindrance};

use crate::build::whole_bundle;
use crate::refusals::{bundle_refused, pieces_refused};
use bp_bundle::{Bundles, InputFault, laws};
use bp_fragments::{AddFault, Assembly, FinishFault};
use bp_outside::Source;
use bpsec_answer::{Answer, Hindrance, PiecesReason};
use cbor_profile::{Fault, NoMemory, Reason};
use std::alloc::Global;

/// The answer where a fragment isn't added.
fn add_refused(alloc: Global, fault: AddFault) -> Result<Answer, NoMemory>
    ensures is { IfOk result (λ answer. answer ≡ add_refused fault) }
    ensures met { IfOk result (λ _. fault ≡ AddFault.NoMemory → ⊥) }
    ensures late { IfOk result (λ answer. (IsFault answer.status → ⊥)
        × (IsRefusedEarly answer.status → ⊥) × (IsSuccess answer.status → ⊥)) }
    ensures no_output { IfOk result (λ answer. answer.out ≡ []) }
{
    match fault {
        AddFault::NotFragment => pieces_refused(alloc, PiecesReason::NotFragment, None),
        AddFault::OtherBundle => pieces_refused(alloc, PiecesReason::OtherBundle, None),
        AddFault::PastTotal => pieces_refused(alloc, PiecesReason::PastTotal, None),
        AddFault::OverLimit => pieces_refused(alloc, PiecesReason::OverLimit, None),
        AddFault::OtherBlocks => pieces_refused(alloc, PiecesReason::OtherBlocks, None),
        AddFault::Disagree { place, .. } => {
            pieces_refused(alloc, PiecesReason::Disagree, Some(place))
        }
        AddFault::TooMany => pieces_refused(alloc, PiecesReason::TooMany, None),
        AddFault::NoMemory => Err(NoMemory::again()),
    }
}

/// The answer at the end of the input: the fragments joined, or why they aren't.
fn join(alloc: Global, pieces: Assembly) -> Result<Answer, NoMemory>
    ensures is { (before : List Contents) → Took pieces before → IfOk result
        (λ answer. answer ≡ joined_answer (joined before)) }
    ensures no_fault { NoFault result }
    ensures not_early { NotEarly result }
    ensures no_output { NoOutput result }
{
    match pieces.finish() {
        Ok(bundle) => whole_bundle(alloc, &bundle),
        Err((_, FinishFault::Empty)) => bundle_refused(
            alloc,
            Fault {
                place: 0,
                reason: Reason::Truncated,
            },
        ),
        Err((_, FinishFault::Gap { place })) => {
            pieces_refused(alloc, PiecesReason::Gap, Some(place))
        }
        Err((_, FinishFault::TooLong)) => pieces_refused(alloc, PiecesReason::TooLong, None),
        Err((_, FinishFault::NoMemory)) => Err(NoMemory::again()),
    }
}

/// Reads the fragments from here on, so many at most, and adds each before the next is read.
fn gather<S: Source>(
    alloc: Global,
    input: &mut S,
    bundles: &mut Bundles,
    mut pieces: Assembly,
    more: u64,
) -> Result<Answer, Hindrance>
    requires open { bundles.old.met ≡ None }
    requires room { bundles.old.taken + more * 2 ^ 32 < 2 ^ 60 }
    ensures means { (before : List Contents) → Took pieces before → IfOk result
        (λ answer. (bytes : List ℕ) × IsInput (S.left input.old) bytes
        × (answer
        ≡ gathering more (place (waiting bundles.old)) before (bundles.old.held ++ bytes))) }
    ensures no_fault { NoFault result }
    ensures not_early { NotEarly result }
    ensures no_output { NoOutput result }
    ensures ended { Ended result (S.left input.new) }
    ensures at_most { TakesAtMost (more * most_for_one) (S.left input.old) (S.left input.new) }
    ensures quiet { NoInputFault result → S.faults input.new ≡ S.faults input.old }
    ensures failed { IsErrOf result Hindrance.Input
        → Rose (S.faults input.old) (S.faults input.new) }
    ensures no_shelf { NoShelfFault result }
    ensures reads_on { ReadsOn (S.steady input.old) result }
{
    laws::bundles_are_read_as_spelled();
    let _taken = bundles.taken();
    if more == 0 {
        return Ok(pieces_refused(alloc, PiecesReason::TooMany, None)?);
    }
    match bundles.next(input) {
        Ok(Some(piece)) => match pieces.add(piece) {
            Ok(()) => gather(alloc, input, bundles, pieces, more - 1),
            Err(fault) => Ok(add_refused(alloc, fault)?),
        },
        Ok(None) => Ok(join(alloc, pieces)?),
        Err(InputFault::Fault(fault)) => Ok(bundle_refused(alloc, fault)?),
        Err(InputFault::Failed) => Err(Hindrance::Input),
        Err(InputFault::NoMemory) => Err(Hindrance::Memory),
    }
}

/// The most fragments that are read: one more than are added.
const MOST_READ: u64 = 257;

/// The job of `reassemble`: reads the fragments of the input one after the other, adds each before the next is read, and
/// joins them.
pub fn reassemble<S: Source>(alloc: Global, input: &mut S) -> Result<Answer, Hindrance>
    ensures means { IfOk result (λ answer. (bytes : List ℕ) × IsInput (S.left input.old) bytes
        × (answer ≡ reassembled bytes)) }
    ensures no_fault { NoFault result }
    ensures not_early { NotEarly result }
    ensures no_output { NoOutput result }
    ensures ended { Ended result (S.left input.new) }
    ensures at_most { TakesAtMost (257 * most_for_one) (S.left input.old) (S.left input.new) }
    ensures quiet { NoInputFault result → S.faults input.new ≡ S.faults input.old }
    ensures failed { IsErrOf result Hindrance.Input
        → Rose (S.faults input.old) (S.faults input.new) }
    ensures no_shelf { NoShelfFault result }
    ensures reads_on { ReadsOn (S.steady input.old) result }
{
    let mut bundles = Bundles::new(alloc);
    gather(alloc, input, &mut bundles, Assembly::new(alloc), MOST_READ)
}
