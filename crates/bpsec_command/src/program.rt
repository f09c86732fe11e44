//! The top call.

ghost use Rattle.std.specs.Prelude.{◌≡◌, [], map, string_bytes, IfSome};
ghost use Rattle.bp_bundle.specs.WholeInput.{TakesAtMost};
ghost use Rattle.bpsec_answer.specs.Delivery.{IsDelivered, Takes, sunk_of};
ghost use Rattle.bpsec_answer.specs.Due.{IsDue, EndsWith, devices_of};
ghost use Rattle.bpsec_answer.specs.Lines.{memory_fault};
ghost use Rattle.bpsec_answer.specs.Statuses.{IsSuccess, IsRefusedEarly, IsFault};
ghost use Rattle.bpsec_answer.specs.declared.answer.Answer.{Answer};
ghost use Rattle.bpsec_answer.specs.declared.status.Status.TheVariants.{WriteFault};
ghost use Rattle.bpsec_answer.specs.declared.status.Writing.TheVariants.{Out, Report};
ghost use Rattle.bpsec_command.specs.Answer.{job};
ghost use Rattle.bpsec_command.specs.Grammar.{ReadsInput, command_of, most_taken_for};

use crate::respond::respond;
use bp_outside::{Shelf, Sink, Source};
use bpsec_answer::{Status, deliver};
use std::alloc::Global;

/// Runs the program: from the words after its name, the input and the files, to what it writes and its status.
pub fn run<S: Source, K: Shelf, W: Sink, R: Sink>(
    alloc: Global,
    words: &[String],
    input: &mut S,
    shelf: &mut K,
    out: &mut W,
    report: &mut R,
) -> Status
    // Something is due, and it is delivered: what is due is the answer to the words, or the line of a fault of the
    // input or the shelf, or of want of memory.
    ensures answered { (due : Answer) × IsDue
        (devices_of S.left S.faults K.files K.failed input.old input.new shelf.old shelf.new)
        (job (map string_bytes words.now)) due
        × IsDelivered due result
        (sunk_of W.written W.faults out.old out.new)
        (sunk_of R.written R.faults report.old report.new) }

    // Where no write failed, only what is done writes to the output.
    ensures untouched_out { (IsSuccess result → ⊥) → (result ≡ WriteFault Out → ⊥)
        → (result ≡ WriteFault Report → ⊥) → out.new ≡ out.old }

    // What is left of the input, and of the files.
    ensures ended { IsSuccess result → ReadsInput (map string_bytes words.now)
        → IfSome (S.left input.new) (λ rest. rest ≡ []) }
    ensures unread { IsRefusedEarly result → input.new ≡ input.old }
    ensures unread_words { (ReadsInput (map string_bytes words.now) → ⊥) → input.new ≡ input.old }
    ensures at_most { TakesAtMost (most_taken_for (command_of (map string_bytes words.now)))
        (S.left input.old) (S.left input.new) }
    ensures files { K.files shelf.new ≡ K.files shelf.old }

    // Nothing fails over steady devices whose sinks take what is due.
    ensures complete { S.steady input.old → K.steady shelf.old
        → ((due : Answer) → EndsWith
        (devices_of S.left S.faults K.files K.failed input.old input.new shelf.old shelf.new)
        (job (map string_bytes words.now)) due
        → Takes (W.takes out.old) due.out × Takes (R.takes report.old) due.report)
        → Takes (R.takes report.old) memory_fault.report → IsFault result → ⊥ }
{
    match respond(alloc, words, input, shelf) {
        Ok(answer) => deliver(
            answer.status,
            answer.out.as_slice(),
            answer.report.as_slice(),
            out,
            report,
        ),
        Err(hindrance) => deliver(
            hindrance.status(),
            &[],
            hindrance.line().as_bytes(),
            out,
            report,
        ),
    }
}
