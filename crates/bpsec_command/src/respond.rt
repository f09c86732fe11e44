//! From the words, the files and the input to the answer, all of it made in memory: a function for each shape of work.

ghost use Rattle.std.specs.Prelude.{◌≡◌, ◌*◌, map, string_bytes};
ghost use Rattle.bp_bundle.specs.WholeInput.{TakesAtMost, most_taken};
ghost use Rattle.bp_bundle.specs.BackToBack.{most_for_one};
ghost use Rattle.bpsec_answer.specs.Due.{IsDue, devices_of, due_of};
ghost use Rattle.bpsec_answer.specs.Riders.{Ended, FetchesOn, NoFault, NoInputFault, NoOutput};
ghost use Rattle.bpsec_answer.specs.Riders.{NoShelfFault, NotEarly, ReadsOn, Unread};
ghost use Rattle.bpsec_jobs.specs.Reassembled.{reassembled};
ghost use Rattle.bpsec_jobs.specs.Work.{of_bundle, of_fragments, of_text, of_text_and_ring};
ghost use Rattle.bpsec_jobs.specs.Work.{of_text_and_ring_alone};
ghost use Rattle.bpsec_jobs.specs.Work.{ring_name, with_bundle, with_ring};
ghost use Rattle.bpsec_command.specs.Answer.{job};
ghost use Rattle.bpsec_command.specs.Grammar.{ReadsInput, command_of, most_taken_for};
ghost use Rattle.bpsec_command.specs.Said.{of_nothing};

use crate::command::Command;
use crate::files::read_named;
use crate::grammar::read_words;
use crate::input::read_bundle;
use crate::said::{help, said, version};
use bp_outside::{Shelf, Source};
use bpsec_answer::{Answer, Hindrance, Status, refusal};
use bpsec_jobs::{
    Build, BundleJob, Check, Explain, Fragment, KeyedJob, Node, RingJob, Secure, TextJob, Upgrade,
    bundle_refused, reassemble, text_refused,
};
use bpsec_policy::KeyRing;
use bpsec_reports::{PlanAudit, PolicyAudit, StatusReport};
use std::alloc::Global;

/// The place of the word that names a text.
const TEXT: usize = 2;

/// The place of the word that names a key ring.
const RING: usize = 4;

/// Reads one bundle and the end of the input, and does the job on it.
fn on_bundle<S: Source, K: Shelf, J: BundleJob>(
    alloc: Global,
    words: &[String],
    input: &mut S,
    shelf: &K,
    job: &J,
) -> Result<Answer, Hindrance>
    ensures due { IsDue
        (devices_of S.left S.faults K.files K.failed input.old input.new shelf.now shelf.now)
        ((of_bundle (J.answer_to job.now)).job (map string_bytes words.now)) (due_of result) }
    ensures no_fault { NoFault result }
    ensures no_output { NoOutput result }
    ensures not_early { NotEarly result }
    ensures ended { Ended result (S.left input.new) }
    ensures at_most { TakesAtMost most_taken (S.left input.old) (S.left input.new) }
    ensures reads_on { ReadsOn (S.steady input.old) result }
    ensures no_shelf { NoShelfFault result }
{
    let _ = words;
    let _ = shelf;
    let answer = match read_bundle(alloc, input)? {
        Ok(bundle) => job.answer(alloc, bundle)?,
        Err(fault) => bundle_refused(alloc, fault)?,
    };
    Ok(answer)
}

/// Says these lines. No file is fetched, and the input isn't read.
fn on_nothing<S: Source, K: Shelf>(
    alloc: Global,
    words: &[String],
    input: &S,
    shelf: &K,
    lines: &[&str],
) -> Result<Answer, Hindrance>
    ensures due { IsDue
        (devices_of S.left S.faults K.files K.failed input.now input.now shelf.now shelf.now)
        ((of_nothing (map (λ text. text.now) lines.now)).job (map string_bytes words.now))
        (due_of result) }
    ensures no_fault { NoFault result }
    ensures no_output { NoOutput result }
    ensures no_input { NoInputFault result }
    ensures no_shelf { NoShelfFault result }
{
    let _ = words;
    let _ = input;
    let _ = shelf;
    Ok(said(alloc, lines)?)
}

/// Fetches a file, reads it as a text, and does the job on that. The input isn't read.
fn on_text<S: Source, K: Shelf, J: TextJob>(
    alloc: Global,
    words: &[String],
    input: &S,
    shelf: &mut K,
    job: &J,
) -> Result<Answer, Hindrance>
    ensures due { IsDue
        (devices_of S.left S.faults K.files K.failed input.now input.now shelf.old shelf.new)
        ((of_text J.Text.reads J.Text.ends (J.answer_to job.now)).job (map string_bytes words.now))
        (due_of result) }
    ensures no_fault { NoFault result }
    ensures no_output { NoOutput result }
    ensures files { K.files shelf.new ≡ K.files shelf.old }
    ensures fetches_on { FetchesOn (K.steady shelf.old) result }
    ensures no_input { NoInputFault result }
{
    let _ = input;
    let answer = match read_named(alloc, words, TEXT, shelf)? {
        Ok(text) => job.answer(alloc, text)?,
        Err(fault) => text_refused::<J::Text>(alloc, fault)?,
    };
    Ok(answer)
}

/// Fetches a text and then a key ring, and does the job on both. The input isn't read.
fn on_text_and_ring_alone<S: Source, K: Shelf, J: RingJob>(
    alloc: Global,
    words: &[String],
    input: &S,
    shelf: &mut K,
    job: &J,
) -> Result<Answer, Hindrance>
    ensures due { IsDue
        (devices_of S.left S.faults K.files K.failed input.now input.now shelf.old shelf.new)
        ((of_text_and_ring_alone J.Text.reads J.Text.ends (J.answer_to job.now)).job
        (map string_bytes words.now)) (due_of result) }
    ensures no_fault { NoFault result }
    ensures no_output { NoOutput result }
    ensures files { K.files shelf.new ≡ K.files shelf.old }
    ensures fetches_on { FetchesOn (K.steady shelf.old) result }
    ensures no_input { NoInputFault result }
{
    let _ = input;
    let text = match read_named(alloc, words, TEXT, shelf)? {
        Ok(text) => text,
        Err(fault) => return Ok(text_refused::<J::Text>(alloc, fault)?),
    };
    let answer = match read_named(alloc, words, RING, shelf)? {
        Ok(ring) => job.answer(alloc, text, ring)?,
        Err(fault) => text_refused::<KeyRing>(alloc, fault)?,
    };
    Ok(answer)
}

/// Fetches a key ring, reads one bundle and the end of the input, and does the job on both and a text.
fn on_ring<S: Source, K: Shelf, J: KeyedJob>(
    alloc: Global,
    words: &[String],
    input: &mut S,
    shelf: &mut K,
    text: J::Text,
    job: &J,
) -> Result<Answer, Hindrance>
    ensures due { IsDue
        (devices_of S.left S.faults K.files K.failed input.old input.new shelf.old shelf.new)
        (with_ring (ring_name (map string_bytes words.now))
        (λ ring. with_bundle (J.answer_to job.now text ring))) (due_of result) }
    ensures no_fault { NoFault result }
    ensures no_output { NoOutput result }
    ensures ended { Ended result (S.left input.new) }
    ensures unread { Unread result input.old input.new }
    ensures at_most { TakesAtMost most_taken (S.left input.old) (S.left input.new) }
    ensures files { K.files shelf.new ≡ K.files shelf.old }
    ensures reads_on { ReadsOn (S.steady input.old) result }
    ensures fetches_on { FetchesOn (K.steady shelf.old) result }
{
    let ring: KeyRing = match read_named(alloc, words, RING, shelf)? {
        Ok(ring) => ring,
        Err(fault) => return Ok(text_refused::<KeyRing>(alloc, fault)?),
    };
    let answer = match read_bundle(alloc, input)? {
        Ok(bundle) => job.answer(alloc, text, ring, bundle)?,
        Err(fault) => bundle_refused(alloc, fault)?,
    };
    Ok(answer)
}

/// Fetches a text and then a key ring, reads one bundle and the end of the input, and does the job on them.
fn on_text_and_ring<S: Source, K: Shelf, J: KeyedJob>(
    alloc: Global,
    words: &[String],
    input: &mut S,
    shelf: &mut K,
    job: &J,
) -> Result<Answer, Hindrance>
    ensures due { IsDue
        (devices_of S.left S.faults K.files K.failed input.old input.new shelf.old shelf.new)
        ((of_text_and_ring J.Text.reads J.Text.ends (J.answer_to job.now)).job
        (map string_bytes words.now)) (due_of result) }
    ensures no_fault { NoFault result }
    ensures no_output { NoOutput result }
    ensures ended { Ended result (S.left input.new) }
    ensures unread { Unread result input.old input.new }
    ensures at_most { TakesAtMost most_taken (S.left input.old) (S.left input.new) }
    ensures files { K.files shelf.new ≡ K.files shelf.old }
    ensures reads_on { ReadsOn (S.steady input.old) result }
    ensures fetches_on { FetchesOn (K.steady shelf.old) result }
{
    match read_named(alloc, words, TEXT, shelf)? {
        Ok(text) => on_ring(alloc, words, input, shelf, text, job),
        Err(fault) => Ok(text_refused::<J::Text>(alloc, fault)?),
    }
}

/// Reads the fragments of the input, and joins them.
fn on_fragments<S: Source, K: Shelf>(
    alloc: Global,
    words: &[String],
    input: &mut S,
    shelf: &K,
) -> Result<Answer, Hindrance>
    ensures due { IsDue
        (devices_of S.left S.faults K.files K.failed input.old input.new shelf.now shelf.now)
        ((of_fragments reassembled).job (map string_bytes words.now)) (due_of result) }
    ensures no_fault { NoFault result }
    ensures no_output { NoOutput result }
    ensures not_early { NotEarly result }
    ensures ended { Ended result (S.left input.new) }
    ensures at_most { TakesAtMost (257 * most_for_one) (S.left input.old) (S.left input.new) }
    ensures reads_on { ReadsOn (S.steady input.old) result }
    ensures no_shelf { NoShelfFault result }
{
    let _ = words;
    let _ = shelf;
    reassemble(alloc, input)
}

/// Reads the words, fetches the named files, reads the input, and does the job.
pub fn respond<S: Source, K: Shelf>(
    alloc: Global,
    words: &[String],
    input: &mut S,
    shelf: &mut K,
) -> Result<Answer, Hindrance>
    ensures due { IsDue
        (devices_of S.left S.faults K.files K.failed input.old input.new shelf.old shelf.new)
        (job (map string_bytes words.now)) (due_of result) }
    ensures no_fault { NoFault result }
    ensures no_output { NoOutput result }
    ensures ended { ReadsInput (map string_bytes words.now) → Ended result (S.left input.new) }
    ensures unread { Unread result input.old input.new }
    ensures unread_words { (ReadsInput (map string_bytes words.now) → ⊥) → input.new ≡ input.old }
    ensures at_most { TakesAtMost (most_taken_for (command_of (map string_bytes words.now)))
        (S.left input.old) (S.left input.new) }
    ensures files { K.files shelf.new ≡ K.files shelf.old }
    ensures reads_on { ReadsOn (S.steady input.old) result }
    ensures fetches_on { FetchesOn (K.steady shelf.old) result }
{
    match read_words(words) {
        Ok(Command::Check) => on_bundle(alloc, words, input, shelf, &Check),
        Ok(Command::Explain) => on_bundle(alloc, words, input, shelf, &Explain),
        Ok(Command::Build) => on_text(alloc, words, input, shelf, &Build),
        Ok(Command::Upgrade) => on_text(alloc, words, input, shelf, &Upgrade),
        Ok(Command::Secure) => on_text_and_ring(alloc, words, input, shelf, &Secure),
        Ok(Command::Fragment { size }) => {
            on_bundle(alloc, words, input, shelf, &Fragment { size })
        }
        Ok(Command::Reassemble) => on_fragments(alloc, words, input, shelf),
        Ok(Command::Node { order }) => {
            on_text_and_ring(alloc, words, input, shelf, &Node { order })
        }
        Ok(
            Command::Status {
                order,
                time,
                sequence,
            },
        ) => {
            let job = StatusReport {
                order,
                time,
                sequence,
            };
            on_text_and_ring(alloc, words, input, shelf, &job)
        }
        Ok(Command::AuditPolicy) => {
            on_text_and_ring_alone(alloc, words, input, shelf, &PolicyAudit)
        }
        Ok(Command::AuditPlan) => { on_text_and_ring_alone(alloc, words, input, shelf, &PlanAudit) }
        Ok(Command::Help) => on_nothing(alloc, words, input, shelf, &help()),
        Ok(Command::Version) => on_nothing(alloc, words, input, shelf, &version()),
        Err(word) => Ok(refusal(alloc, Status::Usage { word })?),
    }
}
