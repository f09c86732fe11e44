//! The second step: a named file, fetched and then read as a text. Here alone are faults of the shelf.

ghost use Rattle.std.specs.Prelude.{◌≡◌, ◌∷◌, ◌++◌, ℕ, [], List, map, string_bytes, IfOk, IsErrOf};
ghost use Rattle.bpsec_answer.specs.Due.{IsFile};
ghost use Rattle.bpsec_answer.specs.Riders.{FetchesOn, NoInputFault, NoShelfFault};
ghost use Rattle.bpsec_answer.specs.declared.answer.Hindrance.{Hindrance};
ghost use Rattle.bpsec_jobs.specs.Work.{word_at};

use crate::grammar::word;
use bp_outside::{FetchFault, Shelf};
use bp_text::{TEXT_LIMIT, TextError, TextFault, TextReason};
use bpsec_answer::Hindrance;
use bpsec_jobs::NamedText;
use cbor_profile::Bytes;
use std::alloc::Global;

/// Fetches a file and reads it as a text, or answers the first fault of the text.
fn read_text<K: Shelf, T: NamedText>(
    alloc: Global,
    shelf: &mut K,
    name: &str,
) -> Result<Result<T, TextFault>, Hindrance>
    ensures means { IfOk result (λ read. (content : List ℕ)
        × IsFile (K.files shelf.old) name.now content × (read ≡ T.reads content)) }
    ensures files { K.files shelf.new ≡ K.files shelf.old }
    ensures quiet { NoShelfFault result → K.failed shelf.new ≡ K.failed shelf.old }
    ensures noted { IsErrOf result Hindrance.Shelf
        → K.failed shelf.new ≡ K.failed shelf.old ++ name.now ∷ [] }
    ensures no_input { NoInputFault result }
    ensures fetches_on { FetchesOn (K.steady shelf.old) result }
    ensures steady { K.steady shelf.old → K.steady shelf.new }
{
    let mut content = Bytes::new(alloc);
    match shelf.fetch(name, TEXT_LIMIT as u64, &mut content) {
        Ok(()) => match T::read(alloc, content.as_slice()) {
            Ok(text) => Ok(Ok(text)),
            Err(TextError::Fault(fault)) => Ok(Err(fault)),
            Err(TextError::NoMemory) => Err(Hindrance::Memory),
        },
        Err(FetchFault::TooLong) => Ok(Err(TextFault {
            entry: None,
            reason: TextReason::TooLong,
        })),
        Err(FetchFault::Failed) => Err(Hindrance::Shelf),
        Err(FetchFault::NoMemory) => Err(Hindrance::Memory),
    }
}

/// Fetches the file that a word names, the one at this place, and reads it as a text.
pub fn read_named<K: Shelf, T: NamedText>(
    alloc: Global,
    words: &[String],
    place: usize,
    shelf: &mut K,
) -> Result<Result<T, TextFault>, Hindrance>
    ensures means { IfOk result (λ read. (content : List ℕ)
        × IsFile (K.files shelf.old) (word_at place (map string_bytes words.now)) content
        × (read ≡ T.reads content)) }
    ensures files { K.files shelf.new ≡ K.files shelf.old }
    ensures quiet { NoShelfFault result → K.failed shelf.new ≡ K.failed shelf.old }
    ensures noted { IsErrOf result Hindrance.Shelf → K.failed shelf.new
        ≡ K.failed shelf.old ++ word_at place (map string_bytes words.now) ∷ [] }
    ensures no_input { NoInputFault result }
    ensures fetches_on { FetchesOn (K.steady shelf.old) result }
    ensures steady { K.steady shelf.old → K.steady shelf.new }
{
    let name = word(words, place);
    read_text(alloc, shelf, name)
}
