//! What files are fetched from.

ghost use Rattle.std.specs.Prelude.{◌≡◌, ℕ, ◌+◌, ◌-◌, ◌^◌, ◌<◌, ◌≤◌, List, [], ◌∷◌, ◌++◌, length, Option, OnOk, IsErrOf};
ghost use Rattle.bp_outside.specs.Outside.{IsWholeFile, IsTooLong};

use cbor_profile::{Bytes, NoMemory};
use std::error::Error;
use std::fmt;

/// Why a file wasn't fetched whole.
#[derive(Clone, Copy, Debug, PartialEq, Eq)]
pub enum FetchFault {
    /// The shelf holds no file of the name, or couldn't read it. It noted the name.
    Failed,
    /// The file is longer than the limit.
    TooLong,
    /// No memory was left for the bytes of the file, or for the name that is to be noted.
    NoMemory,
}

impl fmt::Display for FetchFault {
    fn fmt<W: fmt::Write>(&self, f: &mut fmt::Formatter<W>) -> fmt::Result {
        f.write_str(match self {
            FetchFault::Failed => "the file can't be read",
            FetchFault::TooLong => "the file is too long",
            FetchFault::NoMemory => "out of memory",
        })
    }
}

impl Error for FetchFault {}

impl From<NoMemory> for FetchFault {
    ghost use Rattle.bp_outside.specs.declared.shelf.FetchFault.{FetchFault};

    ghost from_gives = { λ _ fault. fault ≡ FetchFault.NoMemory };

    fn from(_: NoMemory) -> FetchFault {
        FetchFault::NoMemory
    }
}

/// What files are fetched from by their names: the current folder, or a list of files in memory.
pub trait Shelf {
    /// The content of each name that is held, where the shelf tells it. The files never change.
    ghost files: { Self → Option (List ℕ → Option (List ℕ)) };

    /// The names whose fetch failed, in order. Their number is the count of faults.
    ghost failed: { Self → List (List ℕ) };

    /// No fetch of it fails, now or later.
    ghost steady: { Self → Type 0 };

    /// Puts the whole file of a name, at most `limit` bytes, in the place of what `out` holds.
    fn fetch(&mut self, name: &str, limit: u64, out: &mut Bytes) -> Result<(), FetchFault>
        requires { limit < 2 ^ 64 - 1 }

        ensures fits { OnOk result (length out.new ≤ limit) }
        ensures whole { OnOk result (IsWholeFile (files self.old) name.now out.new) }
        ensures too_long { IsErrOf result FetchFault.TooLong
            → IsTooLong (files self.old) name.now limit out.new }
        ensures one_more { IsErrOf result FetchFault.TooLong → length out.new ≡ limit + 1 }
        ensures empty_failed { IsErrOf result FetchFault.Failed → out.new ≡ [] }
        ensures empty_no_memory { IsErrOf result FetchFault.NoMemory → out.new ≡ [] }

        ensures unchanged { files self.new ≡ files self.old }
        ensures noted { IsErrOf result FetchFault.Failed
            → failed self.new ≡ failed self.old ++ name.now ∷ [] }
        ensures quiet { OnOk result (failed self.new ≡ failed self.old) }
        ensures quiet_too_long { IsErrOf result FetchFault.TooLong
            → failed self.new ≡ failed self.old }
        ensures quiet_no_memory { IsErrOf result FetchFault.NoMemory
            → failed self.new ≡ failed self.old }
        ensures fetches_on { steady self.old
            → (IsErrOf result FetchFault.Failed → ⊥) × steady self.new };
}
