//! A list of files to fetch from, some of whose fetches fail.

ghost use Rattle.std.specs.Prelude.{◌≡◌, ◌+◌, ◌-◌, ◌^◌, ◌<◌, ◌≤◌, ◌↔◌, ◌⊎◌, ◌++◌, [], ◌∷◌, length, Contains, Some, OnOk, IsNone, IsErrOf};
ghost use Rattle.bp_outside.specs.Files.{held};
ghost use Rattle.bp_outside.specs.Memory.{counted};
ghost use Rattle.bp_outside.specs.Outside.{IsTooLong};

use crate::calls::Calls;
use crate::files::{find_file, note, put_content};
use crate::named_file::NamedFile;
use crate::shelf::{FetchFault, Shelf};
use cbor_profile::{Bytes, List};
use std::alloc::Global;
use std::marker::Model;

/// A list of files to fetch from; of two files of one name the first counts. The fetches of some numbers fail.
#[derive(Debug, Drop)]
pub struct MemoryShelf {
    alloc: Global,
    files: List<NamedFile>,
    calls: Calls,
    failed: List<Bytes>,
}

impl Model for MemoryShelf {
    ghost use Rattle.bp_outside.specs.Files.{ShelfState};

    ghost Value = { ShelfState };

    ghost view = { λ s. record {
      files = s.files;
      failing = s.calls.failing;
      calls = s.calls.count;
      failed = s.failed;
    } };
}

impl MemoryShelf {
    /// These files. The fetches whose numbers, counted from 0, stand in `failing` fail.
    pub fn new(alloc: Global, files: List<NamedFile>, failing: List<u64>) -> MemoryShelf
        ensures { result ≡ record { files = files; failing = failing; calls = 0; failed = [] } }
    {
        MemoryShelf {
            alloc,
            files,
            calls: Calls::new(failing),
            failed: List::new(alloc),
        }
    }
}

impl Shelf for MemoryShelf {
    ghost files = { λ s. Some (held s.files) };

    ghost failed = { λ s. s.failed };

    ghost steady = { λ _. ⊥ };

    fn fetch(&mut self, name: &str, limit: u64, out: &mut Bytes) -> Result<(), FetchFault>
        requires { limit < 2 ^ 64 - 1 }

        // Which answer comes, where no memory is wanted.
        ensures failed_only { IsErrOf result FetchFault.Failed
            → Contains self.old.failing self.old.calls ⊎ IsNone (held self.old.files name.now) }
        ensures ok_only { OnOk result ((Contains self.old.failing self.old.calls → ⊥)
            × (held self.old.files name.now ≡ Some out.new) × (length out.new ≤ limit)) }
        ensures too_long_only { IsErrOf result FetchFault.TooLong
            → (Contains self.old.failing self.old.calls → ⊥)
            × IsTooLong (Some (held self.old.files)) name.now limit out.new }

        ensures one_more { IsErrOf result FetchFault.TooLong → length out.new ≡ limit + 1 }
        ensures empty_failed { IsErrOf result FetchFault.Failed → out.new ≡ [] }
        ensures empty_no_memory { IsErrOf result FetchFault.NoMemory → out.new ≡ [] }

        ensures files { self.new.files ≡ self.old.files }
        ensures failing { self.new.failing ≡ self.old.failing }
        ensures calls { self.new.calls ≡ counted self.old.calls }
        ensures noted { IsErrOf result FetchFault.Failed
            → self.new.failed ≡ self.old.failed ++ name.now ∷ [] }
        ensures quiet { OnOk result (self.new.failed ≡ self.old.failed) }
        ensures quiet_too_long { IsErrOf result FetchFault.TooLong
            → self.new.failed ≡ self.old.failed }
        ensures quiet_no_memory { IsErrOf result FetchFault.NoMemory
            → self.new.failed ≡ self.old.failed }
    {
        out.truncate(0);
        if !self.calls.begin() {
            if let Some(content) = find_file(self.files.items(), name.as_bytes()) {
                return put_content(content, limit, out);
            }
        }
        note(self.alloc, &mut self.failed, name)?;
        Err(FetchFault::Failed)
    }
}
