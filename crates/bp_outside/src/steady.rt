//! The forms in memory that never fail.

ghost use Rattle.std.specs.Prelude.{◌≡◌, ◌+◌, ◌-◌, ◌^◌, ◌<◌, ◌≤◌, ◌++◌, [], length, take, drop, min, None, Some, OnOk, IsErrOf, IsOkAnd};
ghost use Rattle.bp_outside.specs.Files.{held_or_empty};
ghost use Rattle.bp_outside.specs.Outside.{IsTooLong};

use crate::fault::Failed;
use crate::files::{find_file, put_content};
use crate::named_file::NamedFile;
use crate::portion::give;
use crate::shelf::{FetchFault, Shelf};
use crate::sink::Sink;
use crate::source::Source;
use cbor_profile::{Bytes, List};
use std::marker::Model;

/// A list of bytes to read from, at most so many a read. No read fails.
#[derive(Debug, Drop)]
pub struct SteadySource {
    bytes: Bytes,
    given: usize,
    most: usize,
}

impl Model for SteadySource {
    ghost use Rattle.std.specs.Prelude.{◌≤◌, length, drop};
    ghost use Rattle.bp_outside.specs.Memory.{SteadyState};

    ghost Value = { SteadyState };

    ghost view = { λ s. record { left = drop s.given s.bytes; most = s.most } };

    ghost invariant = { λ s. (s.given ≤ length s.bytes) × (1 ≤ s.most) };
}

impl SteadySource {
    /// These bytes, at most `most` of them a read.
    pub fn new(bytes: Bytes, most: usize) -> SteadySource
        requires { 1 ≤ most }
        ensures { result ≡ record { left = bytes; most = most } }
    {
        SteadySource {
            bytes,
            given: 0,
            most,
        }
    }
}

impl Source for SteadySource {
    ghost left = { λ s. Some s.left };

    ghost faults = { λ _. 0 };

    ghost steady = { λ _. Unit {0} };

    fn read(&mut self, buf: &mut [u8]) -> Result<usize, Failed>
        ensures gives { IsOkAnd result
            (λ n. n ≡ min self.old.most (min (length buf.old) (length self.old.left))) }
        ensures moved { IsOkAnd result (λ n. self.old.left ≡ take n buf.new ++ self.new.left) }
        ensures rest { IsOkAnd result
            (λ n. self.new ≡ record self.old { left = drop n self.old.left }) }
        ensures ended { IsOkAnd result (λ n. n ≡ 0 → 0 < length buf.old → self.old.left ≡ []) }
    {
        let n = give(self.bytes.as_slice(), self.given, self.most, buf);
        self.given += n;
        Ok(n)
    }
}

/// A list of files to fetch from; of two files of one name the first counts, and a name that no file has is an empty
/// file. No fetch fails.
#[derive(Debug, Drop)]
pub struct SteadyShelf {
    files: List<NamedFile>,
}

impl Model for SteadyShelf {
    ghost use Rattle.std.specs.Prelude.{List};
    ghost use Rattle.bp_outside.specs.declared.named_file.NamedFile.{NamedFile};

    ghost Value = { List NamedFile };

    ghost view = { λ s. s.files };
}

impl SteadyShelf {
    /// These files, and an empty one of each other name.
    pub fn new(files: List<NamedFile>) -> SteadyShelf
        ensures { result ≡ files }
    {
        SteadyShelf { files }
    }
}

impl Shelf for SteadyShelf {
    ghost files = { λ s. Some (held_or_empty s) };

    ghost failed = { λ _. [] };

    ghost steady = { λ _. Unit {0} };

    fn fetch(&mut self, name: &str, limit: u64, out: &mut Bytes) -> Result<(), FetchFault>
        requires { limit < 2 ^ 64 - 1 }
        ensures never_failed { IsErrOf result FetchFault.Failed → ⊥ }
        ensures ok_only { OnOk result ((held_or_empty self.old name.now ≡ Some out.new)
            × (length out.new ≤ limit)) }
        ensures too_long_only { IsErrOf result FetchFault.TooLong
            → IsTooLong (Some (held_or_empty self.old)) name.now limit out.new }
        ensures one_more { IsErrOf result FetchFault.TooLong → length out.new ≡ limit + 1 }
        ensures empty_no_memory { IsErrOf result FetchFault.NoMemory → out.new ≡ [] }
        ensures unchanged { self.new ≡ self.old }
    {
        out.truncate(0);
        let content = find_file(self.files.items(), name.as_bytes()).unwrap_or(&[]);
        put_content(content, limit, out)
    }
}

/// A sink that takes everything, and keeps and tells nothing.
#[derive(Clone, Copy, Debug)]
pub struct DropSink;

impl Sink for DropSink {
    ghost written = { λ _. None };

    ghost faults = { λ _. 0 };

    ghost takes = { λ _ _. Unit {0} };

    fn write(&mut self, piece: &[u8]) -> Result<usize, Failed>
        ensures { IsOkAnd result (λ n. n ≡ length piece.now) }
    {
        Ok(piece.len())
    }
}
