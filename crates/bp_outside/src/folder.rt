//! A folder of the system to fetch files from.

ghost use Rattle.std.specs.Prelude.{◌≡◌, ◌+◌, ◌-◌, ◌^◌, ◌<◌, ◌≤◌, ◌++◌, [], ◌∷◌, length, take, IfSome, OnOk, IsErrOf};

use crate::files::note;
use crate::shelf::{FetchFault, Shelf};
use cbor_profile::{Bytes, List};
use std::alloc::Global;
use std::fs::File;
use std::io::Read;
use std::marker::Model;
use std::rt::Files;

/// The most bytes that are read at once.
const PIECE: usize = 8192;

/// The current folder to fetch files from. It tells no files. A name that can't be opened, a folder, and a file that
/// can't be read are faults.
#[derive(Debug, Drop)]
pub struct FolderShelf<R> {
    alloc: Global,
    files: R,
    failed: List<Bytes>,
}

impl<R> Model for FolderShelf<R> {
    ghost use Rattle.std.specs.Prelude.{ℕ, List};

    ghost Value = { List (List ℕ) };

    ghost view = { λ s. s.failed };
}

impl<R> FolderShelf<R> {
    /// The files of the system, with no fault so far. Takes no memory.
    pub fn new(alloc: Global, files: R) -> FolderShelf<R>
        ensures { result ≡ [] }
    {
        FolderShelf {
            alloc,
            files,
            failed: List::new(alloc),
        }
    }
}

/// Reads a file to its end, or one byte more than the limit. `out` is empty.
fn read_file<R: Read>(file: &mut R, limit: u64, out: &mut Bytes) -> Result<(), FetchFault>
    requires limit { limit < 2 ^ 64 - 1 }
    requires empty { out.old ≡ [] }
    ensures fits { OnOk result (length out.new ≤ limit) }
    ensures whole { OnOk result (IfSome (R.remaining file.old) (λ bytes. out.new ≡ bytes)) }
    ensures one_more { IsErrOf result FetchFault.TooLong → length out.new ≡ limit + 1 }
    ensures front { IsErrOf result FetchFault.TooLong
        → IfSome (R.remaining file.old) (λ bytes. out.new ≡ take (limit + 1) bytes) }
    ensures no_memory { IsErrOf result FetchFault.NoMemory → out.new ≡ [] }
{
    let most = limit as usize + 1;
    let mut piece = [0; PIECE];
    while out.len() < most {
        let room = PIECE.min(most - out.len());
        let Ok(n) = file.read(&mut piece[..room]) else {
            return Err(FetchFault::Failed);
        };
        if n == 0 {
            return Ok(());
        }
        if let Err(error) = out.extend(&piece[..n]) {
            out.truncate(0);
            return Err(error.into());
        }
    }
    Err(FetchFault::TooLong)
}

/// Opens a file, and reads it. `out` is empty.
fn open_file<R: Files>(files: &R, name: &str, limit: u64, out: &mut Bytes) -> Result<(), FetchFault>
    requires limit { limit < 2 ^ 64 - 1 }
    requires empty { out.old ≡ [] }
    ensures fits { OnOk result (length out.new ≤ limit) }
    ensures one_more { IsErrOf result FetchFault.TooLong → length out.new ≡ limit + 1 }
    ensures no_memory { IsErrOf result FetchFault.NoMemory → out.new ≡ [] }
{
    match File::open(files, name) {
        Ok(mut file) => read_file(&mut file, limit, out),
        Err(_) => Err(FetchFault::Failed),
    }
}

impl<R: Files> Shelf for FolderShelf<R> {
    ghost use Rattle.std.specs.Prelude.{None};

    ghost files = { λ _. None };

    ghost failed = { λ s. s };

    ghost steady = { λ _. ⊥ };

    fn fetch(&mut self, name: &str, limit: u64, out: &mut Bytes) -> Result<(), FetchFault> {
        out.truncate(0);
        let fetched = open_file(&self.files, name, limit, out);
        if fetched != Err(FetchFault::Failed) {
            return fetched;
        }
        out.truncate(0);
        note(self.alloc, &mut self.failed, name)?;
        Err(FetchFault::Failed)
    }
}
