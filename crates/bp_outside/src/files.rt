//! What the shelves share.

ghost use Rattle.std.specs.Prelude.{◌≡◌, ◌+◌, ◌-◌, ◌^◌, ◌<◌, ◌≤◌, ◌++◌, [], ◌∷◌, length, take, option_copied, OnOk, OnErr, IsErrOf};
ghost use Rattle.bp_outside.specs.Files.{held};

use crate::named_file::NamedFile;
use crate::shelf::FetchFault;
use cbor_profile::{Bytes, List, NoMemory};
use std::alloc::Global;

/// The bytes of the first file of a name.
pub(crate) fn find_file<'a>(files: &'a [NamedFile], name: &[u8]) -> Option<&'a [u8]>
    ensures { option_copied result ≡ held files.now name.now }
{
    let file = files.iter().find(|file| file.name.as_slice() == name)?;
    Some(file.bytes.as_slice())
}

/// Puts the whole content into `out`, which is empty, or one byte more than the limit where there are more.
pub(crate) fn put_content(content: &[u8], limit: u64, out: &mut Bytes) -> Result<(), FetchFault>
    requires limit { limit < 2 ^ 64 - 1 }
    requires empty { out.old ≡ [] }
    ensures ok { OnOk result ((length content.now ≤ limit) × (out.new ≡ content.now)) }
    ensures too_long { IsErrOf result FetchFault.TooLong
        → (limit < length content.now) × (out.new ≡ take (limit + 1) content.now) }
    ensures no_memory { IsErrOf result FetchFault.NoMemory → out.new ≡ [] }
    ensures never_failed { IsErrOf result FetchFault.Failed → ⊥ }
{
    let limit = limit as usize;
    if content.len() <= limit {
        out.extend(content)?;
        return Ok(());
    }
    out.extend(&content[..limit + 1])?;
    Err(FetchFault::TooLong)
}

/// Notes one more name.
pub(crate) fn note(alloc: Global, names: &mut List<Bytes>, name: &str) -> Result<(), NoMemory>
    ensures ok { OnOk result (names.new ≡ names.old ++ name.now ∷ []) }
    ensures err { OnErr result (names.new ≡ names.old) }
{
    let name = Bytes::of(Vec::from_slice(alloc, name.as_bytes())?);
    names.append(name)
}
