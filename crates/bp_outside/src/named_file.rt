//! A file in memory.

use cbor_profile::Bytes;

/// A file with its name.
#[derive(Debug, Drop)]
pub struct NamedFile {
    /// The name, as a fetch has it.
    pub name: Bytes,
    /// All its bytes.
    pub bytes: Bytes,
}
