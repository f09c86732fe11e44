//! The items of a plan.

use bp_crc::CheckKind;
use bp_eid::Eid;
use cbor_profile::{Bytes, List};

/// A security block whose operations are made for its targets.
#[derive(Debug, Drop)]
pub struct Cover {
    /// The number of the new block.
    pub block: u64,
    pub flags: u64,
    pub crc: CheckKind,
    /// The numbers of 1 to 64 blocks, none twice; 0 is the primary block.
    pub targets: List<u64>,
    /// The security source.
    pub source: Eid,
    /// The name of the key.
    pub key: Bytes,
    /// The name of the key that wraps it, where the wrapped key is a parameter.
    pub wrapped_with: Option<Bytes>,
    /// The variant of the algorithm (RFC 9173, sections 3.3.1 and 4.3.2): 5, 6 or 7 for integrity, 1 or 3 for
    /// confidentiality.
    pub variant: u64,
    /// The scope flags (sections 3.3.3 and 4.3.4), 0 to 65535.
    pub scope: u64,
}

/// A block integrity block that takes over operations of another.
#[derive(Debug, Drop)]
pub struct Split {
    /// The number of the new block.
    pub block: u64,
    pub flags: u64,
    pub crc: CheckKind,
    /// The number of the block that has the operations.
    pub from: u64,
    /// The targets of the operations, 1 to 64, none twice.
    pub targets: List<u64>,
}

/// An item of a plan.
#[derive(Debug, Drop)]
pub enum Item {
    /// A new block integrity block.
    Bib(Cover),
    /// A new block confidentiality block.
    Bcb {
        cover: Cover,
        /// The initialisation vector, 8 to 16 bytes.
        iv: Bytes,
        /// Whether the vector may be used for several targets.
        shared_iv: bool,
        /// Whether the authentication tag stands behind the ciphertext.
        tag_in_body: bool,
    },
    /// A block integrity block made of operations that are there.
    Split(Split),
}
