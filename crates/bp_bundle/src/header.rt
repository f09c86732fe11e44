//! The header of a canonical block.

use bp_crc::CheckKind;

/// What stands in a canonical block before its body (RFC 9171, section 4.3.2).
#[derive(Clone, Copy, Debug, PartialEq, Eq)]
pub struct Header {
    pub kind: u64,
    pub number: u64,
    pub flags: u64,
    pub crc: CheckKind,
    /// How many bytes the body has.
    pub len: u64,
}
