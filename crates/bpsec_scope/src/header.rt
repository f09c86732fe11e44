//! Headers of blocks.

/// What stands before the body of a canonical block (RFC 9173, section 3.7): type, number and flags, as they stand in the
/// bundle.
#[derive(Clone, Copy, Debug, PartialEq, Eq)]
pub struct Header {
    /// The block type.
    pub kind: u64,
    pub number: u64,
    /// The block processing control flags. Only the assigned ones are covered.
    pub flags: u64,
}
