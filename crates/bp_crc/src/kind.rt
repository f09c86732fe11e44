//! The kinds of check.

/// Which check a block carries: none, CRC-16 X-25 in 2 bytes, or CRC-32C in 4 (RFC 9171, section 4.2.1).
#[derive(Clone, Copy, Debug, PartialEq, Eq)]
pub enum CheckKind {
    None,
    Crc16,
    Crc32c,
}
