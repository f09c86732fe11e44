//! Where reading a part stops.

use crate::reason::LinkReason;

/// Why no part was read.
#[derive(Clone, Copy, Debug, PartialEq, Eq)]
pub enum Stop {
    /// More bytes are wanted.
    More,
    /// This is the first fault.
    Fault { place: u64, reason: LinkReason },
}
