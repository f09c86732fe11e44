//! The streaming decoder.

ghost use Rattle.std.specs.Prelude.{◌≤◌, ◌^◌};

use crate::stage::Stage;
use cbor_profile::{Bytes, SpellError};
use std::alloc::Global;

/// How much of a piece was taken, and whether the bundle has ended.
#[derive(Clone, Copy, Debug, PartialEq, Eq)]
pub struct Fed {
    pub taken: usize,
    pub done: bool,
}

/// Reads a bundle from bytes that come in any pieces (RFC 9171, section 4). It stops at the first fault, and answers it for
/// good.
#[derive(Drop)]
pub struct Reader {
    pub(crate) alloc: Global,
    pub(crate) stage: Stage,
    /// How many bytes were taken before the pending ones.
    pub(crate) place: u64,
    /// The bytes of a part that isn't whole yet, no body.
    pub(crate) pending: Bytes,
    /// The error that it has met.
    pub(crate) met: Option<SpellError>,
    pub(crate) ghost fits: { place ≤ 2 ^ 62 },
}
