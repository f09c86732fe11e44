//! Why a fragment isn't added, and why fragments aren't joined.

ghost use Rattle.std.specs.Prelude.{◌≡◌};

use cbor_profile::NoMemory;
use thiserror::Error;

/// Why a fragment wasn't added: memory ran out, or the first of the others that holds.
#[derive(Clone, Copy, Debug, PartialEq, Eq, Error)]
pub enum AddFault {
    #[error("the bundle is no fragment")]
    NotFragment,
    #[error("the primary block differs from the first fragment's in more than the offset")]
    OtherBundle,
    #[error("the fragment ends behind the whole payload")]
    PastTotal,
    #[error("the whole payload has more bytes than a bundle may have")]
    OverLimit,
    #[error("another fragment of offset 0 has other blocks or another payload header")]
    OtherBlocks,
    /// The least place of the whole payload at which the byte that is kept differs.
    #[error("at place {place} the byte {kept} is kept, and {given} was given")]
    Disagree { place: u64, kept: u8, given: u8 },
    #[error("256 fragments are kept")]
    TooMany,
    #[error("out of memory")]
    NoMemory,
}

impl From<NoMemory> for AddFault {
    ghost use Rattle.bp_fragments.specs.declared.fault.AddFault.{AddFault};

    ghost from_gives = { λ _ fault. fault ≡ AddFault.NoMemory };

    fn from(_error: NoMemory) -> AddFault {
        AddFault::NoMemory
    }
}

/// Why fragments weren't joined: memory ran out, or the first of the others that holds.
#[derive(Clone, Copy, Debug, PartialEq, Eq, Error)]
pub enum FinishFault {
    #[error("no fragment was added")]
    Empty,
    /// The least place of the whole payload that no fragment covers.
    #[error("no fragment covers place {place}")]
    Gap { place: u64 },
    #[error("the bundle would have more bytes than a bundle may have")]
    TooLong,
    #[error("out of memory")]
    NoMemory,
}

impl From<NoMemory> for FinishFault {
    ghost use Rattle.bp_fragments.specs.declared.fault.FinishFault.{FinishFault};

    ghost from_gives = { λ _ fault. fault ≡ FinishFault.NoMemory };

    fn from(_error: NoMemory) -> FinishFault {
        FinishFault::NoMemory
    }
}
