//! Security blocks, read once.

ghost use Rattle.std.specs.Prelude.{◌≡◌, IfOk};
ghost use Rattle.bpsec_asb.specs.Reading.{read_body};

use bpsec_asb::Asb;
use cbor_profile::{Fault, NoMemory, SpellError};
use std::alloc::Global;

/// A security block that was read, or its first fault.
#[derive(Debug, Drop)]
pub(crate) struct Held {
    pub number: u64,
    pub read: Result<Asb, Fault>,
}

/// Reads the body of the security block with this number.
pub(crate) fn read_held(alloc: Global, number: u64, body: &[u8]) -> Result<Held, NoMemory>
    ensures { IfOk result (λ held. held ≡ record { number = number; read = read_body body.now }) }
{
    match Asb::read(alloc, body) {
        Ok(asb) => Ok(Held {
            number,
            read: Ok(asb),
        }),
        Err(SpellError::Fault(fault)) => Ok(Held {
            number,
            read: Err(fault),
        }),
        Err(SpellError::NoMemory) => Err(NoMemory::again()),
    }
}
