//! Targets.

ghost use Rattle.std.specs.Prelude.{◌≡◌, Ok};
ghost use Rattle.cbor_profile.specs.Put.{uint};
ghost use Rattle.cbor_profile.specs.Step.{Stands};
ghost use Rattle.bpsec_asb.specs.Reading.{target_at};

use crate::part::Part;
use bp_eid::reading::{number, stops};
use bp_eid::{ReadError, Stop};
use cbor_profile::{Bytes, NoMemory, Reason, put_uint};
use std::alloc::Global;

/// A number that doesn't stand before.
#[tactic(auto, unfolding(crate::specs::Reading::target_at))]
fn target<'a>(before: &[u64], bytes: &'a [u8]) -> Result<(u64, &'a [u8]), Stop>
    ensures { Stands (λ x. (x.0, x.1.now)) result (target_at before.now bytes.now) }
{
    let (target, rest) = number(bytes)?;
    if before.contains(&target) {
        return Err(stops(bytes, Reason::Repeated));
    }
    Ok((target, rest))
}

impl Part for u64 {
    ghost spelled = { uint };

    ghost read_at = { target_at };

    fn put(&self, out: &mut Bytes) -> Result<(), NoMemory> {
        put_uint(out, *self)
    }

    fn copy(&self, _alloc: Global) -> Result<u64, NoMemory> {
        Ok(*self)
    }

    fn read<'a>(
        _alloc: Global,
        before: &[u64],
        bytes: &'a [u8],
    ) -> Result<(u64, &'a [u8]), ReadError> {
        Ok(target(before, bytes)?)
    }
}
