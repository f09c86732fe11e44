//! Ids, check types and checks.

ghost use Rattle.std.specs.Prelude.{◌≡◌, ◌==◌};
ghost use Rattle.cbor_profile.specs.Step.{Stands, Gives};
ghost use Rattle.bp_bundle.specs.Step.{Fails, seen};
ghost use Rattle.bp_bundle.specs.FirstFault.{id_at, check_type_at, check_string_at, check_at};

use crate::at::At;
use crate::cursor::content;
use crate::token::{Token, argument};
use bp_crc::CheckKind;
use bp_eid::Eid;
use cbor_profile::{Fault, Reason, SpellError};
use std::alloc::Global;

/// An endpoint id.
#[tactic(auto, unfolding(crate::specs::FirstFault::id_at))]
pub(crate) fn id(alloc: Global, here: At<'_>) -> Result<(Eid, At<'_>), SpellError>
    ensures { Gives Fails (λ x. (x.0, seen x.1)) result (id_at (seen here.entry)) }
{
    match Eid::read(alloc, here.rest) {
        Ok(found) => Ok((found.eid, here.past(found.len))),
        Err(SpellError::Fault(fault)) => Err(SpellError::Fault(Fault {
            place: here.place + fault.place,
            reason: fault.reason,
        })),
        Err(error) => Err(error),
    }
}

/// A check type, in an array that has an item for the check, or has none.
#[tactic(auto, unfolding(crate::specs::FirstFault::check_type_at))]
pub(crate) fn check_type(checked: bool, here: At<'_>) -> Result<(CheckKind, At<'_>), Fault>
    ensures { Stands (λ x. (x.0, seen x.1)) result (check_type_at checked (seen here.entry)) }
{
    let (number, after) = argument(&[], Token::CheckType { checked }, here)?;
    Ok((CheckKind::of_number(number), after))
}

/// A byte string with just these bytes.
#[tactic(auto, unfolding(crate::specs::FirstFault::check_string_at))]
fn check_string<'a>(kind: CheckKind, expected: &[u8], here: At<'a>) -> Result<At<'a>, Fault>
    ensures { Stands seen result (check_string_at kind expected.now (seen here.entry)) }
{
    let (len, after) = argument(&[], Token::CheckString { kind }, here)?;
    let (found, end) = content(len, after)?;
    if found != expected {
        return Err(after.fault(Reason::WrongCheck));
    }
    Ok(end)
}

/// The check of a block, where it has one: just these bytes.
#[tactic(auto, unfolding(crate::specs::FirstFault::check_at))]
pub(crate) fn check<'a>(kind: CheckKind, expected: &[u8], here: At<'a>) -> Result<At<'a>, Fault>
    ensures { Stands seen result (check_at kind expected.now (seen here.entry)) }
{
    match kind {
        CheckKind::None => Ok(here),
        CheckKind::Crc16 | CheckKind::Crc32c => check_string(kind, expected, here),
    }
}
