//! What is reported of a bundle.

ghost use Rattle.std.specs.Prelude.{◌≡◌, IfOk, is_none};
ghost use Rattle.bp_report.specs.Due.{asserted, extent_of, status_of};

use crate::flags::{asks_for_times, is_deleted, is_received};
use crate::reason::reason_of;
use crate::subject::Subject;
use bp_primary::Piece;
use bp_status::{Assertion, Extent, Report};
use bpsec_node::Outcome;
use cbor_profile::NoMemory;
use std::alloc::Global;

/// An assertion, with the time where times are asked for.
fn asserted(made: bool, timed: bool, time: u64) -> Assertion
    ensures { result ≡ asserted made timed time }
{
    if !made {
        return Assertion::No;
    }
    if timed {
        Assertion::At(time)
    } else {
        Assertion::Yes
    }
}

/// Of a fragment where its payload begins, and how many bytes it has.
fn extent_of(piece: Option<Piece>, bytes: u64) -> Option<Extent>
    ensures { result ≡ extent_of piece bytes }
{
    match piece {
        Some(piece) => Some(Extent {
            offset: piece.offset,
            length: bytes,
        }),
        None => None,
    }
}

/// What is reported of a bundle with this outcome.
#[tactic(auto, unfolding(crate::specs::Due::status_of))]
pub(crate) fn status_of(
    alloc: Global,
    subject: &Subject,
    outcome: &Outcome,
    time: u64,
) -> Result<Report, NoMemory>
    ensures { IfOk result (λ report. report ≡ status_of subject.now
        outcome.now.outcome.events (is_none outcome.now.outcome.bundle) time) }
{
    let primary = &subject.primary;
    let timed = asks_for_times(primary.flags);
    let discarded = outcome.bundle().is_none();
    Ok(Report {
        received: asserted(is_received(primary.flags), timed, time),
        forwarded: Assertion::No,
        delivered: Assertion::No,
        deleted: asserted(is_deleted(primary.flags, discarded), timed, time),
        reason: reason_of(outcome).number(),
        source: primary.source.copy(alloc)?,
        created: primary.created,
        sequence: primary.sequence,
        piece: extent_of(primary.fragment, subject.length),
    })
}
