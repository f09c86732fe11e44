//! Reading a status report, token by token.

ghost use Rattle.std.specs.Prelude.{◌≡◌, Ok, IfOk};
ghost use Rattle.cbor_profile.specs.Step.{Stands, Gives};
ghost use Rattle.bp_status.specs.Step.{Fails};
ghost use Rattle.bp_status.specs.StatusReport.{Reads};
ghost use Rattle.bp_status.specs.Reading.{one_of_at, untimed_at, timed_at, assertion_at};
ghost use Rattle.bp_status.specs.Reading.{information_at, subject_at, extent_at, piece_at, report_at};
ghost use Rattle.bp_status.specs.Reading.{Answers, read_record};
ghost use Rattle.bp_status.specs.declared.report.Report.{Report};

use crate::parts::{Asserted, Subject};
use crate::report::{Assertion, Extent, Report};
use bp_eid::reading::{head, id, number, pair, stops};
use bp_eid::{ReadError, Stop};
use cbor_profile::{Reason, SpellError};
use std::alloc::Global;

/// A head of this major type with one of these arguments, else this reason.
#[tactic(auto, unfolding(crate::specs::Reading::one_of_at))]
fn one_of<'a>(
    kind: u8,
    arguments: &[u64],
    reason: Reason,
    bytes: &'a [u8],
) -> Result<(u64, &'a [u8]), Stop>
    ensures { Stands (λ x. (x.0, x.1.now)) result (one_of_at kind arguments.now reason bytes.now) }
{
    let (head, rest) = head(bytes, &[kind])?;
    if !arguments.contains(&head.value) {
        return Err(stops(bytes, reason));
    }
    Ok((head.value, rest))
}

/// What is asserted without a time: `false` or `true`.
#[tactic(auto, unfolding(crate::specs::Reading::untimed_at))]
fn untimed(bytes: &[u8]) -> Result<(Assertion, &[u8]), Stop>
    ensures { Stands (λ x. (x.0, x.1.now)) result (untimed_at bytes.now) }
{
    let (value, rest) = one_of(7, &[20, 21], Reason::WrongValue, bytes)?;
    if value == 21 {
        Ok((Assertion::Yes, rest))
    } else {
        Ok((Assertion::No, rest))
    }
}

/// What is asserted with a time: `true`, and the time.
#[tactic(auto, unfolding(crate::specs::Reading::timed_at))]
fn timed(bytes: &[u8]) -> Result<(Assertion, &[u8]), Stop>
    ensures { Stands (λ x. (x.0, x.1.now)) result (timed_at bytes.now) }
{
    let (_, rest) = one_of(7, &[21], Reason::WrongValue, bytes)?;
    let (time, rest) = number(rest)?;
    Ok((Assertion::At(time), rest))
}

/// An assertion.
#[tactic(auto, unfolding(crate::specs::Reading::assertion_at))]
fn assertion(bytes: &[u8]) -> Result<(Assertion, &[u8]), Stop>
    ensures { Stands (λ x. (x.0, x.1.now)) result (assertion_at bytes.now) }
{
    let (count, rest) = one_of(4, &[1, 2], Reason::WrongCount, bytes)?;
    if count == 1 {
        untimed(rest)
    } else {
        timed(rest)
    }
}

/// The status information.
#[tactic(auto, unfolding(crate::specs::Reading::information_at))]
fn information(bytes: &[u8]) -> Result<(Asserted, &[u8]), Stop>
    ensures { Stands (λ x. (x.0, x.1.now)) result (information_at bytes.now) }
{
    let (_, rest) = one_of(4, &[4], Reason::WrongCount, bytes)?;
    let (received, rest) = assertion(rest)?;
    let (forwarded, rest) = assertion(rest)?;
    let (delivered, rest) = assertion(rest)?;
    let (deleted, rest) = assertion(rest)?;
    let asserted = Asserted {
        received,
        forwarded,
        delivered,
        deleted,
    };
    Ok((asserted, rest))
}

/// What names the bundle: its source and its creation timestamp.
#[tactic(auto, unfolding(crate::specs::Reading::subject_at))]
fn subject_bundle(alloc: Global, bytes: &[u8]) -> Result<(Subject, &[u8]), ReadError>
    ensures { Gives Fails (λ x. (x.0, x.1.now)) result (subject_at bytes.now) }
{
    let (source, rest) = id(alloc, bytes)?;
    let rest = pair(rest)?;
    let (created, rest) = number(rest)?;
    let (sequence, rest) = number(rest)?;
    let subject = Subject {
        source,
        created,
        sequence,
    };
    Ok((subject, rest))
}

/// The offset and the length of a fragment.
#[tactic(auto, unfolding(crate::specs::Reading::extent_at))]
fn extent(bytes: &[u8]) -> Result<(Extent, &[u8]), Stop>
    ensures { Stands (λ x. (x.0, x.1.now)) result (extent_at bytes.now) }
{
    let (offset, rest) = number(bytes)?;
    let (length, rest) = number(rest)?;
    Ok((Extent { offset, length }, rest))
}

/// The extent, exactly where the content has six items.
#[tactic(auto, unfolding(crate::specs::Reading::piece_at))]
fn piece(count: u64, bytes: &[u8]) -> Result<(Option<Extent>, &[u8]), Stop>
    ensures { Stands (λ x. (x.0, x.1.now)) result (piece_at count bytes.now) }
{
    if count != 6 {
        return Ok((None, bytes));
    }
    let (extent, rest) = extent(bytes)?;
    Ok((Some(extent), rest))
}

/// A report at the front.
#[tactic(auto, unfolding(crate::specs::Reading::report_at))]
fn front(alloc: Global, bytes: &[u8]) -> Result<(Report, &[u8]), ReadError>
    ensures { Gives Fails (λ x. (x.0, x.1.now)) result (report_at bytes.now) }
{
    let rest = pair(bytes)?;
    let (_, rest) = one_of(0, &[1], Reason::WrongValue, rest)?;
    let (count, rest) = one_of(4, &[4, 6], Reason::WrongCount, rest)?;
    let (asserted, rest) = information(rest)?;
    let (reason, rest) = number(rest)?;
    let (subject, rest) = subject_bundle(alloc, rest)?;
    let (piece, rest) = piece(count, rest)?;
    let report = Report {
        received: asserted.received,
        forwarded: asserted.forwarded,
        delivered: asserted.delivered,
        deleted: asserted.deleted,
        reason,
        source: subject.source,
        created: subject.created,
        sequence: subject.sequence,
        piece,
    };
    Ok((report, rest))
}

/// The report that the record is.
#[tactic(auto, unfolding(crate::specs::Reading::read_record, crate::specs::Reading::body_at))]
fn whole(alloc: Global, body: &[u8]) -> Result<Report, SpellError>
    ensures { Answers result (read_record body.now) }
{
    let given = body.len();
    match front(alloc, body) {
        Ok((report, [])) => Ok(report),
        Ok((_, rest)) => Err(SpellError::Fault(stops(rest, Reason::Trailing).fault(given))),
        Err(ReadError::Stop(stop)) => Err(SpellError::Fault(stop.fault(given))),
        Err(ReadError::NoMemory) => Err(SpellError::NoMemory),
    }
}

impl Report {
    /// Reads an administrative record that is a bundle status report (RFC 9171, sections 6.1 and 6.1.1), all of it: the body
    /// of a payload block. A fault is the first that reading from the left meets. The source alone takes memory.
    pub fn read(alloc: Global, body: &[u8]) -> Result<Report, SpellError>
        // What is read is spelled so.
        ensures means { IfOk result (Reads body.now) }
        // What is spelled so is read.
        ensures found { (report : Report) → Reads body.now report → Answers result (Ok report) }
        // Which fault it is.
        ensures exact { Answers result (read_record body.now) }
    {
        whole(alloc, body)
    }
}
