//! The bundle that a report is about, and the report.

ghost use Rattle.std.specs.Prelude.{◌≡◌, IfOk, is_none};
ghost use Rattle.bp_report.specs.Due.{subject_of, is_null, is_due, due_report};

use crate::bundle::report_bundle;
use crate::flags::{is_administrative, is_deleted, is_received};
use crate::status::status_of;
use bp_bundle::Bundle;
use bp_eid::Eid;
use bp_primary::Primary;
use bpsec_node::Outcome;
use cbor_profile::NoMemory;
use std::alloc::Global;

/// What a report needs of the bundle that it is about, and no copy of its payload: who hands the bundle to a session keeps this.
#[derive(Debug, Drop)]
pub struct Subject {
    /// Its primary block.
    pub primary: Primary,
    /// How many bytes its payload has. A report has this number where the bundle is a fragment.
    pub length: u64,
}

impl Subject {
    /// What a report needs of this bundle.
    pub fn of(alloc: Global, bundle: &Bundle) -> Result<Subject, NoMemory>
        ensures { IfOk result (λ subject. subject ≡ subject_of bundle.now) }
    {
        Ok(Subject {
            primary: bundle.primary().copy(alloc)?,
            length: bundle.payload().len() as u64,
        })
    }

    /// As `report_of`, of the bundle that this was taken of.
    #[tactic(auto, unfolding(crate::specs::Due::due_report))]
    pub fn report(
        &self,
        alloc: Global,
        node: &Eid,
        outcome: &Outcome,
        time: u64,
        sequence: u64,
    ) -> Result<Option<Bundle>, NoMemory>
        ensures { IfOk result (λ report. report ≡ due_report self.now node.now
            outcome.now.outcome.events (is_none outcome.now.outcome.bundle) time sequence) }
    {
        if !is_due(&self.primary, outcome.bundle().is_none()) {
            return Ok(None);
        }
        let status = status_of(alloc, self, outcome, time)?;
        let made = report_bundle(alloc, &self.primary, node, &status, time, sequence)?;
        Ok(Some(made))
    }
}

/// Whether it is the null id.
fn is_null(eid: &Eid) -> bool
    ensures { result ≡ is_null eid.now }
{
    match eid {
        Eid::Null => true,
        _ => false,
    }
}

/// Whether a report is due.
#[tactic(auto, unfolding(crate::specs::Due::is_due))]
fn is_due(primary: &Primary, discarded: bool) -> bool
    ensures { result ≡ is_due primary.now discarded }
{
    !is_administrative(primary.flags)
        && !is_null(&primary.report_to)
        && (is_received(primary.flags) || is_deleted(primary.flags, discarded))
}

/// The bundle of the status report that a node of this id makes of a received bundle and of its outcome there, or None exactly
/// where none is due (RFC 9171, sections 5.10, 5.13 and 6.2). `time` is the DTN time in milliseconds that assertions tell, and with
/// `sequence` the creation timestamp of the report's bundle.
pub fn report_of(
    alloc: Global,
    bundle: &Bundle,
    node: &Eid,
    outcome: &Outcome,
    time: u64,
    sequence: u64,
) -> Result<Option<Bundle>, NoMemory>
    ensures { IfOk result (λ report. report ≡ due_report (subject_of bundle.now) node.now
        outcome.now.outcome.events (is_none outcome.now.outcome.bundle) time sequence) }
{
    let subject = Subject::of(alloc, bundle)?;
    subject.report(alloc, node, outcome, time, sequence)
}
