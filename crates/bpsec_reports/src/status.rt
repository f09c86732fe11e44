//! `status`: the status report that a node makes of the bundle.

ghost use Rattle.std.specs.Prelude.{◌≡◌, [], IfOk, string_bytes};
ghost use Rattle.std.specs.Option.{option_copied};
ghost use Rattle.bpsec_node.specs.Ring.{at_node};
ghost use Rattle.bpsec_jobs.specs.Noded.{contexts, picked_by};
ghost use Rattle.bpsec_answer.specs.Riders.{NoFault, NoOutput, NotEarly};
ghost use Rattle.bpsec_reports.specs.Reported.{due_line, reported, reported_end, sent, sent_line};

use bp_bundle::Bundle;
use bp_report::{Subject, reason_of};
use bpsec_answer::{Answer, Status};
use bpsec_cmac::{CmacSuite, cmac_suite};
use bpsec_jobs::{KeyedJob, begin_refused, outcome, report_of};
use bpsec_node::{Outcome, Session};
use bpsec_policy::{KeyRing, Policy};
use cbor_profile::{Bytes, NoMemory};
use std::alloc::Global;

/// The job of `status`: the number by whose digits operations are picked, the DTN time in milliseconds that the report
/// tells, and the sequence number of its creation timestamp.
#[derive(Clone, Copy)]
pub struct StatusReport {
    pub order: u64,
    pub time: u64,
    pub sequence: u64,
}

/// The line of a report that is due.
fn sent_line(alloc: Global, bytes: u64, reason: u64) -> Result<String, NoMemory>
    ensures { IfOk result (λ line. string_bytes line ≡ sent_line bytes reason) }
{
    Ok(format!(in alloc; "report bytes={bytes} reason={reason}\n")?)
}

/// The last line.
fn due_line(alloc: Global, outcome: &Outcome, due: Option<&Bundle>) -> Result<String, NoMemory>
    ensures { IfOk result (λ line. string_bytes line
        ≡ due_line outcome.now (option_copied due.entry)) }
{
    match due {
        Some(made) => sent_line(alloc, made.size(), reason_of(outcome).number()),
        None => Ok(String::from_str(alloc, "no report\n")?),
    }
}

/// The answer that sends a report, or none.
fn sent(alloc: Global, outcome: &Outcome, due: Option<&Bundle>) -> Result<Answer, NoMemory>
    ensures is { IfOk result (λ answer. answer ≡ sent outcome.now (option_copied due.entry)) }
    ensures no_fault { NoFault result }
    ensures not_early { NotEarly result }
    ensures no_output { NoOutput result }
{
    let mut report = report_of(alloc, outcome)?;
    report.extend(due_line(alloc, outcome, due)?.as_str().as_bytes())?;
    let mut out = Bytes::new(alloc);
    if let Some(made) = due {
        made.encode(&mut out)?;
    }
    Ok(Answer {
        status: Status::Done,
        out,
        report,
    })
}

/// The answer at the end of a session over the subject's bundle.
fn ended(
    alloc: Global,
    subject: &Subject,
    policy: &Policy,
    outcome: &Outcome,
    job: StatusReport,
) -> Result<Answer, NoMemory>
    ensures is { IfOk result (λ answer. answer
        ≡ reported_end subject.now policy.now.node job.time job.sequence outcome.now) }
    ensures no_fault { NoFault result }
    ensures not_early { NotEarly result }
    ensures no_output { NoOutput result }
{
    let due = subject.report(alloc, policy.node(), outcome, job.time, job.sequence)?;
    sent(alloc, outcome, due.as_ref())
}

/// The answer at the end of a session over the subject's bundle, all of whose operations are picked by the digits of a number.
fn run(
    alloc: Global,
    session: Session<'_, CmacSuite>,
    subject: &Subject,
    policy: &Policy,
    ring: &KeyRing,
    job: StatusReport,
) -> Result<Answer, NoMemory>
    requires { session.done ≡ [] }
    ensures is { IfOk result (λ answer. answer
        ≡ reported_end subject.now policy.now.node job.time job.sequence (picked_by
        (at_node contexts session.entry.received session.entry.policy ring.now) job.order)) }
    ensures no_fault { NoFault result }
    ensures not_early { NotEarly result }
    ensures no_output { NoOutput result }
{
    let outcome = outcome(session, ring, job.order)?;
    ended(alloc, subject, policy, &outcome, job)
}

impl KeyedJob for StatusReport {
    type Text = Policy;

    ghost answer_to = { λ job policy ring bundle.
        reported job.order job.time job.sequence policy ring bundle };

    fn answer(
        &self,
        alloc: Global,
        policy: Policy,
        ring: KeyRing,
        bundle: Bundle,
    ) -> Result<Answer, NoMemory> {
        let subject = Subject::of(alloc, &bundle)?;
        let suite = cmac_suite();
        match Session::begin(alloc, bundle, &policy, &suite) {
            Ok(session) => run(alloc, session, &subject, &policy, &ring, *self),
            Err(fault) => begin_refused(alloc, fault),
        }
    }
}
