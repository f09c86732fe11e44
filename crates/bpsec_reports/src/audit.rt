//! `audit`: the findings over a policy or a plan, and a key ring.

ghost use Rattle.std.specs.Prelude.{◌≡◌, ◌++◌, IfOk, OnOk, string_bytes};
ghost use Rattle.std.specs.List.{flat_map};
ghost use Rattle.bpsec_answer.specs.Lines.{line};
ghost use Rattle.bpsec_answer.specs.Riders.{NoFault, NoOutput};
ghost use Rattle.bpsec_reports.specs.Audited.{count_line, found, found_status, plan_audited, policy_audited};

use bpsec_answer::{Answer, Status};
use bpsec_audit::{plan_findings, policy_findings};
use bpsec_jobs::RingJob;
use bpsec_plan::Plan;
use bpsec_policy::{KeyRing, Policy};
use cbor_profile::{Bytes, List, NoMemory};
use std::alloc::Global;

/// Appends the line of a finding.
fn put_line(finding: &Bytes, out: &mut Bytes) -> Result<(), NoMemory>
    ensures { OnOk result (out.new ≡ out.old ++ line finding.now) }
{
    out.extend(finding.as_slice())?;
    out.extend(b"\n")
}

/// Appends a line for each finding.
fn put_lines(findings: &[Bytes], out: &mut Bytes) -> Result<(), NoMemory>
    ensures { OnOk result (out.new ≡ out.old ++ flat_map line findings.now) }
{
    for finding in findings {
        put_line(finding, out)?;
    }
    Ok(())
}

/// The line that counts findings.
fn count_line(alloc: Global, count: usize) -> Result<String, NoMemory>
    ensures { IfOk result (λ line. string_bytes line ≡ count_line count) }
{
    Ok(format!(in alloc; "findings={count}\n")?)
}

/// Whether something was found.
fn found_status(findings: &[Bytes]) -> Status
    ensures { result ≡ found_status findings.now }
{
    if findings.is_empty() {
        Status::Done
    } else {
        Status::Found
    }
}

/// The answer that tells findings.
fn found(alloc: Global, findings: &[Bytes]) -> Result<Answer, NoMemory>
    ensures is { IfOk result (λ answer. answer ≡ found findings.now) }
    ensures no_fault { NoFault result }
    ensures no_output { NoOutput result }
{
    let mut out = Bytes::new(alloc);
    put_lines(findings, &mut out)?;
    out.extend(count_line(alloc, findings.len())?.as_str().as_bytes())?;
    Ok(Answer {
        status: found_status(findings),
        out,
        report: Bytes::new(alloc),
    })
}

/// The job of `audit` on a policy.
#[derive(Clone, Copy)]
pub struct PolicyAudit;

impl RingJob for PolicyAudit {
    type Text = Policy;

    ghost answer_to = { λ _ policy ring. policy_audited policy ring };

    fn answer(&self, alloc: Global, policy: Policy, ring: KeyRing) -> Result<Answer, NoMemory> {
        let findings = policy_findings(alloc, &policy, &ring)?;
        found(alloc, findings.items())
    }
}

/// The job of `audit` on a plan.
#[derive(Clone, Copy)]
pub struct PlanAudit;

impl RingJob for PlanAudit {
    type Text = Plan;

    ghost answer_to = { λ _ items ring. plan_audited items ring };

    fn answer(&self, alloc: Global, plan: Plan, ring: KeyRing) -> Result<Answer, NoMemory> {
        let findings = plan_findings(alloc, &plan, &ring)?;
        found(alloc, findings.items())
    }
}
