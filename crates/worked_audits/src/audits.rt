//! Calls of `bpsec_audit`.

use bpsec_audit::{plan_findings, policy_findings};
use bpsec_plan::Plan;
use cbor_profile::{Bytes, List};
use std::alloc::Global;
use worked_readers::{policy_of, ring_of};
use worked_tables::{Fields, Told, Trouble, answer};

pub fn told(alloc: Global, call: &str, row: &mut Fields) -> Told {
    match call {
        "audit-policy" => answer(of_policy(alloc, row)),
        "audit-plan" => answer(of_plan(alloc, row)),
        _ => Ok(None),
    }
}

/// How many findings there are, and their lines with strokes between.
fn findings_text(alloc: Global, lines: &List<Bytes>) -> Result<String, Trouble> {
    let count = lines.items().len();
    let mut out = format!(in alloc; "{count}")?;
    for line in lines.items() {
        out.push_str("|")?;
        out.push_str(std::str::from_utf8(line.as_slice()).unwrap_or("no text"))?;
    }
    Ok(out)
}

/// The plan of the next field.
fn plan_from(alloc: Global, row: &mut Fields) -> Result<Plan, Trouble> {
    match Plan::from_json(alloc, row.text()?.as_bytes()) {
        Ok(plan) => Ok(plan),
        Err(_) => Err(Trouble::Row("a plan")),
    }
}

/// `audit-policy POLICY RING`: the findings over both.
fn of_policy(alloc: Global, row: &mut Fields) -> Result<String, Trouble> {
    let policy = policy_of(alloc, row)?;
    let ring = ring_of(alloc, row)?;
    findings_text(alloc, &policy_findings(alloc, &policy, &ring)?)
}

/// `audit-plan PLAN RING`: the findings over both.
fn of_plan(alloc: Global, row: &mut Fields) -> Result<String, Trouble> {
    let plan = plan_from(alloc, row)?;
    let ring = ring_of(alloc, row)?;
    findings_text(alloc, &plan_findings(alloc, &plan, &ring)?)
}
