//! The report of `node`: the operations in the order in which they were done, the events, and the result.

ghost use Rattle.std.specs.Prelude.{◌≡◌, ◌++◌, IfOk, OnOk, string_bytes};
ghost use Rattle.std.specs.List.{flat_map};
ghost use Rattle.std.specs.Option.{option_copied};
ghost use Rattle.bpsec_policy.specs.Words as words;
ghost use Rattle.bpsec_jobs.specs.NodeReport.{block_text, done_line, ended, event_line};
ghost use Rattle.bpsec_jobs.specs.NodeReport.{order_line, order_lines, report_of, result_line, verdict_text};
ghost use Rattle.bpsec_answer.specs.Riders.{NoFault, NoOutput, NotEarly};

use bp_bundle::Bundle;
use bpsec_answer::{Answer, Status};
use bpsec_asb::{OpId, Service};
use bpsec_node::{Event, Outcome, Verdict};
use bpsec_policy::Action;
use cbor_profile::{Bytes, NoMemory};
use std::alloc::Global;

/// The word of a verdict, with the number of its reason.
fn verdict_text(alloc: Global, verdict: Verdict) -> Result<String, NoMemory>
    ensures { IfOk result (λ text. string_bytes text ≡ verdict_text verdict) }
{
    match verdict {
        Verdict::NotOurs => Ok(String::from_str(alloc, "not-ours")?),
        Verdict::Blocked => Ok(String::from_str(alloc, "blocked")?),
        Verdict::Passed => Ok(String::from_str(alloc, "passed")?),
        Verdict::Failed => Ok(String::from_str(alloc, "failed")?),
        Verdict::Misset(reason) => {
            let number = reason.number();
            Ok(format!(in alloc; "misset-{number}")?)
        }
        Verdict::Conflict => Ok(String::from_str(alloc, "conflict")?),
        Verdict::Missing => Ok(String::from_str(alloc, "missing")?),
        Verdict::Broken(reason) => {
            let number = reason.number();
            Ok(format!(in alloc; "broken-{number}")?)
        }
    }
}

fn service_word(service: Service) -> &'static str
    ensures { result.now ≡ words.service_word service }
{
    match service {
        Service::Bib => "bib",
        Service::Bcb => "bcb",
    }
}

fn action_word(action: Action) -> &'static str
    ensures { result.now ≡ words.action_word action }
{
    match action {
        Action::Keep => "keep",
        Action::Remove => "remove",
        Action::Discard => "discard",
    }
}

/// An operation that was done, with the verdict of its step.
#[tactic(auto, unfolding(crate::specs::NodeReport::order_line))]
fn order_line(alloc: Global, op: OpId, verdict: Verdict) -> Result<String, NoMemory>
    ensures { IfOk result (λ line. string_bytes line ≡ order_line op verdict) }
{
    let service = service_word(op.service);
    let (block, target) = (op.block, op.target);
    let verdict = verdict_text(alloc, verdict)?;
    let verdict = verdict.as_str();
    Ok(format!(in alloc; "order {service} {block} {target} {verdict}\n")?)
}

/// Appends the lines of the operations that were done.
fn put_orders(
    alloc: Global,
    done: &[OpId],
    verdicts: &[Verdict],
    out: &mut Bytes,
) -> Result<(), NoMemory>
    ensures { OnOk result (out.new ≡ out.old ++ order_lines done.now verdicts.now) }
{
    let [op, done @ ..] = done else {
        return Ok(());
    };
    let [verdict, verdicts @ ..] = verdicts else {
        return Ok(());
    };
    out.extend(order_line(alloc, *op, *verdict)?.as_str().as_bytes())?;
    put_orders(alloc, done, verdicts, out)
}

/// The number of a block, or a dash.
fn block_text(alloc: Global, number: u64) -> Result<String, NoMemory>
    ensures { IfOk result (λ text. string_bytes text ≡ block_text number) }
{
    if number == 0 {
        return Ok(String::from_str(alloc, "-")?);
    }
    Ok(format!(in alloc; "{number}")?)
}

/// Appends the line of an event.
#[tactic(auto, unfolding(crate::specs::NodeReport::event_line))]
fn put_event(alloc: Global, event: &Event, out: &mut Bytes) -> Result<(), NoMemory>
    ensures { OnOk result (out.new ≡ out.old ++ event_line event.now) }
{
    let target = event.target;
    let service = service_word(event.service);
    let block = block_text(alloc, event.block)?;
    let block = block.as_str();
    let verdict = verdict_text(alloc, event.verdict)?;
    let verdict = verdict.as_str();
    let action = action_word(event.action);
    let front = format!(in alloc; "event {target} {service} {block} {verdict} ")?;
    let back = format!(in alloc; " {action}\n")?;
    out.extend(front.as_str().as_bytes())?;
    out.extend(event.rule.as_slice())?;
    out.extend(back.as_str().as_bytes())
}

/// Appends the lines of events.
fn put_events(alloc: Global, events: &[Event], out: &mut Bytes) -> Result<(), NoMemory>
    ensures { OnOk result (out.new ≡ out.old ++ flat_map event_line events.now) }
{
    for event in events {
        put_event(alloc, event, out)?;
    }
    Ok(())
}

/// The line of a resulting bundle.
fn done_line(alloc: Global, bytes: u64, blocks: usize) -> Result<String, NoMemory>
    ensures { IfOk result (λ line. string_bytes line ≡ done_line bytes blocks) }
{
    Ok(format!(in alloc; "result done bytes={bytes} blocks={blocks}\n")?)
}

/// The line of the result.
fn result_line(alloc: Global, bundle: Option<&Bundle>) -> Result<String, NoMemory>
    ensures { IfOk result (λ line. string_bytes line ≡ result_line (option_copied bundle.entry)) }
{
    match bundle {
        Some(bundle) => done_line(alloc, bundle.size(), bundle.blocks().len()),
        None => Ok(String::from_str(alloc, "result discarded\n")?),
    }
}

/// The report.
pub fn report_of(alloc: Global, outcome: &Outcome) -> Result<Bytes, NoMemory>
    ensures { IfOk result (λ report. report ≡ report_of outcome.now) }
{
    let mut report = Bytes::new(alloc);
    put_orders(alloc, outcome.done(), outcome.verdicts(), &mut report)?;
    put_events(alloc, outcome.events(), &mut report)?;
    report.extend(result_line(alloc, outcome.bundle())?.as_str().as_bytes())?;
    Ok(report)
}

/// The answer at the end of a session.
pub fn ended(alloc: Global, outcome: &Outcome) -> Result<Answer, NoMemory>
    ensures is { IfOk result (λ answer. answer ≡ ended outcome.now) }
    ensures no_fault { NoFault result }
    ensures not_early { NotEarly result }
    ensures no_output { NoOutput result }
{
    let report = report_of(alloc, outcome)?;
    let mut out = Bytes::new(alloc);
    match outcome.bundle() {
        Some(bundle) => {
            bundle.encode(&mut out)?;
            Ok(Answer {
                status: Status::Done,
                out,
                report,
            })
        }
        None => Ok(Answer {
            status: Status::Discarded,
            out,
            report,
        }),
    }
}
