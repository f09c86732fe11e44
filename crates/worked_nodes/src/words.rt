//! Operations, events, sessions and outcomes in words.

use crate::sessions::{bundle, done, events, ready_at, ready_len, rule_at, shown_bundle};
use bp_bundle::Bundle;
use bpsec_asb::OpId;
use bpsec_context::Suite;
use bpsec_node::{Event, Outcome, Session};
use std::alloc::Global;
use std::fmt::Debug;
use worked_readers::shown;
use worked_tables::Trouble;
use worked_values::bundle_text;

/// Adds a value behind a text.
pub fn put_shown<T: Debug>(
    alloc: Global,
    front: &str,
    value: &T,
    out: &mut String,
) -> Result<(), Trouble> {
    out.push_str(front)?;
    out.push_str(shown(alloc, value)?.as_str())?;
    Ok(())
}

/// Adds a name behind a text.
fn put_name(front: &str, name: &[u8], out: &mut String) -> Result<(), Trouble> {
    out.push_str(front)?;
    out.push_str(std::str::from_utf8(name).unwrap_or("no text"))?;
    Ok(())
}

/// Adds an event in words.
fn put_event(alloc: Global, event: &Event, out: &mut String) -> Result<(), Trouble> {
    put_shown(alloc, "", &event.target, out)?;
    put_shown(alloc, " ", &event.service, out)?;
    put_shown(alloc, " ", &event.block, out)?;
    put_shown(alloc, " ", &event.verdict, out)?;
    put_name(" ", event.rule.as_slice(), out)?;
    put_shown(alloc, " ", &event.action, out)
}

/// Adds a bundle.
fn put_bundle(alloc: Global, bundle: &Bundle, out: &mut String) -> Result<(), Trouble> {
    out.push_str(bundle_text(alloc, bundle)?.as_str())?;
    Ok(())
}

/// Adds the events of an outcome, and its bundle.
pub fn put_outcome(alloc: Global, outcome: &Outcome, out: &mut String) -> Result<(), Trouble> {
    for event in events(outcome) {
        put_event(alloc, event, out)?;
        out.push_str("; ")?;
    }
    match bundle(outcome) {
        Some(bundle) => put_bundle(alloc, bundle, out),
        None => {
            out.push_str("discarded")?;
            Ok(())
        }
    }
}

/// Adds an operation.
pub fn put_op(alloc: Global, op: OpId, out: &mut String) -> Result<(), Trouble> {
    put_shown(alloc, " ", &op.service, out)?;
    put_shown(alloc, ".", &op.block, out)?;
    put_shown(alloc, ".", &op.target, out)
}

/// Adds the operations that are ready.
fn put_ready<S: Suite>(
    alloc: Global,
    session: &Session<'_, S>,
    out: &mut String,
) -> Result<(), Trouble> {
    out.push_str("ready")?;
    for index in 0..ready_len(session) {
        put_op(alloc, ready_at(session, index)?, out)?;
    }
    Ok(())
}

/// Adds what a session shows: what is ready, what is done, and the bundle.
pub fn put_look<S: Suite>(
    alloc: Global,
    session: &Session<'_, S>,
    out: &mut String,
) -> Result<(), Trouble> {
    put_ready(alloc, session, out)?;
    out.push_str(" done")?;
    for op in done(session) {
        put_op(alloc, *op, out)?;
    }
    out.push_str(" shown ")?;
    put_bundle(alloc, shown_bundle(session), out)
}

/// Adds the names of the rule of an operation and of its key.
pub fn put_rule<S: Suite>(
    session: &Session<'_, S>,
    index: usize,
    out: &mut String,
) -> Result<(), Trouble> {
    let rule = rule_at(session, index)?;
    put_name(" rule ", rule.name.as_slice(), out)?;
    match &rule.key {
        Some(key) => put_name(" key ", key.as_slice(), out),
        None => put_name(" key ", b"none", out),
    }
}
