//! Calls of `bpsec_node`.

use crate::sessions::{Last, begin, close, done_in_all, run_all, step_at, verdicts};
use crate::words::{put_look, put_op, put_outcome, put_rule, put_shown};
use bp_bundle::Bundle;
use bpsec_context::Suite;
use bpsec_node::{BeginFault, Chooser, Digits, Session};
use bpsec_policy::{KeyRing, Policy};
use std::alloc::Global;
use worked_readers::{policy_of, ring_of, shown, text_of};
use worked_tables::{Fields, Told, Trouble, answer, text};
use worked_values::{bundle_of, key_of, suite};

pub fn told(alloc: Global, call: &str, row: &mut Fields) -> Told {
    match call {
        "begin" => answer(begun(alloc, &suite(), row)),
        "session" => answer(ended_in_orders(alloc, &suite(), row)),
        "steps" => answer(by_hand(alloc, &suite(), row)),
        _ => Ok(None),
    }
}

/// `begin POLICY BUNDLE`: that a session over it is begun, or what stands in its way.
fn begun<S: Suite>(alloc: Global, suite: &S, row: &mut Fields) -> Result<String, Trouble> {
    let policy = policy_of(alloc, row)?;
    let bundle = bundle_of(alloc, row)?;
    match begin(alloc, bundle, &policy, suite) {
        Ok(_session) => text(alloc, "begun"),
        Err(BeginFault::NoMemory) => Err(Trouble::NoMemory),
        Err(fault) => shown(alloc, &fault),
    }
}

/// A bundle at a node: what is known there, and what came.
#[derive(Drop)]
struct Arrival {
    policy: Policy,
    ring: KeyRing,
    bundle: Bundle,
}

/// Policy, ring and bundle of the next fields.
fn arrived(alloc: Global, row: &mut Fields) -> Result<Arrival, Trouble> {
    Ok(Arrival {
        policy: policy_of(alloc, row)?,
        ring: ring_of(alloc, row)?,
        bundle: bundle_of(alloc, row)?,
    })
}

/// The end of a session over a copy of the bundle by such a chooser, in words.
fn ended_by<S: Suite, C: Chooser>(
    alloc: Global,
    suite: &S,
    arrival: &Arrival,
    chooser: &mut C,
) -> Result<String, Trouble> {
    let bundle = arrival.bundle.copy(alloc)?;
    let Ok(session) = begin(alloc, bundle, &arrival.policy, suite) else {
        return Err(Trouble::Row("a session"));
    };
    let outcome = run_all(session, &arrival.ring, chooser)?;
    let mut out = String::new(alloc);
    put_outcome(alloc, &outcome, &mut out)?;
    Ok(out)
}

/// `session POLICY RING BUNDLE ORDERS`: the events and the bundle at the end, if they are the same where the last ready
/// operation is picked each time, and in each of the orders from 0 on, so many.
fn ended_in_orders<S: Suite>(
    alloc: Global,
    suite: &S,
    row: &mut Fields,
) -> Result<String, Trouble> {
    let arrival = arrived(alloc, row)?;
    let orders = row.number()?;
    let last = ended_by(alloc, suite, &arrival, &mut Last)?;
    for order in 0..orders {
        let other = ended_by(alloc, suite, &arrival, &mut Digits::new(order))?;
        if other.as_str() != last.as_str() {
            let order = shown(alloc, &order)?;
            return text_of(alloc, &["order ", order.as_str(), " changes the outcome"]);
        }
    }
    Ok(last)
}

/// Adds the end of a session in which nothing is ready: its operations with their verdicts, its events and its bundle.
fn put_end<S: Suite>(
    alloc: Global,
    session: Session<'_, S>,
    out: &mut String,
) -> Result<(), Trouble> {
    let outcome = close(session)?;
    out.push_str("done")?;
    for (op, verdict) in done_in_all(&outcome).iter().zip(verdicts(&outcome)) {
        put_op(alloc, *op, out)?;
        put_shown(alloc, " ", verdict, out)?;
    }
    out.push_str("; ")?;
    put_outcome(alloc, &outcome, out)
}

/// Does the step of the next fields, and adds what the session shows before it.
fn step_of_row<S: Suite>(
    alloc: Global,
    session: &mut Session<'_, S>,
    row: &mut Fields,
    out: &mut String,
) -> Result<(), Trouble> {
    let index = row.number()? as usize;
    let key = key_of(alloc, row)?;
    put_look(alloc, session, out)?;
    put_rule(session, index, out)?;
    let verdict = step_at(session, index, &key)?;
    put_shown(alloc, " is ", &verdict, out)?;
    out.push_str("; ")?;
    Ok(())
}

/// Does the steps of the fields that are left.
fn steps_of_row<S: Suite>(
    alloc: Global,
    session: &mut Session<'_, S>,
    row: &mut Fields,
    out: &mut String,
) -> Result<(), Trouble> {
    for _ in 0..100 {
        if row.is_over() {
            break;
        }
        step_of_row(alloc, session, row, out)?;
    }
    Ok(())
}

/// `steps POLICY BUNDLE STEPS`: what a session shows before each step, and the end. A step is the index of an operation among
/// those that are ready, and a key.
fn by_hand<S: Suite>(alloc: Global, suite: &S, row: &mut Fields) -> Result<String, Trouble> {
    let policy = policy_of(alloc, row)?;
    let bundle = bundle_of(alloc, row)?;
    let Ok(mut session) = begin(alloc, bundle, &policy, suite) else {
        return Err(Trouble::Row("a session"));
    };
    let mut out = String::new(alloc);
    steps_of_row(alloc, &mut session, row, &mut out)?;
    put_end(alloc, session, &mut out)?;
    Ok(out)
}
