//! Sessions of `bpsec_node`, each call in a function of its own, so that what calls several of them keeps few facts.

ghost use Rattle.std.specs.Prelude.{◌-◌};

use bp_bundle::Bundle;
use bpsec_asb::OpId;
use bpsec_context::Suite;
use bpsec_node::{BeginFault, Chooser, Event, Outcome, Session, Verdict};
use bpsec_policy::{KeyRing, Policy, Rule};
use std::alloc::Global;
use worked_tables::Trouble;
use worked_values::handed;

/// Picks the last.
#[derive(Drop)]
pub struct Last;

impl Chooser for Last {
    ghost answer = { λ _ n. n - 1 };

    ghost after = { λ last _. last };

    fn pick(&mut self, n: usize) -> usize {
        n - 1
    }
}

/// A session over a bundle.
pub fn begin<'a, S: Suite>(
    alloc: Global,
    bundle: Bundle,
    policy: &'a Policy,
    suite: &'a S,
) -> Result<Session<'a, S>, BeginFault> {
    Session::begin(alloc, bundle, policy, suite)
}

/// How many operations are ready.
pub fn ready_len<S: Suite>(session: &Session<'_, S>) -> usize {
    session.ready_len()
}

/// The operation at an index of those that are ready.
pub fn ready_at<S: Suite>(session: &Session<'_, S>, index: usize) -> Result<OpId, Trouble> {
    if index >= session.ready_len() {
        return Err(Trouble::Row("a ready operation"));
    }
    Ok(session.ready_at(index))
}

/// The operations that are done.
pub fn done<'s, S: Suite>(session: &'s Session<'_, S>) -> &'s [OpId] {
    session.done()
}

/// The bundle as it is shown.
pub fn shown_bundle<'s, S: Suite>(session: &'s Session<'_, S>) -> &'s Bundle {
    session.now()
}

/// The rule of the operation at an index of those that are ready.
pub fn rule_at<'s, S: Suite>(
    session: &'s Session<'_, S>,
    index: usize,
) -> Result<&'s Rule, Trouble> {
    if index >= session.ready_len() {
        return Err(Trouble::Row("a ready operation"));
    }
    Ok(session.rule_at(session.ready_at(index)))
}

/// Does the operation at an index of those that are ready, with this key. Its verdict.
pub fn step_at<S: Suite>(
    session: &mut Session<'_, S>,
    index: usize,
    key: &Option<Vec<u8>>,
) -> Result<Verdict, Trouble> {
    if index >= session.ready_len() {
        return Err(Trouble::Row("a ready operation"));
    }
    let op = session.ready_at(index);
    match session.step(op, handed(key)) {
        Ok(verdict) => Ok(verdict),
        Err(_) => Err(Trouble::NoMemory),
    }
}

/// The end of a session in which nothing is ready.
pub fn close<S: Suite>(session: Session<'_, S>) -> Result<Outcome, Trouble> {
    if session.ready_len() > 0 {
        return Err(Trouble::Row("nothing that is ready"));
    }
    match session.close() {
        Ok(outcome) => Ok(outcome),
        Err(_) => Err(Trouble::NoMemory),
    }
}

/// The end of a session by such a chooser.
pub fn run_all<S: Suite, C: Chooser>(
    session: Session<'_, S>,
    ring: &KeyRing,
    chooser: &mut C,
) -> Result<Outcome, Trouble> {
    match session.run_all(ring, chooser) {
        Ok(outcome) => Ok(outcome),
        Err(_) => Err(Trouble::NoMemory),
    }
}

/// The events of an outcome.
pub fn events(outcome: &Outcome) -> &[Event] {
    outcome.events()
}

/// The bundle of an outcome, unless it is discarded.
pub fn bundle(outcome: &Outcome) -> Option<&Bundle> {
    outcome.bundle()
}

/// The operations of an outcome in their order.
pub fn done_in_all(outcome: &Outcome) -> &[OpId] {
    outcome.done()
}

/// For each of these its verdict.
pub fn verdicts(outcome: &Outcome) -> &[Verdict] {
    outcome.verdicts()
}
