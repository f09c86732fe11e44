//! `node`: what a node makes of the bundle.

ghost use Rattle.std.specs.Prelude.{◌≡◌, [], IfOk};
ghost use Rattle.bp_bundle.specs.Shape.{Contents};
ghost use Rattle.bpsec_node.specs.Ring.{at_node};
ghost use Rattle.bpsec_node.specs.Start.{IsFaultOf, begin_fault};
ghost use Rattle.bpsec_jobs.specs.NodeReport.{ended};
ghost use Rattle.bpsec_jobs.specs.Noded.{contexts, noded, picked_by, unless_begin_fault};
ghost use Rattle.bpsec_answer.specs.declared.answer.Answer.{Answer};
ghost use Rattle.bpsec_answer.specs.Riders.{NoFault, NoOutput, NotEarly};

use crate::job::KeyedJob;
use crate::node_report::ended;
use bp_bundle::Bundle;
use bpsec_answer::{Answer, Refused, Status, refusal};
use bpsec_cmac::{CmacSuite, cmac_suite};
use bpsec_node::{BeginFault, Digits, Outcome, Session};
use bpsec_policy::{KeyRing, Policy};
use cbor_profile::NoMemory;
use std::alloc::Global;

/// The job of `node`: the number by whose digits operations are picked.
#[derive(Clone, Copy)]
pub struct Node {
    pub order: u64,
}

/// The outcome of a session, all of whose operations are picked by the digits of a number.
pub fn outcome(
    session: Session<'_, CmacSuite>,
    ring: &KeyRing,
    order: u64,
) -> Result<Outcome, NoMemory>
    requires { session.done ≡ [] }
    ensures { IfOk result (λ outcome. outcome
        ≡ picked_by (at_node contexts session.entry.received session.entry.policy ring.now) order) }
{
    let mut digits = Digits::new(order);
    match session.run_all(ring, &mut digits) {
        Ok(outcome) => Ok(outcome),
        Err((_, error)) => Err(error),
    }
}

/// The answer at the end of a session, all of whose operations are picked by the digits of a number.
fn run(
    alloc: Global,
    session: Session<'_, CmacSuite>,
    ring: &KeyRing,
    order: u64,
) -> Result<Answer, NoMemory>
    requires { session.done ≡ [] }
    ensures is { IfOk result (λ answer. answer
        ≡ ended (picked_by
        (at_node contexts session.entry.received session.entry.policy ring.now) order)) }
    ensures no_fault { NoFault result }
    ensures not_early { NotEarly result }
    ensures no_output { NoOutput result }
{
    let outcome = outcome(session, ring, order)?;
    ended(alloc, &outcome)
}

/// The answer to a bundle that a node doesn't take, by what it has in the way.
pub fn begin_refused(alloc: Global, fault: BeginFault) -> Result<Answer, NoMemory>
    ensures is { (bundle : Contents) (other : Answer) → IsFaultOf bundle fault
        → IfOk result (λ answer. answer ≡ unless_begin_fault (begin_fault bundle) other) }
    ensures no_fault { NoFault result }
    ensures not_early { NotEarly result }
    ensures no_output { NoOutput result }
{
    match fault {
        BeginFault::IsFragment => refusal(alloc, Status::BundleRefused(Refused::Fragment)),
        BeginFault::BrokenBcb { block, fault } => {
            refusal(
                alloc,
                Status::BundleRefused(Refused::BrokenBcb { block, fault }),
            )
        }
        BeginFault::DoubleCipher {
            target,
            first,
            second,
        } => {
            let refused = Refused::DoubleCipher {
                target,
                first,
                second,
            };
            refusal(alloc, Status::BundleRefused(refused))
        }
        BeginFault::NoMemory => Err(NoMemory::again()),
    }
}

impl KeyedJob for Node {
    type Text = Policy;

    ghost answer_to = { λ job policy ring bundle. noded job.order policy ring bundle };

    fn answer(
        &self,
        alloc: Global,
        policy: Policy,
        ring: KeyRing,
        bundle: Bundle,
    ) -> Result<Answer, NoMemory> {
        let suite = cmac_suite();
        match Session::begin(alloc, bundle, &policy, &suite) {
            Ok(session) => run(alloc, session, &ring, self.order),
            Err(fault) => begin_refused(alloc, fault),
        }
    }
}
