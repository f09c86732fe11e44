//! The end of a session.

ghost use Rattle.std.specs.Prelude.{◌≡◌};
ghost use Rattle.std.specs.Option.{option_copied};

use crate::event::{Event, Verdict};
use bp_bundle::Bundle;
use bpsec_asb::OpId;
use cbor_profile::List;
use std::marker::Model;

/// What became of a bundle at a node. `Session::close` and `Session::run_all` alone make it. A contract sees it as events and bundle, what was
/// done, and the verdicts of the steps.
#[derive(Debug, Drop)]
pub struct Outcome {
    pub(crate) bundle: Option<Bundle>,
    pub(crate) events: List<Event>,
    pub(crate) done: List<OpId>,
    pub(crate) verdicts: List<Verdict>,
}

impl Model for Outcome {
    ghost use Rattle.bpsec_node.specs.View.{End};

    ghost Value = { End };

    ghost view = { λ o. record { outcome = record { events = o.events; bundle = o.bundle }; done = o.done; verdicts = o.verdicts } };
}

impl Outcome {
    /// The resulting bundle, or None where it is discarded. Takes no memory.
    pub fn bundle(&self) -> Option<&Bundle>
        ensures { option_copied result ≡ self.now.outcome.bundle }
    {
        self.bundle.as_ref()
    }

    /// All events, in the order of target, service (bib before bcb), block. Takes no memory.
    pub fn events(&self) -> &[Event]
        ensures { result.now ≡ self.now.outcome.events }
    {
        self.events.items()
    }

    /// The operations in the order in which they were done. Takes no memory.
    pub fn done(&self) -> &[OpId]
        ensures { result.now ≡ self.now.done }
    {
        self.done.items()
    }

    /// For each of these the verdict that its step gave. Takes no memory.
    pub fn verdicts(&self) -> &[Verdict]
        ensures { result.now ≡ self.now.verdicts }
    {
        self.verdicts.items()
    }
}
