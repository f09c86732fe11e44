//! Sessions.

ghost use Rattle.std.specs.Prelude.{◌≡◌, ◌<◌, Some, length, slice_get};
ghost use Rattle.bpsec_node.specs.Situation.{meaning};
ghost use Rattle.bpsec_node.specs.Order.{ready, Legal, shown};
ghost use Rattle.bpsec_node.specs.View.{situation};

use crate::event::Verdict;
use crate::held::Held;
use bp_bundle::Bundle;
use bpsec_asb::OpId;
use bpsec_context::Suite;
use bpsec_policy::{Policy, Rule};
use cbor_profile::{Bytes, List};
use std::alloc::Global;
use std::marker::Model;

/// A bundle at a node, whose security operations are done one after the other, in any order in which they are ready. A
/// contract sees the bundle as it was received, the policy, the operations that are done, and the key that was handed in for each.
#[derive(Drop)]
pub struct Session<'a, S: Suite> {
    pub(crate) alloc: Global,
    pub(crate) policy: &'a Policy,
    pub(crate) suite: &'a S,
    /// The bundle as it was received.
    pub(crate) received: Bundle,
    /// The same with the bodies opened so far.
    pub(crate) shown: Bundle,
    /// The security blocks read so far.
    pub(crate) held: List<Held>,
    /// The numbers of the blocks whose covering operation isn't done.
    pub(crate) sealed: List<u64>,
    /// The numbers of the blocks whose covering operation is done and didn't open them.
    pub(crate) stuck: List<u64>,
    /// The operations that are known so far and not done.
    pub(crate) open: List<OpId>,
    /// Those of them that are ready, in order.
    pub(crate) ready: List<OpId>,
    pub(crate) done: List<OpId>,
    pub(crate) keys: List<Option<Bytes>>,
    pub(crate) verdicts: List<Verdict>,
}

impl<'a, S: Suite> Model for Session<'a, S> {
    ghost use Rattle.bpsec_node.specs.Situation.{meaning};
    ghost use Rattle.bpsec_node.specs.View.{Progress};
    ghost use Rattle.bpsec_node.specs.Session.{IsSession};

    ghost Value = { Progress };

    ghost view = { λ s. record { received = s.received; policy = s.policy.now; done = s.done; keys = s.keys } };

    ghost invariant = { λ s. IsSession (meaning S.scope S.judged S.checked S.opened)
        (record { received = s.received; policy = s.policy.now; done = s.done; keys = s.keys })
        s.shown s.held s.sealed s.stuck s.open s.ready s.verdicts };
}

impl<'a, S: Suite> Session<'a, S> {
    /// How many operations are ready. Takes no memory.
    pub fn ready_len(&self) -> usize
        ensures { result ≡ length (ready
            (situation (meaning S.scope S.judged S.checked S.opened) self.now) self.now.done) }
    {
        self.ready.items().len()
    }

    /// The operation at an index of those that are ready, in the order of service, block, target. Takes no memory.
    pub fn ready_at(&self, index: usize) -> OpId
        requires { index < length (ready
            (situation (meaning S.scope S.judged S.checked S.opened) self.now) self.now.done) }
        ensures { slice_get (ready (situation (meaning S.scope S.judged S.checked S.opened)
            self.now) self.now.done) index ≡ Some result }
    {
        self.ready.items()[index]
    }

    /// The received bundle with the bodies opened so far. Takes no memory.
    pub fn now(&self) -> &Bundle
        ensures { result.now ≡ shown (situation (meaning S.scope S.judged S.checked S.opened)
            self.now) self.now.done }
    {
        &self.shown
    }

    /// The operations that are done, in their order: each was ready when those before it were done. Takes no memory.
    pub fn done(&self) -> &[OpId]
        ensures means { result.now ≡ self.now.done }
        ensures legal { Legal (situation (meaning S.scope S.judged S.checked S.opened) self.now)
            self.now.done }
    {
        self.done.items()
    }
}
