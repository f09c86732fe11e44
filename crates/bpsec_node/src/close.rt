//! The end of a session.

ghost use Rattle.std.specs.Prelude.{◌≡◌, ℕ, ◌<◌, [], Some, None, slice_index, if◌then◌else◌, IfOk, IfErr, false};
ghost use Rattle.bp_bundle.specs.Spelling.{IsBundle};
ghost use Rattle.bpsec_asb.specs.Operations.{BodiesAreBytes};
ghost use Rattle.bpsec_node.specs.Situation.{meaning};
ghost use Rattle.bpsec_node.specs.Events.{events as events_of};
ghost use Rattle.bpsec_node.specs.Outcome.{is_discarded, outcome as outcome_of};
ghost use Rattle.bpsec_node.specs.Order.{ready};
ghost use Rattle.bpsec_node.specs.Finished.{blocks_in};
ghost use Rattle.bpsec_node.specs.Seen.{seen};
ghost use Rattle.bpsec_node.specs.View.{SameProgress, situation, end_of};

use crate::event::Event;
use crate::kept::Kept;
use crate::kept_blocks::is_discarded;
use crate::outcome::Outcome;
use crate::session::Session;
use bp_blocks::Block;
use bp_bundle::Bundle;
use bpsec_context::Suite;
use cbor_profile::{List, NoMemory};
use std::alloc::Global;

/// The bytes of a body are bytes.
fn are_bytes(body: &[u8])
    ensures { (i : ℕ) → slice_index body.now i < 256 }
{}

/// The bodies of blocks are made of bytes.
pub(crate) fn bodies_are_bytes(blocks: &[Block])
    ensures { BodiesAreBytes blocks.now }
{
    for block in blocks {
        are_bytes(block.body.as_slice());
    }
}

/// The resulting bundle, unless it is discarded.
fn resulting(alloc: Global, kept: &Kept, events: &[Event]) -> Result<Option<Bundle>, NoMemory>
    requires { is_discarded events.now ≡ false
        → IsBundle (record {
          primary = kept.now.primary.now;
          blocks = blocks_in (seen kept.now) events.now;
        }) }
    ensures { IfOk result (λ bundle. bundle
        ≡ (if is_discarded events.now then None else Some
        (record {
          primary = kept.now.primary.now;
          blocks = blocks_in (seen kept.now) events.now;
        }))) }
{
    if is_discarded(events) {
        return Ok(None);
    }
    let blocks = kept.remaining_blocks(alloc, events)?;
    let primary = kept.primary.copy(alloc)?;
    match Bundle::of(primary, blocks) {
        Ok(bundle) => Ok(Some(bundle)),
        Err(_) => unreachable!(),
    }
}

/// Events, and the resulting bundle unless it is discarded.
#[derive(Drop)]
struct Ending {
    bundle: Option<Bundle>,
    events: List<Event>,
}

impl<'a, S: Suite> Session<'a, S> {
    /// Events and bundle, where all operations are done.
    fn ending(&self) -> Result<Ending, NoMemory>
        requires { ready (situation (meaning S.scope S.judged S.checked S.opened) self.now)
            self.now.done ≡ [] }
        ensures events { IfOk result (λ e. e.events
            ≡ events_of (situation (meaning S.scope S.judged S.checked S.opened) self.now)) }
        ensures bundle { IfOk result (λ e. e.bundle
            ≡ (outcome_of (situation (meaning S.scope S.judged S.checked S.opened)
            self.now)).bundle) }
    {
        bodies_are_bytes(self.shown.blocks());
        let kept = Kept {
            primary: self.shown.primary(),
            policy: self.policy,
            blocks: self.shown.blocks(),
            held: self.held.items(),
            stuck: self.stuck.items(),
            done: self.done.items(),
            verdicts: self.verdicts.items(),
        };
        let events = kept.events(self.alloc)?;
        let bundle = resulting(self.alloc, &kept, events.items())?;
        Ok(Ending { bundle, events })
    }

    /// Ends a session in which nothing is ready. Want of memory hands it back as it was.
    pub fn close(self) -> Result<Outcome, (Session<'a, S>, NoMemory)>
        requires { ready (situation (meaning S.scope S.judged S.checked S.opened) self) self.done
            ≡ [] }
        ensures ok { IfOk result (λ end. end
            ≡ end_of (situation (meaning S.scope S.judged S.checked S.opened) self.entry)
            self.entry.done) }
        ensures err { IfErr result (λ back. SameProgress back.0 self.entry) }
    {
        match self.ending() {
            Ok(Ending { bundle, events }) => Ok(self.outcome(bundle, events)),
            Err(error) => Err((self, error)),
        }
    }

    /// The outcome with these events and this bundle.
    fn outcome(self, bundle: Option<Bundle>, events: List<Event>) -> Outcome
        requires events { events ≡ events_of
            (situation (meaning S.scope S.judged S.checked S.opened) self) }
        requires bundle { bundle ≡ (outcome_of
            (situation (meaning S.scope S.judged S.checked S.opened) self)).bundle }
        ensures { result ≡ end_of (situation (meaning S.scope S.judged S.checked S.opened)
            self.entry) self.entry.done }
    {
        let Session { done, verdicts, .. } = self;
        Outcome {
            bundle,
            events,
            done,
            verdicts,
        }
    }
}
