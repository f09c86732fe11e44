//! Sessions that run to their end.

ghost use Rattle.std.specs.Prelude.{◌≡◌, ◌≤◌, ◌<◌, IfOk, IfErr, OnOk, OnErr, length};
ghost use Rattle.std.specs.Option.{option_copied};
ghost use Rattle.bp_bundle.specs.Spelling.{IsBundle};
ghost use Rattle.bpsec_context.specs.Calls.{IsShort};
ghost use Rattle.bpsec_node.specs.Situation.{meaning};
ghost use Rattle.bpsec_node.specs.Order.{ready, Legal};
ghost use Rattle.bpsec_node.specs.Ring.{key_named};
ghost use Rattle.bpsec_node.specs.Running.{Stepped, Ran, Ended};
ghost use Rattle.bpsec_node.specs.View.{situation};

use crate::chooser::Chooser;
use crate::outcome::Outcome;
use crate::session::Session;
use bpsec_context::Suite;
use bpsec_policy::{KeyRing, Rule};
use cbor_profile::NoMemory;

/// The key that a rule names in the ring.
fn key_of<'k>(ring: &'k KeyRing, rule: &Rule) -> Option<&'k [u8]>
    ensures means { option_copied result ≡ key_named ring.now rule.now.key }
    ensures short { IsShort (option_copied result) }
{
    let _keys = ring.keys();
    match &rule.key {
        Some(name) => ring.key(name.as_slice()),
        None => None,
    }
}

impl<'a, S: Suite> Session<'a, S> {
    /// What each session keeps: a key for each operation that is done, and at most 4,096 of them.
    fn counted(&self)
        ensures keyed { length self.now.keys ≡ length self.now.done }
        ensures few { length self.now.done ≤ 4096 }
        ensures shape { IsBundle self.now.received }
        ensures legal { Legal (situation (meaning S.scope S.judged S.checked S.opened) self.now)
            self.now.done }
    {
        let _done = &self.done;
    }

    /// Does the operation that the chooser picks, with the key that its rule names in the ring.
    fn step_by<C: Chooser>(&mut self, ring: &KeyRing, chooser: &mut C) -> Result<(), NoMemory>
        requires { 1 ≤ length (ready (situation (meaning S.scope S.judged S.checked S.opened)
            self.old) self.old.done) }
        ensures ok { OnOk result (Stepped C.answer (meaning S.scope S.judged S.checked S.opened)
            ring.now self.old self.new chooser.old) }
        ensures next { chooser.new ≡ C.after chooser.old
            (length (ready (situation (meaning S.scope S.judged S.checked S.opened) self.old)
            self.old.done)) }
        ensures err { OnErr result (self.new ≡ self.old) }
    {
        let index = chooser.pick(self.ready_len());
        let op = self.ready_at(index);
        let key = key_of(ring, self.rule_at(op));
        self.step(op, key)?;
        Ok(())
    }

    /// Picks operations and does them until nothing is ready, each with the key that its rule names in the ring, and ends the
    /// session. Want of memory hands the session back, with the steps done so far.
    pub fn run_all<C: Chooser>(
        mut self,
        ring: &KeyRing,
        chooser: &mut C,
    ) -> Result<Outcome, (Session<'a, S>, NoMemory)>
        ensures ok { IfOk result (Ended C.answer C.after
            (meaning S.scope S.judged S.checked S.opened) ring.now self.entry chooser.old) }
        ensures err { IfErr result (λ back.
            Ran C.answer C.after (meaning S.scope S.judged S.checked S.opened) ring.now self.entry
            back.0 chooser.old) }
    {
        self.counted();
        'steps: while self.ready_len() > 0 {
            match self.step_by(ring, chooser) {
                Ok(()) => {}
                Err(error) => return Err((self, error)),
            }
            self.counted();
        }
        self.close()
    }
}
