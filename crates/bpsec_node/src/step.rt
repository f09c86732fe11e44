//! Steps of a session.

ghost use Rattle.std.specs.Prelude.{◌≡◌, ◌&&◌, ◌==◌, ◌++◌, Some, Ok, IsTrue, IsFalse, IfSome, IfOk, OnOk, OnErr, Contains, is_some, option_map, option_to_list};
ghost use Rattle.std.specs.Option.{option_copied};
ghost use Rattle.bpsec_asb.specs.declared.operation.Service.TheVariants.{Bcb};
ghost use Rattle.bpsec_context.specs.Calls.{IsShort};
ghost use Rattle.bpsec_node.specs.Situation.{meaning};
ghost use Rattle.bpsec_node.specs.Site.{block_at, site};
ghost use Rattle.bpsec_node.specs.Verdict.{rule, step_verdict};
ghost use Rattle.bpsec_node.specs.Order.{ready, shown};
ghost use Rattle.bpsec_node.specs.View.{situation, after_step};
ghost use Rattle.bpsec_node.specs.Over.{site_in, IsRead, IsSmall};
ghost use Rattle.bpsec_node.specs.Session.{has, find_held, is_covering};
ghost use Rattle.bp_bundle.specs.Spelling.{IsBundle};
ghost use Rattle.bpsec_node.specs.Lists.{without_op, without_number, new_ops, ready_among};
ghost use Rattle.bpsec_node.specs.Change.{is_readable, held_after, stuck_after, opened_bundle};

use crate::event::Verdict;
use crate::held::{Held, read_held};
use crate::lists::{
    find_held, has, keep, note, numbers_with, numbers_without, open_after, ready_among, take_op,
};
use crate::over::{Opening, Over};
use crate::session::Session;
use crate::site::find_block;
use bp_blocks::Block;
use bp_bundle::Bundle;
use bp_primary::Primary;
use bpsec_asb::{OpId, Service};
use bpsec_context::Suite;
use bpsec_policy::Rule;
use cbor_profile::{Bytes, List, NoMemory};
use std::alloc::Global;

/// A key again.
fn copied_key(alloc: Global, key: Option<&[u8]>) -> Result<Option<Bytes>, NoMemory>
    ensures { IfOk result (λ copy. copy ≡ option_copied key.entry) }
{
    match key {
        Some(key) => Ok(Some(Bytes::of(Vec::from_slice(alloc, key)?))),
        None => Ok(None),
    }
}

/// An operation over these blocks, if its security block is there and could be read.
fn over<'b>(
    primary: &'b Primary,
    blocks: &'b [Block],
    held: &'b [Held],
    op: OpId,
) -> Option<Over<'b>>
    ensures site { IfSome result (λ over. site_in over
        ≡ record {
          primary = primary.now;
          security = block_at blocks.now op.block;
          target = block_at blocks.now op.target;
        }) }
    ensures op { IfSome result (λ over. over.op ≡ op) }
    ensures read { IfSome result (λ over. option_map (λ h. h.read) (find_held held.now op.block)
        ≡ Some (Ok over.asb.now)) }
    ensures exact { is_some result
        ≡ (is_some (block_at blocks.now op.block) && is_readable (find_held held.now op.block)) }
{
    let security = match find_block(blocks, op.block) {
        Some(block) => block,
        None => return None,
    };
    match find_held(held, op.block) {
        Some(Held { read: Ok(asb), .. }) => Some(Over {
            op,
            primary,
            security,
            asb,
            target: find_block(blocks, op.target),
        }),
        _ => None,
    }
}

/// What a confidentiality operation changes in what a session keeps.
#[derive(Drop)]
struct Change {
    held: Option<Held>,
    sealed: List<u64>,
    stuck: List<u64>,
    ops: List<OpId>,
    ready: List<OpId>,
}

/// Reads an integrity block that was opened.
fn revealed(
    alloc: Global,
    kind: u64,
    number: u64,
    body: &Option<Bytes>,
) -> Result<Option<Held>, NoMemory>
    ensures { IfOk result (λ held. held ≡ held_after kind number body.now) }
{
    match body {
        Some(body) if kind == 11 => match read_held(alloc, number, body.as_slice()) {
            Ok(held) => Ok(Some(held)),
            Err(error) => Err(error),
        },
        _ => Ok(None),
    }
}

/// The number of a block that wasn't opened.
fn stuck_number(number: u64, body: &Option<Bytes>) -> Option<u64>
    ensures { result ≡ stuck_after number body.now }
{
    match body {
        Some(_) => None,
        None => Some(number),
    }
}

/// These numbers again without one.
fn unsealed(alloc: Global, numbers: &[u64], number: u64) -> Result<List<u64>, NoMemory>
    ensures { IfOk result (λ after. after ≡ without_number number numbers.now) }
{
    Ok(List::of(numbers_without(Vec::from_slice(alloc, numbers)?, number)))
}

/// What an operation changes whose target is a block of this kind, and now has this body where it was opened.
fn change_by(
    alloc: Global,
    kind: u64,
    op: OpId,
    body: &Option<Bytes>,
    sealed: &[u64],
    stuck: &[u64],
    ops: &[OpId],
) -> Result<Change, NoMemory>
    ensures held { IfOk result (λ c. c.held ≡ held_after kind op.target body.now) }
    ensures sealed { IfOk result (λ c. c.sealed ≡ without_number op.target sealed.now) }
    ensures stuck { IfOk result (λ c. c.stuck
        ≡ stuck.now ++ option_to_list (stuck_after op.target body.now)) }
    ensures ops { IfOk result (λ c. c.ops
        ≡ without_op op ops.now ++ new_ops (held_after kind op.target body.now)) }
    ensures ready { IfOk result (λ c. c.ready ≡ ready_among (without_number op.target sealed.now)
        (without_op op ops.now ++ new_ops (held_after kind op.target body.now))) }
{
    let held = revealed(alloc, kind, op.target, body)?;
    let sealed = unsealed(alloc, sealed, op.target)?;
    let stuck = numbers_with(alloc, stuck, stuck_number(op.target, body))?;
    let ops = open_after(alloc, ops, op, &held)?;
    let ready = ready_among(alloc, sealed.items(), ops.items())?;
    Ok(Change {
        held,
        sealed,
        stuck,
        ops,
        ready,
    })
}

/// Gives the block with this number the opened body, where it was opened.
fn put_opened(bundle: &mut Bundle, number: u64, body: Option<Bytes>)
    requires shape { IsBundle bundle.old }
    requires small { IsBundle (opened_bundle number body bundle.old) }
    ensures { bundle.new ≡ opened_bundle number body bundle.old }
{
    if let Some(body) = body {
        if let Some(index) = bundle.index_of(number) {
            let _old = bundle.replace_body(index, body);
        }
    }
}

impl<'a, S: Suite> Session<'a, S> {
    /// An operation that is ready, over the blocks as they are shown.
    fn over(&self, op: OpId) -> Over<'_>
        requires { Contains (ready (situation (meaning S.scope S.judged S.checked S.opened)
            self.now) self.now.done) op }
        ensures site { site_in result ≡ site
            (shown (situation (meaning S.scope S.judged S.checked S.opened) self.now) self.now.done)
            op }
        ensures op { result.op ≡ op }
        ensures read { IsRead result }
        ensures small { IsSmall result }
    {
        match over(
            self.shown.primary(),
            self.shown.blocks(),
            self.held.items(),
            op,
        ) {
            Some(over) => over,
            None => unreachable!(),
        }
    }

    /// The rule of an operation that is ready. Its `key` is the name of the key to hand in. Takes no memory.
    pub fn rule_at(&self, op: OpId) -> &Rule
        requires { Contains (ready (situation (meaning S.scope S.judged S.checked S.opened)
            self.now) self.now.done) op }
        ensures { result.now ≡ rule (situation (meaning S.scope S.judged S.checked S.opened)
            self.now) op }
    {
        self.over(op).rule(self.policy)
    }

    /// Does an operation that covers no block.
    fn step_other(
        &mut self,
        op: OpId,
        key: Option<&[u8]>,
        kept: Option<Bytes>,
    ) -> Result<Verdict, NoMemory>
        requires ready { Contains (ready
            (situation (meaning S.scope S.judged S.checked S.opened) self.old) self.old.done) op }
        requires key { IsShort (option_copied key) }
        requires kept { kept ≡ option_copied key }
        requires other { IsFalse (is_covering
            (situation (meaning S.scope S.judged S.checked S.opened) self.old) self.old.done op) }
        ensures ok { OnOk result (self.new ≡ after_step self.old op (option_copied key.entry)) }
        ensures means { IfOk result (λ v. v
            ≡ step_verdict (situation (meaning S.scope S.judged S.checked S.opened) self.new) op) }
        ensures err { OnErr result (self.new ≡ self.old) }
    {
        let blocked = has(self.stuck.items(), op.target);
        let verdict = self.over(op).verdict(self.suite, self.policy, blocked, key);
        note(
            &mut self.done,
            &mut self.keys,
            &mut self.verdicts,
            op,
            kept,
            verdict,
        )?;
        take_op(self.alloc, &mut self.open, op);
        take_op(self.alloc, &mut self.ready, op);
        Ok(verdict)
    }

    /// Does a confidentiality operation that covers a block.
    fn step_covering(
        &mut self,
        op: OpId,
        key: Option<&[u8]>,
        kept: Option<Bytes>,
    ) -> Result<Verdict, NoMemory>
        requires ready { Contains (ready
            (situation (meaning S.scope S.judged S.checked S.opened) self.old) self.old.done) op }
        requires key { IsShort (option_copied key) }
        requires kept { kept ≡ option_copied key }
        requires covering { IsTrue (is_covering
            (situation (meaning S.scope S.judged S.checked S.opened) self.old) self.old.done op) }
        ensures ok { OnOk result (self.new ≡ after_step self.old op (option_copied key.entry)) }
        ensures means { IfOk result (λ v. v
            ≡ step_verdict (situation (meaning S.scope S.judged S.checked S.opened) self.new) op) }
        ensures err { OnErr result (self.new ≡ self.old) }
    {
        let over = self.over(op);
        let kind = over.target_type();
        let Opening { verdict, body } = over.open(self.alloc, self.suite, self.policy, key)?;
        let Change {
            held,
            sealed,
            stuck,
            ops,
            ready,
        } = change_by(
            self.alloc,
            kind,
            op,
            &body,
            self.sealed.items(),
            self.stuck.items(),
            self.open.items(),
        )?;
        keep(
            &mut self.held,
            &mut self.done,
            &mut self.keys,
            &mut self.verdicts,
            held,
            op,
            kept,
            verdict,
        )?;
        put_opened(&mut self.shown, op.target, body);
        self.sealed = sealed;
        self.stuck = stuck;
        self.open = ops;
        self.ready = ready;
        Ok(verdict)
    }

    /// Whether a ready operation covers a block.
    fn is_covering(&self, op: OpId) -> bool
        ensures { result ≡ is_covering (situation (meaning S.scope S.judged S.checked S.opened)
            self.now) self.now.done op }
    {
        match op.service {
            Service::Bib => false,
            Service::Bcb => has(self.sealed.items(), op.target),
        }
    }

    /// Does an operation that is ready, with this key; with none as with a ring that lacks the key. Answers the verdict that the
    /// key and those before it give, which is never Conflict. Want of memory leaves the session as it was.
    pub fn step(&mut self, op: OpId, key: Option<&[u8]>) -> Result<Verdict, NoMemory>
        requires ready { Contains (ready
            (situation (meaning S.scope S.judged S.checked S.opened) self.old) self.old.done) op }
        requires key { IsShort (option_copied key) }
        ensures ok { OnOk result (self.new ≡ after_step self.old op (option_copied key.entry)) }
        ensures means { IfOk result (λ v. v
            ≡ step_verdict (situation (meaning S.scope S.judged S.checked S.opened) self.new) op) }
        ensures err { OnErr result (self.new ≡ self.old) }
    {
        let kept = copied_key(self.alloc, key)?;
        if self.is_covering(op) {
            self.step_covering(op, key, kept)
        } else {
            self.step_other(op, key, kept)
        }
    }
}
