//! The end of a session from what it keeps: the blocks that remain.

ghost use Rattle.std.specs.Prelude.{◌≡◌, ◌==◌, ◌&&◌, ◌++◌, not, filter, IfOk, OnOk, option_to_list, slice_get};
ghost use Rattle.std.specs.Option.{option_copied};
ghost use Rattle.std.specs.List.{list_any};
ghost use Rattle.bpsec_asb.specs.Known.{operation};
ghost use Rattle.bpsec_node.specs.Outcome.{is_remove, is_discard, lacks_target, removes, is_removed, is_discarded, is_passed, results_without, without, with_targets};
ghost use Rattle.bpsec_node.specs.Session.{find_held};
ghost use Rattle.bpsec_node.specs.Finished.{kept_one, is_dropped_in, remaining_held, remaining_in, blocks_in};
ghost use Rattle.bpsec_node.specs.Seen.{seen};

use crate::actions::{is_acceptor, is_no_target};
use crate::event::{Event, Verdict};
use crate::kept::Kept;
use crate::lists::{find_held, has};
use bp_blocks::Block;
use bpsec_asb::{Asb, OpId, Pair, Service};
use bpsec_policy::Action;
use cbor_profile::{Bytes, List, NoMemory};
use std::alloc::Global;

fn is_remove(action: Action) -> bool
    ensures { result ≡ is_remove action }
{
    match action {
        Action::Remove => true,
        Action::Keep | Action::Discard => false,
    }
}

fn is_discard(action: Action) -> bool
    ensures { result ≡ is_discard action }
{
    match action {
        Action::Discard => true,
        Action::Keep | Action::Remove => false,
    }
}

fn lacks_target(verdict: Verdict) -> bool
    ensures { result ≡ lacks_target verdict }
{
    match verdict {
        Verdict::Misset(reason) => is_no_target(reason),
        _ => false,
    }
}

fn is_passed(verdict: Verdict) -> bool
    ensures { result ≡ is_passed verdict }
{
    match verdict {
        Verdict::Passed => true,
        _ => false,
    }
}

fn removes(event: &Event) -> bool
    ensures { result ≡ removes event.now }
{
    is_remove(event.action) && !lacks_target(event.verdict)
}

fn removes_at(event: &Event, number: u64) -> bool
    ensures { result ≡ (removes event.now && event.now.target == number) }
{
    removes(event) && event.target == number
}

/// Whether an event removes the block with this number.
#[tactic(auto, unfolding(crate::specs::Outcome::is_removed))]
fn is_removed(events: &[Event], number: u64) -> bool
    ensures { result ≡ is_removed events.now number }
{
    events.iter().any(|event| removes_at(event, number))
}

/// Whether an event discards the bundle.
fn discards(events: &[Event]) -> bool
    ensures { result ≡ list_any (λ event. is_discard event.action) events.now }
{
    events.iter().any(|event| is_discard(event.action))
}

/// Whether the bundle is discarded.
#[tactic(auto, unfolding(crate::specs::Outcome::is_discarded))]
pub(crate) fn is_discarded(events: &[Event]) -> bool
    ensures { result ≡ is_discarded events.now }
{
    discards(events) || is_removed(events, 0) || is_removed(events, 1)
}

/// The same pairs again.
fn copy_pairs(alloc: Global, pairs: &[Pair]) -> Result<List<Pair>, NoMemory>
    ensures { IfOk result (λ copy. copy ≡ pairs.now) }
{
    let mut copies = List::new(alloc);
    for pair in pairs {
        let copy = Pair {
            id: pair.id,
            value: pair.value.copy(alloc)?,
        };
        copies.append(copy)?;
    }
    Ok(copies)
}

/// The results at an index, if there are some.
fn results_at(results: &[List<Pair>], index: usize) -> Option<&List<Pair>>
    ensures { option_copied result ≡ slice_get results.now index }
{
    results.get(index)
}

/// Adds the same pairs again, where there are some.
fn add_copy(
    alloc: Global,
    pairs: Option<&List<Pair>>,
    kept: &mut List<List<Pair>>,
) -> Result<(), NoMemory>
    ensures { OnOk result (kept.new ≡ kept.old ++ option_to_list (option_copied pairs.entry)) }
{
    if let Some(pairs) = pairs {
        kept.append(copy_pairs(alloc, pairs.items())?)?;
    }
    Ok(())
}

/// The block with the body of that security block, unless no target is left.
fn with_targets(alloc: Global, block: &Block, asb: &Asb) -> Result<Option<Block>, NoMemory>
    ensures { IfOk result (λ left. option_to_list left
        ≡ with_targets block.now asb.now asb.now.targets) }
{
    if asb.targets.items().is_empty() {
        return Ok(None);
    }
    let mut body = Bytes::new(alloc);
    asb.put(&mut body)?;
    Ok(Some(Block {
        kind: block.kind,
        number: block.number,
        flags: block.flags,
        crc: block.crc,
        body,
    }))
}

impl<'k> Kept<'k> {
    /// Whether an operation is dropped, where these events came.
    #[tactic(auto, unfolding(crate::specs::Finished::is_dropped_in))]
    fn is_dropped(&self, events: &[Event], op: OpId) -> bool
        ensures { result ≡ is_dropped_in (seen self.now) events.now op }
    {
        let verdict = self.verdict(op);
        is_acceptor(self.role(op)) && is_passed(verdict)
            || lacks_target(verdict) && is_remove(self.action(op, verdict))
            || is_removed(events, op.target)
    }

    /// The targets of a security block whose operations aren't dropped.
    fn kept_targets(
        &self,
        alloc: Global,
        events: &[Event],
        service: Service,
        number: u64,
        targets: &[u64],
    ) -> Result<List<u64>, NoMemory>
        ensures { IfOk result (λ kept. kept
            ≡ filter (λ target. not (is_dropped_in (seen self.now) events.now
            (operation service number target))) targets.now) }
    {
        let mut kept = List::new(alloc);
        for target in targets {
            let op = OpId {
                service,
                block: number,
                target: *target,
            };
            if !self.is_dropped(events, op) {
                kept.append(*target)?;
            }
        }
        Ok(kept)
    }

    /// Adds the results of an operation that isn't dropped.
    fn add_kept(
        &self,
        alloc: Global,
        events: &[Event],
        op: OpId,
        results: Option<&List<Pair>>,
        kept: &mut List<List<Pair>>,
    ) -> Result<(), NoMemory>
        ensures { OnOk result (kept.new
            ≡ kept.old ++ kept_one (is_dropped_in (seen self.now) events.now op)
            (option_copied results.entry)) }
    {
        if self.is_dropped(events, op) {
            return Ok(());
        }
        add_copy(alloc, results, kept)
    }

    /// The results of the targets whose operations aren't dropped.
    #[tactic(auto, using(crate::proofs::KeptResults::results_more))]
    fn kept_results(
        &self,
        alloc: Global,
        events: &[Event],
        service: Service,
        number: u64,
        targets: &[u64],
        results: &[List<Pair>],
    ) -> Result<List<List<Pair>>, NoMemory>
        ensures { IfOk result (λ kept. kept
            ≡ results_without (λ target. is_dropped_in (seen self.now) events.now
            (operation service number target)) targets.now results.now) }
    {
        let mut kept = List::new(alloc);
        for (i, target) in targets.iter().enumerate() {
            let op = OpId {
                service,
                block: number,
                target: *target,
            };
            self.add_kept(alloc, events, op, results_at(results, i), &mut kept)?;
        }
        Ok(kept)
    }

    /// The security block without the operations that are dropped.
    #[tactic(auto, unfolding(crate::specs::Outcome::without))]
    fn without(
        &self,
        alloc: Global,
        events: &[Event],
        service: Service,
        number: u64,
        asb: &Asb,
    ) -> Result<Asb, NoMemory>
        ensures { IfOk result (λ left. left
            ≡ without (λ target. is_dropped_in (seen self.now) events.now
            (operation service number target)) asb.now) }
    {
        let targets = asb.targets.items();
        let results = asb.results.items();
        let mut left = asb.copy(alloc)?;
        left.targets = self.kept_targets(alloc, events, service, number, targets)?;
        left.results = self.kept_results(alloc, events, service, number, targets, results)?;
        Ok(left)
    }

    /// What remains of a security block.
    fn remaining_held(
        &self,
        alloc: Global,
        events: &[Event],
        block: &Block,
        service: Service,
    ) -> Result<Option<Block>, NoMemory>
        ensures { IfOk result (λ left. option_to_list left
            ≡ remaining_held (seen self.now) events.now block.now service
            (find_held self.now.held.now block.now.number)) }
    {
        match find_held(self.held, block.number) {
            Some(held) => match &held.read {
                Ok(asb) => {
                    let left = self.without(alloc, events, service, block.number, asb)?;
                    with_targets(alloc, block, &left)
                }
                Err(_) => Ok(Some(block.copy(alloc)?)),
            },
            None => Ok(Some(block.copy(alloc)?)),
        }
    }

    /// What remains of a block, where these events came.
    #[tactic(auto, unfolding(crate::specs::Finished::remaining_in))]
    fn remaining(
        &self,
        alloc: Global,
        events: &[Event],
        block: &Block,
    ) -> Result<Option<Block>, NoMemory>
        ensures { IfOk result (λ left. option_to_list left
            ≡ remaining_in (seen self.now) events.now block.now) }
    {
        if is_removed(events, block.number) {
            return Ok(None);
        }
        if block.kind == 11 && !has(self.stuck, block.number) {
            return self.remaining_held(alloc, events, block, Service::Bib);
        }
        if block.kind == 12 {
            return self.remaining_held(alloc, events, block, Service::Bcb);
        }
        Ok(Some(block.copy(alloc)?))
    }

    /// What remains of the blocks, where these events came.
    #[tactic(auto, unfolding(crate::specs::Finished::blocks_in))]
    pub fn remaining_blocks(&self, alloc: Global, events: &[Event]) -> Result<List<Block>, NoMemory>
        ensures { IfOk result (λ left. left ≡ blocks_in (seen self.now) events.now) }
    {
        let mut left = List::new(alloc);
        for block in self.blocks {
            if let Some(block) = self.remaining(alloc, events, block)? {
                left.append(block)?;
            }
        }
        Ok(left)
    }
}
