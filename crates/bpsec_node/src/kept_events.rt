//! The end of a session from what it keeps: events.

ghost use Rattle.std.specs.Prelude.{◌≡◌, ◌==◌, ◌&&◌, ◌++◌, map, filter, fold, is_some, IfOk, OnOk};
ghost use Rattle.std.specs.Option.{option_copied};
ghost use Rattle.std.specs.List.{flat_map};
ghost use Rattle.std.specs.BTreeSet.{insert_key};
ghost use Rattle.bpsec_asb.specs.declared.operation.Service.TheVariants.{Bib, Bcb};
ghost use Rattle.bpsec_policy.specs.Rules.{same_service};
ghost use Rattle.bpsec_node.specs.Plain.{is_acceptor};
ghost use Rattle.bpsec_node.specs.Events.{join, least_action, is_floored, is_no_target, with_floor, action_by, applies, has_operation, place_cmp, place_of, op_at, reason_by};
ghost use Rattle.bpsec_node.specs.Finished.{requirement_in, is_missing_in, fault_of, broken_place, missing_place, places_in, action_in, operation_event_in, broken_event_in, missing_event_in, event_in, events_in};
ghost use Rattle.bpsec_node.specs.Seen.{seen};

use crate::actions::{
    action_by, applies, is_acceptor, is_floored, is_no_target, join, least_action, with_floor,
};
use crate::event::{Event, Verdict};
use crate::kept::Kept;
use crate::lists::{find_held, has, is_among};
use crate::place::Place;
use crate::site::find_block;
use bp_blocks::Block;
use bp_eid::Eid;
use bpsec_asb::{OpId, Service};
use bpsec_context::MissetReason;
use bpsec_policy::{Action, Requirement, Role, Rule, TargetKind, same_service};
use cbor_profile::{Bytes, Fault, List, NoMemory, Reason};
use std::alloc::Global;
use std::collections::BTreeSet;

/// Whether the operation is of the service and on the block with this number.
fn stands_on(op: OpId, number: u64, service: Service) -> bool
    ensures { result ≡ (op.target == number && same_service op.service service) }
{
    op.target == number && same_service(op.service, service)
}

fn has_operation(ops: &[OpId], number: u64, service: Service) -> bool
    ensures { result ≡ has_operation ops.now number service }
{
    ops.iter().any(|op| stands_on(*op, number, service))
}

// ---- places

fn place_of(op: OpId) -> Place
    ensures { result ≡ place_of op }
{
    Place {
        target: op.target,
        service: op.service,
        block: op.block,
    }
}

fn op_at(place: &Place) -> OpId
    ensures { result ≡ op_at place.now }
{
    OpId {
        service: place.service,
        block: place.block,
        target: place.target,
    }
}

/// Adds the places of operations.
fn add_places(ops: &[OpId], places: &mut BTreeSet<Place>) -> Result<(), NoMemory>
    ensures { OnOk result (places.new.keys
        ≡ fold (insert_key place_cmp) places.old.keys (map place_of ops.now)) }
{
    for op in ops {
        places.insert(place_of(*op))?;
    }
    Ok(())
}

/// These places as a list.
fn listed(alloc: Global, places: BTreeSet<Place>) -> Result<List<Place>, NoMemory>
    ensures { IfOk result (λ list. list ≡ places.keys) }
{
    Ok(List::of(places.into_iter().collect(alloc)?))
}

fn reason_of(fault: Option<Fault>) -> Verdict
    ensures { result ≡ reason_by fault }
{
    match fault {
        Some(fault) => Verdict::Broken(fault.reason),
        None => Verdict::Broken(Reason::NotBundle),
    }
}

impl<'k> Kept<'k> {
    /// The first requirement that applies to a block and a service.
    #[tactic(auto, unfolding(crate::specs::Finished::requirement_in))]
    fn requirement(&self, number: u64, service: Service) -> Option<&'k Requirement>
        ensures { option_copied result ≡ requirement_in (seen self.now) number service }
    {
        let kind = self.kind(number);
        let source = &self.primary.source;
        self.policy
            .requirements()
            .iter()
            .find(|r| applies(kind, service, source, r))
    }

    /// Whether a requirement applies to a block and a service, and no operation meets it.
    #[tactic(auto, unfolding(crate::specs::Finished::is_missing_in))]
    fn is_missing(&self, number: u64, service: Service) -> bool
        ensures { result ≡ is_missing_in (seen self.now) number service }
    {
        self.requirement(number, service).is_some() && !has_operation(self.done, number, service)
    }

    /// The fault of an integrity block that was read.
    fn fault(&self, block: &Block) -> Option<Fault>
        ensures { result ≡ fault_of (seen self.now) block.now }
    {
        if block.kind != 11 || has(self.stuck, block.number) {
            return None;
        }
        match find_held(self.held, block.number) {
            Some(held) => match &held.read {
                Ok(_) => None,
                Err(fault) => Some(*fault),
            },
            None => None,
        }
    }

    /// Adds the places of integrity blocks that couldn't be read.
    fn add_broken(&self, places: &mut BTreeSet<Place>) -> Result<(), NoMemory>
        ensures { OnOk result (places.new.keys ≡ fold (insert_key place_cmp) places.old.keys
            (map broken_place (filter (λ block. is_some (fault_of (seen self.now) block))
            self.now.blocks.now))) }
    {
        for block in self.blocks {
            if self.fault(block).is_some() {
                places.insert(Place {
                    target: block.number,
                    service: Service::Bib,
                    block: block.number,
                })?;
            }
        }
        Ok(())
    }

    /// Adds the place of an operation that is missing.
    fn add_missing(
        &self,
        number: u64,
        service: Service,
        places: &mut BTreeSet<Place>,
    ) -> Result<(), NoMemory>
        ensures { OnOk result (places.new.keys
            ≡ fold (insert_key place_cmp) places.old.keys
            (missing_place (seen self.now) number service)) }
    {
        if self.is_missing(number, service) {
            places.insert(Place {
                target: number,
                service,
                block: 0,
            })?;
        }
        Ok(())
    }

    /// Adds the places of the operations that a block lacks.
    fn add_missing_at(&self, number: u64, places: &mut BTreeSet<Place>) -> Result<(), NoMemory>
        ensures { OnOk result (places.new.keys ≡ fold (insert_key place_cmp) places.old.keys
            (missing_place (seen self.now) number Bib
            ++ missing_place (seen self.now) number Bcb)) }
    {
        self.add_missing(number, Service::Bib, places)?;
        self.add_missing(number, Service::Bcb, places)
    }

    /// Adds the places of the operations that the canonical blocks lack.
    fn add_all_missing(&self, places: &mut BTreeSet<Place>) -> Result<(), NoMemory>
        ensures { OnOk result (places.new.keys ≡ fold (insert_key place_cmp) places.old.keys
            (flat_map (λ number. missing_place (seen self.now) number Bib
            ++ missing_place (seen self.now) number Bcb)
            (map (λ block. block.number) self.now.blocks.now))) }
    {
        for block in self.blocks {
            self.add_missing_at(block.number, places)?;
        }
        Ok(())
    }

    /// Where there are events.
    #[tactic(auto, unfolding(crate::specs::Finished::places_in))]
    fn places(&self, alloc: Global) -> Result<BTreeSet<Place>, NoMemory>
        ensures { IfOk result (λ places. places.keys ≡ places_in (seen self.now)) }
    {
        let mut places = BTreeSet::new(alloc);
        add_places(self.done, &mut places)?;
        self.add_broken(&mut places)?;
        self.add_missing_at(0, &mut places)?;
        self.add_all_missing(&mut places)?;
        Ok(places)
    }

    /// The action of a verdict on an operation.
    #[tactic(auto, unfolding(crate::specs::Finished::action_in))]
    pub fn action(&self, op: OpId, verdict: Verdict) -> Action
        ensures { result ≡ action_in (seen self.now) op verdict }
    {
        action_by(
            self.rule(op),
            is_floored(self.role(op), op.service),
            op.target,
            verdict,
        )
    }

    /// The event of an operation.
    #[tactic(auto, unfolding(crate::specs::Finished::operation_event_in))]
    fn operation_event(&self, alloc: Global, op: OpId) -> Result<Event, NoMemory>
        ensures { IfOk result (λ event. event ≡ operation_event_in (seen self.now) op) }
    {
        let verdict = self.verdict(op);
        Ok(Event {
            target: op.target,
            service: op.service,
            block: op.block,
            verdict,
            rule: self.rule(op).name.copy(alloc)?,
            action: self.action(op, verdict),
        })
    }

    /// The event of an integrity block that couldn't be read.
    #[tactic(auto, unfolding(crate::specs::Finished::broken_event_in))]
    fn broken_event(&self, alloc: Global, place: &Place) -> Result<Event, NoMemory>
        ensures { IfOk result (λ event. event ≡ broken_event_in (seen self.now) place.now) }
    {
        let fault = match find_block(self.blocks, place.block) {
            Some(block) => self.fault(block),
            None => None,
        };
        Ok(Event {
            target: place.target,
            service: place.service,
            block: place.block,
            verdict: reason_of(fault),
            rule: Bytes::of(Vec::from_slice(alloc, b"broken")?),
            action: self.policy.broken(),
        })
    }

    /// The event of a missing operation.
    #[tactic(auto, unfolding(crate::specs::Finished::missing_event_in))]
    fn missing_event(&self, alloc: Global, place: &Place) -> Result<Event, NoMemory>
        ensures { IfOk result (λ event. event ≡ missing_event_in (seen self.now) place.now) }
    {
        let (rule, action) = match self.requirement(place.target, place.service) {
            Some(requirement) => (requirement.name.copy(alloc)?, requirement.missing),
            None => (Bytes::new(alloc), Action::Keep),
        };
        Ok(Event {
            target: place.target,
            service: place.service,
            block: place.block,
            verdict: Verdict::Missing,
            rule,
            action,
        })
    }

    /// The event at a place.
    #[tactic(auto, unfolding(crate::specs::Finished::event_in))]
    fn event(&self, alloc: Global, place: &Place) -> Result<Event, NoMemory>
        ensures { IfOk result (λ event. event ≡ event_in (seen self.now) place.now) }
    {
        if place.block == 0 {
            return self.missing_event(alloc, place);
        }
        let op = op_at(place);
        if is_among(self.done, op) {
            return self.operation_event(alloc, op);
        }
        self.broken_event(alloc, place)
    }

    /// The events at these places.
    fn events_at(&self, alloc: Global, places: &[Place]) -> Result<List<Event>, NoMemory>
        ensures { IfOk result (λ events. events ≡ map (event_in (seen self.now)) places.now) }
    {
        let mut events = List::new(alloc);
        for place in places {
            events.append(self.event(alloc, place)?)?;
        }
        Ok(events)
    }

    /// All events, in the order of target, service, block.
    #[tactic(auto, unfolding(crate::specs::Finished::events_in))]
    pub fn events(&self, alloc: Global) -> Result<List<Event>, NoMemory>
        ensures { IfOk result (λ events. events ≡ events_in (seen self.now)) }
    {
        let places = listed(alloc, self.places(alloc)?)?;
        self.events_at(alloc, places.items())
    }
}
