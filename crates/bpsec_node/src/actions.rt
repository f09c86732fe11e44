//! Actions, and what a requirement applies to.

ghost use Rattle.std.specs.Prelude.{◌≡◌, ◌==◌, ◌&&◌};
ghost use Rattle.bpsec_asb.specs.declared.operation.Service.TheVariants.{Bib, Bcb};
ghost use Rattle.bpsec_policy.specs.Rules.{same_id, same_kind, same_service, allows};
ghost use Rattle.bpsec_node.specs.Plain.{is_acceptor};
ghost use Rattle.bpsec_node.specs.Events.{join, least_action, is_floored, is_no_target, with_floor, action_by, applies};

use crate::event::{Event, Verdict};
use crate::kept::Kept;
use crate::lists::{find_held, has, is_among};
use crate::place::Place;
use crate::site::find_block;
use bp_blocks::Block;
use bp_eid::Eid;
use bpsec_asb::{OpId, Service};
use bpsec_context::MissetReason;
use bpsec_policy::{Action, Requirement, Role, Rule, TargetKind, same_id, same_kind, same_service};
use cbor_profile::{Bytes, Fault, List, NoMemory, Reason};
use std::alloc::Global;
use std::collections::BTreeSet;

/// The greater of two actions.
pub(crate) fn join(one: Action, other: Action) -> Action
    ensures { result ≡ join one other }
{
    match (one, other) {
        (Action::Keep, other) => other,
        (Action::Remove, Action::Discard) | (Action::Discard, _) => Action::Discard,
        (Action::Remove, _) => Action::Remove,
    }
}

pub(crate) fn least_action(target: u64) -> Action
    ensures { result ≡ least_action target }
{
    if target == 1 {
        Action::Discard
    } else {
        Action::Remove
    }
}

pub(crate) fn is_acceptor(role: Role) -> bool
    ensures { result ≡ is_acceptor role }
{
    match role {
        Role::Acceptor => true,
        Role::Verifier | Role::None => false,
    }
}

pub(crate) fn is_floored(role: Role, service: Service) -> bool
    ensures { result ≡ is_floored role service }
{
    match service {
        Service::Bib => false,
        Service::Bcb => is_acceptor(role),
    }
}

pub(crate) fn is_no_target(reason: MissetReason) -> bool
    ensures { result ≡ is_no_target reason }
{
    match reason {
        MissetReason::NoTarget | MissetReason::TargetForbidden => true,
        _ => false,
    }
}

pub(crate) fn with_floor(floored: bool, target: u64, action: Action) -> Action
    ensures { result ≡ with_floor floored target action }
{
    if floored {
        join(least_action(target), action)
    } else {
        action
    }
}

/// The action of a verdict, under a rule.
pub(crate) fn action_by(rule: &Rule, floored: bool, target: u64, verdict: Verdict) -> Action
    ensures { result ≡ action_by rule.now floored target verdict }
{
    match verdict {
        Verdict::Failed => with_floor(floored, target, rule.failed),
        Verdict::Misset(reason) if is_no_target(reason) => rule.misset,
        Verdict::Misset(_) => with_floor(floored, target, rule.misset),
        Verdict::Conflict => rule.misset,
        _ => Action::Keep,
    }
}

// ---- requirements

pub(crate) fn allows(from: &Option<Eid>, source: &Eid) -> bool
    ensures { result ≡ allows from.now (same_id source.now) }
{
    match from {
        Some(from) => same_id(source, from),
        None => true,
    }
}

/// Whether the requirement is for such a block, service and source.
pub(crate) fn applies(
    kind: Option<TargetKind>,
    service: Service,
    source: &Eid,
    requirement: &Requirement,
) -> bool
    ensures { result ≡ applies kind service source.now requirement.now }
{
    match kind {
        Some(kind) => {
            same_kind(requirement.target, kind)
                && same_service(requirement.service, service)
                && allows(&requirement.from, source)
        }
        None => false,
    }
}
