//! The end of a session from what it keeps: operations and their verdicts.

ghost use Rattle.std.specs.Prelude.{◌≡◌, ◌==◌, ◌&&◌, not};
ghost use Rattle.std.specs.Option.{option_copied};
ghost use Rattle.std.specs.List.{list_any, position};
ghost use Rattle.bpsec_node.specs.Situation.{is_op};
ghost use Rattle.bpsec_node.specs.Site.{block_at, kind_at};
ghost use Rattle.bpsec_node.specs.Session.{find_held};
ghost use Rattle.bpsec_node.specs.Verdict.{is_bib, in_conflict, has_no_role, is_forbidden};
ghost use Rattle.bpsec_node.specs.Finished.{read_by, rule_in, role_in, verdict_of_place, step_in, unless_conflict, verdict_in};
ghost use Rattle.bpsec_node.specs.Seen.{seen};

use crate::event::Verdict;
use crate::held::Held;
use crate::lists::{find_held, same_op};
use crate::site::{find_block, is_forbidden, kind_of};
use bp_blocks::Block;
use bp_eid::Eid;
use bp_primary::Primary;
use bpsec_asb::{Asb, OpId, Service};
use bpsec_policy::{Policy, Role, Rule, TargetKind};

/// What a session keeps, of which its end is made.
#[derive(Clone, Copy)]
pub(crate) struct Kept<'k> {
    pub primary: &'k Primary,
    pub policy: &'k Policy,
    /// The canonical blocks with the bodies that were opened.
    pub blocks: &'k [Block],
    /// The security blocks that were read.
    pub held: &'k [Held],
    /// The numbers of the blocks whose covering operation didn't open them.
    pub stuck: &'k [u64],
    pub done: &'k [OpId],
    pub verdicts: &'k [Verdict],
}

fn is_bib(service: Service) -> bool
    ensures { result ≡ is_bib service }
{
    match service {
        Service::Bib => true,
        Service::Bcb => false,
    }
}

/// Whether another operation is an integrity operation on the same target.
fn is_rival(op: OpId, other: OpId) -> bool
    ensures { result ≡ (is_bib other.service
        && (other.target == op.target && not (other.block == op.block))) }
{
    is_bib(other.service) && other.target == op.target && other.block != op.block
}

/// Whether one of these is an integrity operation on the same target.
fn has_rival(ops: &[OpId], op: OpId) -> bool
    ensures { result ≡ list_any (λ other. is_bib other.service
        && (other.target == op.target && not (other.block == op.block))) ops.now }
{
    ops.iter().any(|other| is_rival(op, *other))
}

/// Whether another integrity operation has the same target.
#[tactic(auto, unfolding(crate::specs::Verdict::in_conflict))]
fn in_conflict(ops: &[OpId], op: OpId) -> bool
    ensures { result ≡ in_conflict ops.now op }
{
    is_bib(op.service) && has_rival(ops, op)
}

/// Where the operation stands.
fn place_of(ops: &[OpId], op: OpId) -> Option<usize>
    ensures { result ≡ position (λ one. is_op one op) ops.now }
{
    ops.iter().position(|one| same_op(*one, op))
}

/// The verdict at a place.
fn verdict_at(place: Option<usize>, verdicts: &[Verdict]) -> Verdict
    ensures { result ≡ verdict_of_place place verdicts.now }
{
    match place {
        Some(place) => match verdicts.get(place) {
            Some(verdict) => *verdict,
            None => Verdict::NotOurs,
        },
        None => Verdict::NotOurs,
    }
}

/// The verdict of the step of an operation.
fn step_verdict(done: &[OpId], verdicts: &[Verdict], op: OpId) -> Verdict
    ensures { result ≡ step_in done.now verdicts.now op }
{
    verdict_at(place_of(done, op), verdicts)
}

/// Whether the node has no role.
fn has_no_role(role: Role) -> bool
    ensures { result ≡ has_no_role role }
{
    match role {
        Role::None => true,
        Role::Verifier | Role::Acceptor => false,
    }
}

/// The verdict with the line of conflicts, where the target is of this kind.
fn unless_conflict(
    kind: Option<TargetKind>,
    service: Service,
    conflict: bool,
    step: Verdict,
) -> Verdict
    ensures { result ≡ unless_conflict kind service conflict step }
{
    match kind {
        Some(kind) if !is_forbidden(service, kind) && conflict => Verdict::Conflict,
        _ => step,
    }
}

impl<'k> Kept<'k> {
    /// The security block with this number, if it could be read.
    fn asb(&self, number: u64) -> Option<&'k Asb>
        ensures { option_copied result ≡ read_by (find_held self.now.held.now number) }
    {
        match find_held(self.held, number) {
            Some(held) => match &held.read {
                Ok(asb) => Some(asb),
                Err(_) => None,
            },
            None => None,
        }
    }

    /// The kind of the block with this number.
    pub fn kind(&self, number: u64) -> Option<TargetKind>
        ensures { result ≡ kind_at number (block_at self.now.blocks.now number) }
    {
        kind_of(number, find_block(self.blocks, number))
    }

    /// The rule of an operation.
    #[tactic(auto, unfolding(crate::specs::Finished::rule_in))]
    pub fn rule(&self, op: OpId) -> &'k Rule
        ensures { result.now ≡ rule_in (seen self.now) op }
    {
        let kind = self.kind(op.target);
        match self.asb(op.block) {
            Some(asb) => self
                .policy
                .rule_for(op.service, &asb.source, asb.context, kind),
            None => self.policy.rule_for(op.service, &Eid::Null, 0, kind),
        }
    }

    /// The node's role in an operation.
    #[tactic(auto, unfolding(crate::specs::Finished::role_in))]
    pub fn role(&self, op: OpId) -> Role
        ensures { result ≡ role_in (seen self.now) op }
    {
        self.policy
            .role_at(self.rule(op), op.service, &self.primary.destination)
    }

    /// The verdict on an operation.
    #[tactic(auto, unfolding(crate::specs::Finished::verdict_in))]
    pub fn verdict(&self, op: OpId) -> Verdict
        ensures { result ≡ verdict_in (seen self.now) op }
    {
        let step = step_verdict(self.done, self.verdicts, op);
        if has_no_role(self.role(op)) {
            return step;
        }
        unless_conflict(
            self.kind(op.target),
            op.service,
            in_conflict(self.done, op),
            step,
        )
    }
}
