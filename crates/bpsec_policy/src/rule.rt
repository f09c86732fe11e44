//! Rules and requirements.

ghost use Rattle.std.specs.Prelude.{◌≡◌};
ghost use Rattle.std.specs.List.{list_any};
ghost use Rattle.std.specs.Ordering.{int_eq};
ghost use Rattle.bpsec_policy.specs.Rules.{same_service, same_id, same_node, same_kind, is_of_kinds, allows};

use bp_eid::Eid;
use bpsec_asb::Service;
use cbor_profile::{Bytes, List};

/// What is done with a target, from the mildest on.
#[derive(Clone, Copy, Debug, PartialEq, Eq)]
pub enum Action {
    Keep,
    Remove,
    Discard,
}

/// What the node is in an operation (RFC 9172, section 1.4).
#[derive(Clone, Copy, Debug, PartialEq, Eq)]
pub enum Role {
    Acceptor,
    Verifier,
    None,
}

/// What kind of block a target is.
#[derive(Clone, Copy, Debug, PartialEq, Eq)]
pub enum TargetKind {
    /// The primary block.
    Primary,
    /// A canonical block of this type.
    Kind(u64),
}

/// How operations are treated.
#[derive(Debug, Drop)]
pub struct Rule {
    /// 1 to 64 visible characters.
    pub name: Bytes,
    pub role: Role,
    /// The name of the key.
    pub key: Option<Bytes>,
    /// What is done where an operation fails.
    pub failed: Action,
    /// What is done where an operation isn't set up as it should be.
    pub misset: Action,
    /// The scope bits that an operation must have, 0 to 7.
    pub least_scope: Option<u64>,
}

/// Which operations a rule is for. An absent pattern matches every operation.
#[derive(Debug, Drop)]
pub struct Patterns {
    pub service: Option<Service>,
    /// The security source.
    pub source: Option<Eid>,
    /// An endpoint of the node of the security source.
    pub source_node: Option<Eid>,
    /// The id of the security context.
    pub context: Option<i64>,
    /// The kinds of target, 1 to 16. A target that isn't there is of none.
    pub targets: Option<List<TargetKind>>,
}

/// A rule with its patterns.
#[derive(Debug, Drop)]
pub struct RuleAt {
    pub patterns: Patterns,
    pub rule: Rule,
}

/// An operation that a bundle must have.
#[derive(Debug, Drop)]
pub struct Requirement {
    /// 1 to 64 visible characters.
    pub name: Bytes,
    /// The kind of its target.
    pub target: TargetKind,
    pub service: Service,
    /// The source node of the bundles that it is for; none is all bundles.
    pub from: Option<Eid>,
    /// What is done with a target that lacks it.
    pub missing: Action,
}

/// Whether the two services are one. Takes no memory.
pub fn same_service(one: Service, other: Service) -> bool
    ensures { result ≡ same_service one other }
{
    match (one, other) {
        (Service::Bib, Service::Bib) | (Service::Bcb, Service::Bcb) => true,
        _ => false,
    }
}

/// Whether the two ids are equal. Takes no memory.
pub fn same_id(one: &Eid, other: &Eid) -> bool
    ensures { result ≡ same_id one.now other.now }
{
    match (one, other) {
        (Eid::Null, Eid::Null) => true,
        (Eid::Dtn(text), Eid::Dtn(other)) => text.bytes() == other.bytes(),
        (
            Eid::Ipn { node, service },
            Eid::Ipn {
                node: other_node,
                service: other_service,
            },
        ) => node == other_node && service == other_service,
        _ => false,
    }
}

/// Whether the two ids are of one node. Takes no memory.
pub fn same_node(one: &Eid, other: &Eid) -> bool
    ensures { result ≡ same_node one.now other.now }
{
    one.same_node(other)
}

/// Whether the two kinds are one. Takes no memory.
pub fn same_kind(one: TargetKind, other: TargetKind) -> bool
    ensures { result ≡ same_kind one other }
{
    match (one, other) {
        (TargetKind::Primary, TargetKind::Primary) => true,
        (TargetKind::Kind(one), TargetKind::Kind(other)) => one == other,
        _ => false,
    }
}

/// Whether the kind is among these. Takes no memory.
pub fn is_among(kind: TargetKind, kinds: &[TargetKind]) -> bool
    ensures { result ≡ list_any (same_kind kind) kinds.now }
{
    kinds.iter().any(|other| same_kind(kind, *other))
}

/// Whether a target of this kind is of one of these. A target that isn't there is of none.
fn is_of_kinds(target: Option<TargetKind>, kinds: &[TargetKind]) -> bool
    ensures { result ≡ is_of_kinds target kinds.now }
{
    match target {
        Some(kind) => is_among(kind, kinds),
        None => false,
    }
}

/// Whether a pattern allows the service.
fn allows_service(wanted: Option<Service>, service: Service) -> bool
    ensures { result ≡ allows wanted (same_service service) }
{
    match wanted {
        Some(wanted) => same_service(service, wanted),
        None => true,
    }
}

/// Whether a pattern allows the security source.
fn allows_source(wanted: &Option<Eid>, source: &Eid) -> bool
    ensures { result ≡ allows wanted.now (same_id source.now) }
{
    match wanted {
        Some(wanted) => same_id(source, wanted),
        None => true,
    }
}

/// Whether a pattern allows the node of the security source.
fn allows_node(wanted: &Option<Eid>, source: &Eid) -> bool
    ensures { result ≡ allows wanted.now (same_node source.now) }
{
    match wanted {
        Some(wanted) => same_node(source, wanted),
        None => true,
    }
}

/// Whether a pattern allows the security context.
fn allows_context(wanted: Option<i64>, context: i64) -> bool
    ensures { result ≡ allows wanted (int_eq context) }
{
    match wanted {
        Some(wanted) => context == wanted,
        None => true,
    }
}

/// Whether a pattern allows a target of this kind.
fn allows_target(wanted: &Option<List<TargetKind>>, target: Option<TargetKind>) -> bool
    ensures { result ≡ allows wanted.now (is_of_kinds target) }
{
    match wanted {
        Some(wanted) => is_of_kinds(target, wanted.items()),
        None => true,
    }
}

impl Patterns {
    ghost use Rattle.bpsec_policy.specs.Rules.{matches};

    /// Whether all patterns match an operation. Takes no memory.
    #[tactic(auto, unfolding(crate::specs::Rules::matches))]
    pub(crate) fn matches(
        &self,
        service: Service,
        source: &Eid,
        context: i64,
        target: Option<TargetKind>,
    ) -> bool
        ensures { result ≡ matches self.now service source.now context target }
    {
        allows_service(self.service, service)
            && allows_source(&self.source, source)
            && allows_node(&self.source_node, source)
            && allows_context(self.context, context)
            && allows_target(&self.targets, target)
    }
}
