//! Which operations a rule can match, beside those that the rules before it match.

ghost use Rattle.std.specs.Prelude.{◌≡◌};
ghost use Rattle.std.specs.List.{list_all, list_any};
ghost use Rattle.std.specs.Option.{option_copied, option_or};
ghost use Rattle.std.specs.Ordering.{int_eq};
ghost use Rattle.bpsec_policy.specs.Rules.{same_service, same_id, same_node, same_kind};
ghost use Rattle.bpsec_audit.specs.Reach.{is_within, are_among, is_wider, match_nothing, wider_before};

use bp_eid::Eid;
use bpsec_asb::Service;
use bpsec_policy::{Patterns, RuleAt, TargetKind, is_among, same_id, same_node, same_service};
use cbor_profile::List;

/// Whether what passes the own pattern passes the wide one.
fn is_service_within(wide: Option<Service>, own: Option<Service>) -> bool
    ensures { result ≡ is_within same_service wide own }
{
    match (wide, own) {
        (None, _) => true,
        (Some(_), None) => false,
        (Some(wide), Some(own)) => same_service(own, wide),
    }
}

fn is_source_within(wide: &Option<Eid>, own: &Option<Eid>) -> bool
    ensures { result ≡ is_within same_id wide.now own.now }
{
    match (wide, own) {
        (None, _) => true,
        (Some(_), None) => false,
        (Some(wide), Some(own)) => same_id(own, wide),
    }
}

/// The id whose node is the only one of which a source can be.
fn source_or_node(own: &Patterns) -> Option<&Eid>
    ensures { option_copied result ≡ option_or own.now.source own.now.source_node }
{
    match &own.source {
        Some(source) => Some(source),
        None => own.source_node.as_ref(),
    }
}

fn is_node_within(wide: &Option<Eid>, own: &Patterns) -> bool
    ensures { result ≡ is_within same_node wide.now (option_or own.now.source own.now.source_node) }
{
    match (wide, source_or_node(own)) {
        (None, _) => true,
        (Some(_), None) => false,
        (Some(wide), Some(own)) => same_node(own, wide),
    }
}

fn is_context_within(wide: Option<i64>, own: Option<i64>) -> bool
    ensures { result ≡ is_within int_eq wide own }
{
    match (wide, own) {
        (None, _) => true,
        (Some(_), None) => false,
        (Some(wide), Some(own)) => own == wide,
    }
}

fn are_among(kinds: &[TargetKind], wide: &[TargetKind]) -> bool
    ensures { result ≡ are_among kinds.now wide.now }
{
    kinds.iter().all(|kind| is_among(*kind, wide))
}

fn are_targets_within(wide: &Option<List<TargetKind>>, own: &Option<List<TargetKind>>) -> bool
    ensures { result ≡ is_within are_among wide.now own.now }
{
    match (wide, own) {
        (None, _) => true,
        (Some(_), None) => false,
        (Some(wide), Some(own)) => are_among(own.items(), wide.items()),
    }
}

/// Whether the wide patterns match whatever the own ones match.
#[tactic(auto, unfolding(crate::specs::Reach::is_wider))]
fn is_wider(wide: &Patterns, own: &Patterns) -> bool
    ensures { result ≡ is_wider wide.now own.now }
{
    is_service_within(wide.service, own.service)
        && is_source_within(&wide.source, &own.source)
        && is_node_within(&wide.source_node, own)
        && is_context_within(wide.context, own.context)
        && are_targets_within(&wide.targets, &own.targets)
}

/// Whether the patterns ask for a source of a node of which no endpoint is.
pub(crate) fn match_nothing(patterns: &Patterns) -> bool
    ensures { result ≡ match_nothing patterns.now }
{
    match &patterns.source_node {
        Some(node) => !same_node(node, node),
        None => false,
    }
}

/// The first of the rules before it that matches all that a rule matches.
pub(crate) fn wider_before<'a>(before: &'a [RuleAt], rule: &RuleAt) -> Option<&'a RuleAt>
    ensures { option_copied result ≡ wider_before before.now rule.now }
{
    before
        .iter()
        .find(|other| is_wider(&other.patterns, &rule.patterns))
}
