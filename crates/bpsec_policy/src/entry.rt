//! Reading rules and requirements from the trees of their texts.

ghost use Rattle.std.specs.Prelude.{◌≡◌};
ghost use Rattle.cbor_profile.specs.Step.{Gives};
ghost use Rattle.serde_json.specs.View.{view};
ghost use Rattle.bp_text.specs.Fault.{IsFieldFault};
ghost use Rattle.bpsec_policy.specs.RuleText.{is_acting_shape, acting_at, is_default_shape, default_at, are_patterns_shape, is_rule_shape, patterns_at, rule_at, is_requirement_shape, requirement_at, is_target, are_targets, is_plain_target, may_pass, rule_keys, either_at, are_sources, may_have_targets, sources_at};
ghost use Rattle.serde_json.specs.Find.{get};
ghost use Rattle.bp_text.specs.Shape.{has_only, passes};

use crate::rule::{Patterns, Requirement, Rule, RuleAt, TargetKind};
use crate::rule_text::{
    are_targets, is_plain_target, is_target, optional_service, optional_targets, service_field,
};
use bp_eid::Eid;
use bp_text::{
    Entry, Field, FieldFault, Kind, has, has_only, may_have, number_field, optional, signed_field,
};
use cbor_profile::{Bytes, List, NoMemory};
use serde_json::Value;
use std::alloc::Global;

/// Whether the tree has what a rule and the default share.
#[tactic(auto, unfolding(crate::specs::RuleText::is_acting_shape))]
fn is_acting_shape(tree: &Value) -> bool
    ensures { result ≡ is_acting_shape (view tree.now) }
{
    has(tree, "role", Kind::Text)
        && has(tree, "failed", Kind::Text)
        && has(tree, "misset", Kind::Text)
        && may_have(tree, "key", Kind::Name)
}

/// The rule with this name and least scope.
#[tactic(auto, unfolding(crate::specs::RuleText::acting_at))]
fn acting(
    alloc: Global,
    name: Bytes,
    least_scope: Option<u64>,
    tree: &Value,
) -> Result<Rule, FieldFault>
    ensures { Gives IsFieldFault (λ rule. rule) result
        (acting_at name least_scope (view tree.now)) }
{
    let role = Field::read(alloc, tree, "role")?;
    let failed = Field::read(alloc, tree, "failed")?;
    let misset = Field::read(alloc, tree, "misset")?;
    let key = optional(alloc, tree, "key")?;
    Ok(Rule {
        name,
        role,
        key,
        failed,
        misset,
        least_scope,
    })
}

/// Whether the tree has the shape of a default.
#[tactic(auto, unfolding(crate::specs::RuleText::is_default_shape))]
fn is_default_shape(tree: &Value) -> bool
    ensures { result ≡ is_default_shape (view tree.now) }
{
    has_only(tree, &["role", "failed", "misset", "key"]) && is_acting_shape(tree)
}

/// The default rule.
#[tactic(auto, unfolding(crate::specs::RuleText::default_at))]
pub(crate) fn read_default(alloc: Global, tree: &Value) -> Result<Rule, FieldFault>
    ensures { Gives IsFieldFault (λ rule. rule) result (default_at (view tree.now)) }
{
    if !is_default_shape(tree) {
        return Err(FieldFault::WrongShape);
    }
    match Vec::from_slice(alloc, b"default") {
        Ok(name) => acting(alloc, Bytes::of(name), None, tree),
        Err(error) => Err(NoMemory::from(error).into()),
    }
}

/// Whether the key's value is a target, if the tree has the key.
fn may_be_target(tree: &Value, key: &str) -> bool
    ensures { result ≡ may_pass is_target key.now (view tree.now) }
{
    match tree.get(key) {
        Some(value) => is_target(value),
        None => true,
    }
}

/// Whether the key's value is a list of targets, if the tree has the key.
fn may_be_targets(tree: &Value, key: &str) -> bool
    ensures { result ≡ may_pass are_targets key.now (view tree.now) }
{
    match tree.get(key) {
        Some(value) => are_targets(value),
        None => true,
    }
}

/// Whether the patterns of the security source have their kinds, and aren't both there.
fn are_sources(tree: &Value) -> bool
    ensures { result ≡ are_sources (view tree.now) }
{
    may_have(tree, "source", Kind::Text)
        && may_have(tree, "source_node", Kind::Text)
        && !(tree.get("source").is_some() && tree.get("source_node").is_some())
}

/// Whether the patterns of the target have their kinds.
fn may_have_targets(tree: &Value) -> bool
    ensures { result ≡ may_have_targets (view tree.now) }
{
    may_be_target(tree, "target") && may_be_targets(tree, "targets")
}

/// Whether the patterns have their kinds.
#[tactic(auto, unfolding(crate::specs::RuleText::are_patterns_shape))]
fn are_patterns_shape(tree: &Value) -> bool
    ensures { result ≡ are_patterns_shape (view tree.now) }
{
    may_have(tree, "service", Kind::Text)
        && are_sources(tree)
        && may_have(tree, "context", Kind::Signed)
        && may_have_targets(tree)
}

/// Whether the tree has no other keys than a rule of this version.
fn has_rule_keys(version: u64, tree: &Value) -> bool
    ensures { result ≡ has_only (rule_keys version) (view tree.now) }
{
    if version == 1 {
        has_only(
            tree,
            &[
                "name", "role", "failed", "misset", "key", "service", "source", "context", "target",
            ],
        )
    } else {
        has_only(
            tree,
            &[
                "name",
                "role",
                "failed",
                "misset",
                "key",
                "service",
                "source",
                "context",
                "source_node",
                "targets",
                "least_scope",
            ],
        )
    }
}

/// Whether the tree has the shape of a rule.
#[tactic(auto, unfolding(crate::specs::RuleText::is_rule_shape))]
fn is_rule_shape(version: u64, tree: &Value) -> bool
    ensures { result ≡ is_rule_shape version (view tree.now) }
{
    has_rule_keys(version, tree)
        && has(tree, "name", Kind::Name)
        && is_acting_shape(tree)
        && are_patterns_shape(tree)
        && may_have(tree, "least_scope", Kind::Number { most: 7 })
}

/// The target of version 1, else the targets of version 2.
fn read_targets(alloc: Global, tree: &Value) -> Result<Option<List<TargetKind>>, FieldFault>
    ensures { Gives IsFieldFault (λ kinds. kinds) result (either_at (view tree.now)) }
{
    if tree.get("target").is_none() {
        return optional_targets(alloc, tree, "targets");
    }
    let kind = TargetKind::read(alloc, tree, "target")?;
    match Vec::from_slice(alloc, &[kind]) {
        Ok(kinds) => Ok(Some(List::of(kinds))),
        Err(error) => Err(NoMemory::from(error).into()),
    }
}

/// The patterns of the security source.
fn read_sources(alloc: Global, tree: &Value) -> Result<(Option<Eid>, Option<Eid>), FieldFault>
    ensures { Gives IsFieldFault (λ sources. sources) result (sources_at (view tree.now)) }
{
    let source = optional(alloc, tree, "source")?;
    let source_node = optional(alloc, tree, "source_node")?;
    Ok((source, source_node))
}

/// The patterns of a rule.
#[tactic(auto, unfolding(crate::specs::RuleText::patterns_at))]
fn read_patterns(alloc: Global, tree: &Value) -> Result<Patterns, FieldFault>
    ensures { Gives IsFieldFault (λ patterns. patterns) result (patterns_at (view tree.now)) }
{
    let service = optional_service(tree, "service")?;
    let (source, source_node) = read_sources(alloc, tree)?;
    let targets = read_targets(alloc, tree)?;
    Ok(Patterns {
        service,
        source,
        source_node,
        context: signed_field(tree, "context"),
        targets,
    })
}

impl Entry for RuleAt {
    ghost reads = { rule_at };

    #[tactic(auto, unfolding(crate::specs::RuleText::rule_at))]
    fn read(alloc: Global, version: u64, tree: &Value) -> Result<RuleAt, FieldFault> {
        if !is_rule_shape(version, tree) {
            return Err(FieldFault::WrongShape);
        }
        let name = Field::read(alloc, tree, "name")?;
        let rule = acting(alloc, name, number_field(tree, "least_scope"), tree)?;
        let patterns = read_patterns(alloc, tree)?;
        Ok(RuleAt { patterns, rule })
    }
}

/// Whether the key's value is a target, and of no type of security blocks.
fn has_plain_target(tree: &Value, key: &str) -> bool
    ensures { result ≡ passes is_plain_target (get key.now (view tree.now)) }
{
    match tree.get(key) {
        Some(value) => is_plain_target(value),
        None => false,
    }
}

/// Whether the tree has the shape of a requirement.
#[tactic(auto, unfolding(crate::specs::RuleText::is_requirement_shape))]
fn is_requirement_shape(tree: &Value) -> bool
    ensures { result ≡ is_requirement_shape (view tree.now) }
{
    has_only(tree, &["name", "target", "service", "missing", "from"])
        && has(tree, "name", Kind::Name)
        && has_plain_target(tree, "target")
        && has(tree, "service", Kind::Text)
        && has(tree, "missing", Kind::Text)
        && may_have(tree, "from", Kind::Text)
}

impl Entry for Requirement {
    ghost reads = { λ version. requirement_at };

    #[tactic(auto, unfolding(crate::specs::RuleText::requirement_at))]
    fn read(alloc: Global, _version: u64, tree: &Value) -> Result<Requirement, FieldFault> {
        if !is_requirement_shape(tree) {
            return Err(FieldFault::WrongShape);
        }
        let name = Field::read(alloc, tree, "name")?;
        let target = Field::read(alloc, tree, "target")?;
        let service = service_field(tree, "service")?;
        let from = optional(alloc, tree, "from")?;
        let missing = Field::read(alloc, tree, "missing")?;
        Ok(Requirement {
            name,
            target,
            service,
            from,
            missing,
        })
    }
}
