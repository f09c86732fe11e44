//! Reading the words and targets of rules from the trees of their texts.

ghost use Rattle.std.specs.Prelude.{◌≡◌, map};
ghost use Rattle.std.specs.List.{list_all};
ghost use Rattle.cbor_profile.specs.Step.{Gives};
ghost use Rattle.serde_json.specs.View.{view};
ghost use Rattle.bp_text.specs.Fault.{IsFieldFault};
ghost use Rattle.bp_text.specs.Field.{word_at, optional};
ghost use Rattle.bpsec_policy.specs.Words.{role_of, action_of, service_of};
ghost use Rattle.bpsec_policy.specs.RuleText.{is_target, is_plain_target, are_targets, target_of, target_at, targets_of, targets_at};

use crate::rule::{Action, Role, TargetKind};
use bp_text::{Field, FieldFault, list_field, values_of, word_field};
use bpsec_asb::Service;
use cbor_profile::List;
use serde_json::Value;
use std::alloc::Global;

// ---- words

impl Field for Role {
    ghost reads = { word_at role_of };

    fn read(_alloc: Global, tree: &Value, key: &str) -> Result<Role, FieldFault> {
        match word_field(tree, key) {
            Some("acceptor") => Ok(Role::Acceptor),
            Some("verifier") => Ok(Role::Verifier),
            Some("none") => Ok(Role::None),
            Some(_) => Err(FieldFault::UnknownWord),
            None => Err(FieldFault::WrongShape),
        }
    }
}

impl Field for Action {
    ghost reads = { word_at action_of };

    fn read(_alloc: Global, tree: &Value, key: &str) -> Result<Action, FieldFault> {
        match word_field(tree, key) {
            Some("keep") => Ok(Action::Keep),
            Some("remove") => Ok(Action::Remove),
            Some("discard") => Ok(Action::Discard),
            Some(_) => Err(FieldFault::UnknownWord),
            None => Err(FieldFault::WrongShape),
        }
    }
}

/// The service at a key.
pub(crate) fn service_field(tree: &Value, key: &str) -> Result<Service, FieldFault>
    ensures { Gives IsFieldFault (λ service. service) result
        (word_at service_of key.now (view tree.now)) }
{
    match word_field(tree, key) {
        Some("bib") => Ok(Service::Bib),
        Some("bcb") => Ok(Service::Bcb),
        Some(_) => Err(FieldFault::UnknownWord),
        None => Err(FieldFault::WrongShape),
    }
}

/// The service at a key, if the tree has the key.
#[tactic(auto, unfolding(bp_text::specs::Field::optional))]
pub(crate) fn optional_service(tree: &Value, key: &str) -> Result<Option<Service>, FieldFault>
    ensures { Gives IsFieldFault (λ service. service) result
        (optional (word_at service_of) key.now (view tree.now)) }
{
    if tree.get(key).is_none() {
        return Ok(None);
    }
    match service_field(tree, key) {
        Ok(service) => Ok(Some(service)),
        Err(fault) => Err(fault),
    }
}

// ---- targets

/// Whether the value is a number or a text.
pub(crate) fn is_target(value: &Value) -> bool
    ensures { result ≡ is_target (view value.now) }
{
    value.is_u64() || value.is_string()
}

/// Whether the value is a target, and of no type of security blocks.
pub(crate) fn is_plain_target(value: &Value) -> bool
    ensures { result ≡ is_plain_target (view value.now) }
{
    is_target(value) && !matches!(value.as_u64(), Some(11 | 12))
}

/// Whether all values are numbers or texts.
fn all_targets(values: &[Value]) -> bool
    ensures { result ≡ list_all is_target (map view values.now) }
{
    match values {
        [] => true,
        [first, rest @ ..] => is_target(first) && all_targets(rest),
    }
}

/// Whether the value is a list of 1 to 16 targets.
pub(crate) fn are_targets(value: &Value) -> bool
    ensures { result ≡ are_targets (view value.now) }
{
    match values_of(value) {
        Some(values) => 1 <= values.len() && values.len() <= 16 && all_targets(values),
        None => false,
    }
}

/// The kind of target that a value names.
fn target_of(value: &Value) -> Result<TargetKind, FieldFault>
    ensures { Gives IsFieldFault (λ kind. kind) result (target_of (view value.now)) }
{
    if let Some(number) = value.as_u64() {
        return Ok(TargetKind::Kind(number));
    }
    match value.as_str() {
        Some("primary") => Ok(TargetKind::Primary),
        Some(_) => Err(FieldFault::UnknownWord),
        None => Err(FieldFault::WrongShape),
    }
}

impl Field for TargetKind {
    ghost reads = { target_at };

    fn read(_alloc: Global, tree: &Value, key: &str) -> Result<TargetKind, FieldFault> {
        match tree.get(key) {
            Some(value) => target_of(value),
            None => Err(FieldFault::WrongShape),
        }
    }
}

/// The kinds of target that the values name.
fn targets_of(alloc: Global, values: &[Value]) -> Result<List<TargetKind>, FieldFault>
    ensures { Gives IsFieldFault (λ kinds. kinds) result (targets_of (map view values.now)) }
{
    let mut kinds = List::new(alloc);
    for value in values {
        match target_of(value) {
            Ok(kind) => match kinds.append(kind) {
                Ok(()) => {}
                Err(error) => return Err(error.into()),
            },
            Err(fault) => return Err(fault),
        }
    }
    Ok(kinds)
}

/// The kinds of target in the list at a key, if the tree has the key.
#[tactic(auto, unfolding(bp_text::specs::Field::optional))]
pub(crate) fn optional_targets(
    alloc: Global,
    tree: &Value,
    key: &str,
) -> Result<Option<List<TargetKind>>, FieldFault>
    ensures { Gives IsFieldFault (λ kinds. kinds) result
        (optional targets_at key.now (view tree.now)) }
{
    if tree.get(key).is_none() {
        return Ok(None);
    }
    let Some(values) = list_field(tree, key) else {
        return Err(FieldFault::WrongShape);
    };
    match targets_of(alloc, values) {
        Ok(kinds) => Ok(Some(kinds)),
        Err(fault) => Err(fault),
    }
}
