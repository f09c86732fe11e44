//! The text of a policy.

ghost use Rattle.std.specs.Prelude.{◌≡◌, ◌&&◌, codes, IfOk, IfErr};
ghost use Rattle.cbor_profile.specs.Step.{Gives};
ghost use Rattle.serde_json.specs.View.{view};
ghost use Rattle.bp_text.specs.Fault.{IsFieldFault, IsTextError};
ghost use Rattle.bp_text.specs.Names.{AreKnown};
ghost use Rattle.bp_text.specs.Top.{is_short};
ghost use Rattle.bpsec_policy.specs.Policy.{reserved};
ghost use Rattle.bpsec_policy.specs.Rules.{Parts};
ghost use Rattle.bpsec_policy.specs.PolicyText.{has_policy_keys, has_head, has_lists, is_policy_shape, head_at, lists_at, policy_at, policy_of};

use crate::entry::read_default;
use crate::policy::{Policy, REQUIREMENT_LIMIT, RULE_LIMIT};
use crate::rule::{Action, Requirement, Rule, RuleAt};
use bp_eid::Eid;
use bp_text::{
    Field, FieldFault, Kind, Names, TextError, TextReason, eid_field, has, has_only, is_short,
    laws, list_field, read_entries, read_tree, refused, version_field,
};
use cbor_profile::List;
use serde_json::Value;
use std::alloc::Global;

/// Whether the tree has the own fields of a policy's top.
#[tactic(auto, unfolding(crate::specs::PolicyText::has_head))]
fn has_head(tree: &Value) -> bool
    ensures { result ≡ has_head (view tree.now) }
{
    has(tree, "node", Kind::Text)
        && has(tree, "broken", Kind::Text)
        && has(tree, "default", Kind::Object)
}

/// Whether the tree has the two lists of a policy.
#[tactic(auto, unfolding(crate::specs::PolicyText::has_lists))]
fn has_lists(tree: &Value) -> bool
    ensures { result ≡ has_lists (view tree.now) }
{
    has(tree, "rules", Kind::Array { least: 0 }) && has(tree, "required", Kind::Array { least: 0 })
}

/// Whether the tree has no other keys than a policy.
#[tactic(auto, unfolding(crate::specs::PolicyText::has_policy_keys))]
fn has_policy_keys(tree: &Value) -> bool
    ensures { result ≡ has_policy_keys (view tree.now) }
{
    has_only(
        tree,
        &["version", "node", "broken", "default", "rules", "required"],
    )
}

/// Whether the tree has the shape of a policy.
#[tactic(auto, unfolding(crate::specs::PolicyText::is_policy_shape))]
fn is_policy_shape(tree: &Value) -> bool
    ensures { result ≡ is_policy_shape (view tree.now) }
{
    has_policy_keys(tree) && has_head(tree) && has_lists(tree)
}

/// Whether neither list is longer than its limit.
fn are_short(tree: &Value) -> bool
    ensures { result ≡ is_short 256 (codes "rules") (view tree.now)
        && is_short 64 (codes "required") (view tree.now) }
{
    is_short(tree, "rules", RULE_LIMIT) && is_short(tree, "required", REQUIREMENT_LIMIT)
}

/// The top's own fields: node, action for broken blocks, default rule.
#[tactic(auto, unfolding(crate::specs::PolicyText::head_at))]
fn read_head(alloc: Global, tree: &Value) -> Result<(Eid, Action, Rule), FieldFault>
    ensures { Gives IsFieldFault (λ head. head) result (head_at (view tree.now)) }
{
    let node = eid_field(alloc, tree, "node")?;
    let broken = Action::read(alloc, tree, "broken")?;
    let Some(rest) = tree.get("default") else {
        return Err(FieldFault::WrongShape);
    };
    let default_rule = read_default(alloc, rest)?;
    Ok((node, broken, default_rule))
}

/// Names that neither rules nor requirements may have.
fn reserved_names(alloc: Global) -> Result<Names, TextError>
    ensures ok { IfOk result (λ names. AreKnown names reserved) }
    ensures err { IfErr result (λ e. e ≡ TextError.NoMemory) }
{
    let mut names = Names::new(alloc);
    names.note(alloc, "broken")?;
    names.note(alloc, "default")?;
    Ok(names)
}

/// The rules and the requirements.
#[tactic(auto, unfolding(crate::specs::PolicyText::lists_at))]
fn read_lists(
    alloc: Global,
    version: u64,
    tree: &Value,
) -> Result<(List<RuleAt>, List<Requirement>), TextError>
    ensures { Gives IsTextError (λ lists. lists) result (lists_at version (view tree.now)) }
{
    let Some(rules) = list_field(tree, "rules") else {
        return Err(refused(TextReason::WrongShape));
    };
    let Some(required) = list_field(tree, "required") else {
        return Err(refused(TextReason::WrongShape));
    };
    let mut names = reserved_names(alloc)?;
    let first = rules.len() as u64;
    let rules = read_entries(alloc, version, rules, 0, &mut names)?;
    let required = read_entries(alloc, version, required, first, &mut names)?;
    Ok((rules, required))
}

impl Policy {
    /// The policy of a tree.
    #[tactic(auto, unfolding(crate::specs::PolicyText::policy_at))]
    fn of_tree(alloc: Global, tree: &Value) -> Result<Policy, TextError>
        ensures { Gives IsTextError (λ policy. policy) result (policy_at (view tree.now)) }
    {
        laws::names_stand_once::<RuleAt>();
        laws::names_stand_once::<Requirement>();
        laws::entries_are_alike::<RuleAt>();
        laws::entries_are_alike::<Requirement>();
        let version = version_field(tree, &[1, 2])?;
        if !is_policy_shape(tree) {
            return Err(refused(TextReason::WrongShape));
        }
        if !are_short(tree) {
            return Err(refused(TextReason::TooMany));
        }
        let (node, broken, default_rule) = match read_head(alloc, tree) {
            Ok(head) => head,
            Err(fault) => return Err(fault.at(None)),
        };
        let (rules, required) = read_lists(alloc, version, tree)?;
        Ok(Policy::of(node, broken, default_rule, rules, required))
    }

    /// The policy whose text this is, of version 1 or 2, or the first fault.
    pub fn from_json(alloc: Global, bytes: &[u8]) -> Result<Policy, TextError>
        ensures { Gives IsTextError (λ policy. policy) result (policy_of bytes.now) }
    {
        let tree = read_tree(alloc, bytes)?;
        Policy::of_tree(alloc, &tree)
    }
}
