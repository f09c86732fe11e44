//! All findings over a policy and a key ring, and over a plan and a key ring.

ghost use Rattle.std.specs.Prelude.{◌≡◌, ◌++◌, [], IfOk, OnOk};
ghost use Rattle.std.specs.List.{list_any};
ghost use Rattle.bpsec_audit.specs.Lines.{each_after};
ghost use Rattle.bpsec_audit.specs.Rules.{rule_lines};
ghost use Rattle.bpsec_audit.specs.Items.{item_names};
ghost use Rattle.bpsec_audit.specs.Findings.{rule_names, policy_names, plan_names, policy_findings, plan_findings};

use crate::items::{is_key_named, item_names, put_items};
use crate::keys::{NamesKeys, put_keys};
use crate::rules::{put_default, put_no_requirement, put_requirements, put_rule};
use bpsec_plan::{Item, Plan};
use bpsec_policy::{KeyRing, Policy, RuleAt};
use cbor_profile::{Bytes, List, NoMemory};
use std::alloc::Global;

fn rule_names(name: &[u8], rule: &RuleAt) -> bool
    ensures { result ≡ rule_names name.now rule.now }
{
    is_key_named(&rule.rule.key, name)
}

fn some_rule_names(rules: &[RuleAt], name: &[u8]) -> bool
    ensures { result ≡ list_any (rule_names name.now) rules.now }
{
    rules.iter().any(|rule| rule_names(name, rule))
}

fn some_item_names(items: &[Item], name: &[u8]) -> bool
    ensures { result ≡ list_any (item_names name.now) items.now }
{
    items.iter().any(|item| item_names(name, item))
}

/// A rule or the default rule names the key.
impl NamesKeys for Policy {
    ghost names = { policy_names };

    fn names(&self, key: &[u8]) -> bool {
        some_rule_names(self.rules(), key) || is_key_named(&self.default_rule().key, key)
    }
}

/// An item names the key.
impl NamesKeys for Plan {
    ghost names = { plan_names };

    fn names(&self, key: &[u8]) -> bool {
        some_item_names(self.items(), key)
    }
}

fn put_rules(
    alloc: Global,
    ring: &KeyRing,
    rules: &[RuleAt],
    lines: &mut List<Bytes>,
) -> Result<(), NoMemory>
    ensures { OnOk result (lines.new
        ≡ lines.old ++ each_after (rule_lines ring.now) [] rules.now) }
{
    for (at, rule) in rules.iter().enumerate() {
        put_rule(alloc, ring, &rules[..at], rule, lines)?;
    }
    Ok(())
}

/// The findings over a policy and a key ring, a line each without its end: of each rule, of the default rule, of each
/// requirement, and of each key, in their order. A rule that several earlier ones together leave nothing is not found.
#[tactic(auto, unfolding(crate::specs::Findings::policy_findings))]
pub fn policy_findings(
    alloc: Global,
    policy: &Policy,
    ring: &KeyRing,
) -> Result<List<Bytes>, NoMemory>
    ensures { IfOk result (λ lines. lines ≡ policy_findings policy.now ring.now) }
{
    let mut lines = List::new(alloc);
    put_rules(alloc, ring, policy.rules(), &mut lines)?;
    put_default(alloc, ring, policy.default_rule(), &mut lines)?;
    put_requirements(alloc, policy.requirements(), &mut lines)?;
    put_no_requirement(alloc, policy.requirements(), &mut lines)?;
    put_keys(alloc, policy, ring.keys(), &mut lines)?;
    Ok(lines)
}

/// The findings over a plan and a key ring, a line each without its end: of each item by its index, and of each key, in their
/// order.
#[tactic(auto, unfolding(crate::specs::Findings::plan_findings))]
pub fn plan_findings(alloc: Global, plan: &Plan, ring: &KeyRing) -> Result<List<Bytes>, NoMemory>
    ensures { IfOk result (λ lines. lines ≡ plan_findings plan.now ring.now) }
{
    let mut lines = List::new(alloc);
    put_items(alloc, ring, plan.items(), &mut lines)?;
    put_keys(alloc, plan, ring.keys(), &mut lines)?;
    Ok(lines)
}
