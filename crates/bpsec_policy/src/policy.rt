//! Policies.

ghost use Rattle.std.specs.Prelude.{◌≡◌, IsTrue, find};
ghost use Rattle.std.specs.Option.{option_copied};
ghost use Rattle.bpsec_policy.specs.Rules.{Parts, matches, rule_of, role_at};

use crate::rule::{Action, Requirement, Role, Rule, RuleAt, TargetKind, same_node};
use bp_eid::Eid;
use bpsec_asb::Service;
use cbor_profile::List;
use std::marker::Model;

/// The most rules of a policy.
pub const RULE_LIMIT: usize = 256;

/// The most requirements of a policy.
pub const REQUIREMENT_LIMIT: usize = 64;

/// How a node treats security operations. A contract sees it as its parts: the node's id, the action for broken blocks, the
/// default rule, the rules and the requirements.
#[derive(Debug, Drop)]
pub struct Policy {
    pub(crate) node: Eid,
    pub(crate) broken: Action,
    pub(crate) default_rule: Rule,
    pub(crate) rules: List<RuleAt>,
    pub(crate) required: List<Requirement>,
}

impl Model for Policy {
    ghost use Rattle.std.specs.Prelude.{IsTrue};
    ghost use Rattle.bpsec_policy.specs.Rules.{Parts};
    ghost use Rattle.bpsec_policy.specs.Policy.{is_policy};

    ghost Value = { Parts };

    ghost view = { λ p. record { node = p.node; broken = p.broken; default_rule = p.default_rule; rules = p.rules; required = p.required } };

    ghost invariant = { λ p. IsTrue (is_policy (record { node = p.node; broken = p.broken; default_rule = p.default_rule; rules = p.rules; required = p.required })) };
}

/// The first rule whose patterns all match.
fn first_match<'a>(
    rules: &'a [RuleAt],
    service: Service,
    source: &Eid,
    context: i64,
    target: Option<TargetKind>,
) -> Option<&'a RuleAt>
    ensures { option_copied result
        ≡ find (λ r. matches r.patterns service source.now context target) rules.now }
{
    rules
        .iter()
        .find(|r| r.patterns.matches(service, source, context, target))
}

impl Policy {
    ghost use Rattle.bpsec_policy.specs.Policy.{is_policy};

    /// The policy with these parts. Takes no memory.
    pub fn of(
        node: Eid,
        broken: Action,
        default_rule: Rule,
        rules: List<RuleAt>,
        required: List<Requirement>,
    ) -> Policy
        requires { IsTrue (is_policy (record {
          node = node;
          broken = broken;
          default_rule = default_rule;
          rules = rules;
          required = required;
        })) }
        ensures { result ≡ record {
          node = node;
          broken = broken;
          default_rule = default_rule;
          rules = rules;
          required = required;
        } }
    {
        Policy {
            node,
            broken,
            default_rule,
            rules,
            required,
        }
    }

    /// The rule of an operation: the first whose patterns all match, else the default rule. `target` is the kind of its
    /// target, or none where that isn't there. Takes no memory.
    pub fn rule_for(
        &self,
        service: Service,
        source: &Eid,
        context: i64,
        target: Option<TargetKind>,
    ) -> &Rule
        ensures { result.now ≡ rule_of self.now service source.now context target }
    {
        match first_match(self.rules.items(), service, source, context, target) {
            Some(found) => &found.rule,
            None => &self.default_rule,
        }
    }

    /// The role of an operation of this rule: the rule's, but acceptor of a confidentiality operation where the bundle's
    /// destination is of this node. Takes no memory.
    pub fn role_at(&self, rule: &Rule, service: Service, destination: &Eid) -> Role
        ensures { result ≡ role_at self.now rule.now service destination.now }
    {
        match service {
            Service::Bcb if same_node(&self.node, destination) => Role::Acceptor,
            _ => rule.role,
        }
    }

    /// The rules, in their order. Takes no memory.
    pub fn rules(&self) -> &[RuleAt]
        ensures { result.now ≡ self.now.rules }
    {
        self.rules.items()
    }

    /// The rule of an operation that no rule is for. Takes no memory.
    pub fn default_rule(&self) -> &Rule
        ensures { result.now ≡ self.now.default_rule }
    {
        &self.default_rule
    }

    /// The requirements, in their order. Takes no memory.
    pub fn requirements(&self) -> &[Requirement]
        ensures { result.now ≡ self.now.required }
    {
        self.required.items()
    }

    /// What is done with a block integrity block that can't be read. Takes no memory.
    pub fn broken(&self) -> Action
        ensures { result ≡ self.now.broken }
    {
        self.broken
    }

    /// An endpoint of this node. Takes no memory.
    pub fn node(&self) -> &Eid
        ensures { result.now ≡ self.now.node }
    {
        &self.node
    }
}
