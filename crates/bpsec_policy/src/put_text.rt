//! Writing a policy as a text of version 2.

ghost use Rattle.std.specs.Prelude.{◌≡◌, ◌<◌, ◌++◌, length, true, Ok, IsTrue, IfOk, IfSome, OnOk, OnErr, option_map, map, FitsSigned};
ghost use Rattle.std.specs.Int.{w64};
ghost use Rattle.std.specs.List.{AllByRecursion};
ghost use Rattle.serde_json.specs.Data.{array};
ghost use Rattle.serde_json.specs.View.{view, items_of, members_view};
ghost use Rattle.bp_eid.specs.EndpointId.{Fits};
ghost use Rattle.bp_text.specs.Shape.{is_name};
ghost use Rattle.bpsec_policy.specs.Rules.{allows};
ghost use Rattle.bpsec_policy.specs.Policy.{is_rule, is_requirement, is_policy};
ghost use Rattle.bpsec_policy.specs.PolicyText.{policy_of};
ghost use Rattle.bpsec_policy.specs.Ranges.{TargetFits, PatternsFit, RequirementFits, PartsFit};
ghost use Rattle.bpsec_policy.specs.Written.{entered, acting_entries, target_tree, source_entries, target_entries, name_entries, rule_tree, requirement_entries, requirement_tree, default_tree, head_entries, list_entries, policy_tree, policy_text};

use crate::policy::Policy;
use crate::rule::{Patterns, Requirement, Rule, RuleAt, TargetKind};
use crate::written::{
    Written, action_word, array_of, id_value, key_value, name_value, number_value, optional_id,
    optional_service_word, put_if, role_word, service_word, signed_value, text_value,
};
use bp_text::laws;
use cbor_profile::{Bytes, List, NoMemory};
use serde_json::{Map, Value};
use std::alloc::Global;

/// Puts in what a rule and the default share.
fn put_acting(alloc: Global, members: &mut Map<String, Value>, rule: &Rule) -> Result<(), NoMemory>
    requires { allows rule.now.key is_name ≡ true }
    ensures { OnOk result (members_view members.new.entries
        ≡ entered (members_view members.old.entries) (acting_entries rule.now)) }
{
    put_if(
        alloc,
        members,
        "role",
        text_value(alloc, role_word(rule.role))?,
    )?;
    put_if(
        alloc,
        members,
        "failed",
        text_value(alloc, action_word(rule.failed))?,
    )?;
    put_if(
        alloc,
        members,
        "misset",
        text_value(alloc, action_word(rule.misset))?,
    )?;
    put_if(alloc, members, "key", key_value(alloc, &rule.key)?)
}

/// Puts in the patterns of the security source.
fn put_sources(
    alloc: Global,
    members: &mut Map<String, Value>,
    patterns: &Patterns,
) -> Result<(), NoMemory>
    ensures value { OnOk result (members_view members.new.entries
        ≡ entered (members_view members.old.entries) (source_entries patterns.now)) }
    ensures fits { OnOk result (IfSome patterns.now.source Fits
        × IfSome patterns.now.source_node Fits) }
{
    put_if(
        alloc,
        members,
        "service",
        optional_service_word(alloc, patterns.service)?,
    )?;
    put_if(
        alloc,
        members,
        "source",
        optional_id(alloc, &patterns.source)?,
    )?;
    put_if(
        alloc,
        members,
        "source_node",
        optional_id(alloc, &patterns.source_node)?,
    )
}

/// The list of targets, if there is one.
fn targets_value(
    alloc: Global,
    targets: &Option<List<TargetKind>>,
) -> Result<Option<Value>, NoMemory>
    ensures value { IfOk result (λ v. option_map view v
        ≡ option_map (λ kinds. array (items_of (map target_tree kinds))) targets.now) }
    ensures fits { OnOk result (IfSome targets.now (AllByRecursion TargetFits)) }
{
    match targets {
        Some(kinds) => Ok(Some(array_of(alloc, kinds.items())?)),
        None => Ok(None),
    }
}

/// Puts in the patterns of context and target.
fn put_targets(
    alloc: Global,
    members: &mut Map<String, Value>,
    patterns: &Patterns,
) -> Result<(), NoMemory>
    ensures value { OnOk result (members_view members.new.entries
        ≡ entered (members_view members.old.entries) (target_entries patterns.now)) }
    ensures fits { OnOk result (IfSome patterns.now.context (λ z. FitsSigned w64 z)
        × IfSome patterns.now.targets (AllByRecursion TargetFits)) }
{
    put_if(alloc, members, "context", signed_value(patterns.context))?;
    put_if(
        alloc,
        members,
        "targets",
        targets_value(alloc, &patterns.targets)?,
    )
}

impl Written for RuleAt {
    ghost is_lawful = { λ r. is_rule r ≡ true };

    ghost tree = { rule_tree };

    ghost fits = { λ r. PatternsFit r.patterns };

    #[tactic(auto, unfolding(crate::specs::Written::rule_tree))]
    fn value(&self, alloc: Global) -> Result<Value, NoMemory> {
        let mut members = Map::new(alloc);
        put_if(
            alloc,
            &mut members,
            "name",
            name_value(alloc, &self.rule.name)?,
        )?;
        put_if(
            alloc,
            &mut members,
            "least_scope",
            number_value(self.rule.least_scope),
        )?;
        put_acting(alloc, &mut members, &self.rule)?;
        put_sources(alloc, &mut members, &self.patterns)?;
        put_targets(alloc, &mut members, &self.patterns)?;
        Ok(Value::from(members))
    }
}

impl Written for Requirement {
    ghost is_lawful = { λ r. is_requirement r ≡ true };

    ghost tree = { requirement_tree };

    ghost fits = { RequirementFits };

    #[tactic(auto, unfolding(crate::specs::Written::requirement_tree))]
    fn value(&self, alloc: Global) -> Result<Value, NoMemory> {
        let mut members = Map::new(alloc);
        put_if(alloc, &mut members, "name", name_value(alloc, &self.name)?)?;
        put_if(
            alloc,
            &mut members,
            "target",
            Some(self.target.value(alloc)?),
        )?;
        put_if(
            alloc,
            &mut members,
            "service",
            text_value(alloc, service_word(self.service))?,
        )?;
        put_if(
            alloc,
            &mut members,
            "missing",
            text_value(alloc, action_word(self.missing))?,
        )?;
        put_if(alloc, &mut members, "from", optional_id(alloc, &self.from)?)?;
        Ok(Value::from(members))
    }
}

/// The value of a default rule.
#[tactic(auto, unfolding(crate::specs::Written::default_tree))]
fn default_value(alloc: Global, rule: &Rule) -> Result<Value, NoMemory>
    requires { allows rule.now.key is_name ≡ true }
    ensures { IfOk result (λ v. view v ≡ default_tree rule.now) }
{
    let mut members = Map::new(alloc);
    put_acting(alloc, &mut members, rule)?;
    Ok(Value::from(members))
}

impl Policy {
    /// What every policy keeps.
    fn keeps(&self)
        ensures { IsTrue (is_policy self.now) }
    {
        let _ = &self.node;
    }

    /// Puts in the top's own fields.
    fn put_head(&self, alloc: Global, members: &mut Map<String, Value>) -> Result<(), NoMemory>
        ensures value { OnOk result (members_view members.new.entries
            ≡ entered (members_view members.old.entries) (head_entries self.now)) }
        ensures fits { OnOk result (Fits self.now.node) }
    {
        put_if(alloc, members, "version", number_value(Some(2)))?;
        put_if(alloc, members, "node", Some(id_value(alloc, &self.node)?))?;
        put_if(
            alloc,
            members,
            "broken",
            text_value(alloc, action_word(self.broken))?,
        )?;
        put_if(
            alloc,
            members,
            "default",
            Some(default_value(alloc, &self.default_rule)?),
        )
    }

    /// Puts in the two lists.
    fn put_lists(&self, alloc: Global, members: &mut Map<String, Value>) -> Result<(), NoMemory>
        ensures value { OnOk result (members_view members.new.entries
            ≡ entered (members_view members.old.entries) (list_entries self.now)) }
        ensures rules { OnOk result (AllByRecursion (λ r. PatternsFit r.patterns) self.now.rules) }
        ensures required { OnOk result (AllByRecursion RequirementFits self.now.required) }
    {
        put_if(
            alloc,
            members,
            "rules",
            Some(array_of(alloc, self.rules.items())?),
        )?;
        put_if(
            alloc,
            members,
            "required",
            Some(array_of(alloc, self.required.items())?),
        )
    }

    /// The tree of the policy's text.
    #[tactic(auto, unfolding(crate::specs::Written::policy_tree))]
    fn tree(&self, alloc: Global) -> Result<Value, NoMemory>
        ensures value { IfOk result (λ v. view v ≡ policy_tree self.now) }
        ensures fits { OnOk result (PartsFit self.now) }
        ensures rule { IsTrue (is_policy self.now) }
    {
        self.keeps();
        let mut members = Map::new(alloc);
        self.put_head(alloc, &mut members)?;
        self.put_lists(alloc, &mut members)?;
        Ok(Value::from(members))
    }

    /// Appends the policy as a text of version 2, or leaves the bytes as they were for want of memory. The text is within
    /// the limit of texts, and is read back as the same policy.
    pub fn put_text(&self, alloc: Global, out: &mut Bytes) -> Result<(), NoMemory>
        ensures ok { OnOk result (out.new ≡ out.old ++ policy_text self.now) }
        ensures err { OnErr result (out.new ≡ out.old) }
        ensures short { OnOk result (length (policy_text self.now) < 900000) }
        ensures again { OnOk result (policy_of (policy_text self.now) ≡ Ok self.now) }
    {
        laws::ids_are_read_as_written();
        let tree = self.tree(alloc)?;
        let text = tree.to_string(alloc)?;
        out.extend(text.as_str().as_bytes())
    }
}
