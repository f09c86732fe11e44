//! What is told of rules and requirements.

ghost use Rattle.std.specs.Prelude.{◌≡◌, ◌++◌, OnOk};
ghost use Rattle.std.specs.List.{flat_map, list_any};
ghost use Rattle.std.specs.Option.{option_copied};
ghost use Rattle.bpsec_audit.specs.declared.line.Finding.TheVariants.{UnknownKeyOfRule};
ghost use Rattle.bpsec_audit.specs.Rules.{dead_by, dead_lines, has_role, no_key_lines, unknown_lines, has_wrong_length, is_cipher, length_of_key, length_lines, has_type_0, is_keep, keeps, keeps_lines, rule_lines, default_lines, requirement_lines, is_of_integrity, no_requirement_lines};

use crate::line::{Finding, add_if, add_of_two};
use crate::reach::{match_nothing, wider_before};
use bpsec_asb::Service;
use bpsec_policy::{
    Action, KeyRing, Requirement, Role, Rule, RuleAt, TargetKind, is_among, same_kind,
};
use cbor_profile::{Bytes, List, NoMemory};
use std::alloc::Global;

/// The line of a rule that another leaves nothing.
#[tactic(auto, unfolding(crate::specs::Rules::dead_by))]
fn put_dead_by(
    alloc: Global,
    name: &[u8],
    by: Option<&RuleAt>,
    lines: &mut List<Bytes>,
) -> Result<(), NoMemory>
    ensures { OnOk result (lines.new ≡ lines.old ++ dead_by name.now (option_copied by.entry)) }
{
    match by {
        Some(by) => add_of_two(
            alloc,
            Finding::DeadRule,
            name,
            by.rule.name.as_slice(),
            lines,
        ),
        None => Ok(()),
    }
}

/// The line of a rule that matches nothing, or nothing that the rules before it leave.
#[tactic(auto, unfolding(crate::specs::Rules::dead_lines))]
fn put_dead(
    alloc: Global,
    before: &[RuleAt],
    rule: &RuleAt,
    lines: &mut List<Bytes>,
) -> Result<(), NoMemory>
    ensures { OnOk result (lines.new ≡ lines.old ++ dead_lines before.now rule.now) }
{
    let name = rule.rule.name.as_slice();
    if match_nothing(&rule.patterns) {
        return add_of_two(alloc, Finding::DeadRule, name, b"-", lines);
    }
    put_dead_by(alloc, name, wider_before(before, rule), lines)
}

fn has_role(role: Role) -> bool
    ensures { result ≡ has_role role }
{
    match role {
        Role::None => false,
        Role::Verifier | Role::Acceptor => true,
    }
}

/// The line of a rule with a role and no key.
#[tactic(auto, unfolding(crate::specs::Rules::no_key_lines))]
fn put_no_key(alloc: Global, rule: &Rule, lines: &mut List<Bytes>) -> Result<(), NoMemory>
    ensures { OnOk result (lines.new ≡ lines.old ++ no_key_lines rule.now) }
{
    let holds = has_role(rule.role) && rule.key.is_none();
    add_if(
        alloc,
        holds,
        Finding::KeylessRule,
        rule.name.as_slice(),
        lines,
    )
}

/// The line of a key that the ring lacks, and of what names it.
#[tactic(auto, unfolding(crate::specs::Rules::unknown_lines, crate::specs::Lines::line_if))]
pub(crate) fn put_unknown(
    alloc: Global,
    finding: Finding,
    ring: &KeyRing,
    name: &[u8],
    key: Option<&Bytes>,
    lines: &mut List<Bytes>,
) -> Result<(), NoMemory>
    ensures { OnOk result (lines.new
        ≡ lines.old ++ unknown_lines finding ring.now name.now (option_copied key.entry)) }
{
    let Some(key) = key else {
        return Ok(());
    };
    let key = key.as_slice();
    if ring.key(key).is_none() {
        return add_of_two(alloc, finding, name, key, lines);
    }
    Ok(())
}

fn has_wrong_length(key: Option<&[u8]>) -> bool
    ensures { result ≡ has_wrong_length (option_copied key.entry) }
{
    match key {
        Some(key) => !(key.len() == 16 || key.len() == 32),
        None => false,
    }
}

fn is_cipher(service: Option<Service>) -> bool
    ensures { result ≡ is_cipher service }
{
    match service {
        Some(Service::Bcb) => true,
        Some(Service::Bib) | None => false,
    }
}

#[tactic(auto, unfolding(crate::specs::Rules::length_of_key, crate::specs::Lines::line_if))]
fn put_length_of_key(
    alloc: Global,
    ring: &KeyRing,
    rule: &Rule,
    lines: &mut List<Bytes>,
) -> Result<(), NoMemory>
    ensures { OnOk result (lines.new
        ≡ lines.old ++ length_of_key ring.now rule.now.name rule.now.key) }
{
    let Some(key) = &rule.key else {
        return Ok(());
    };
    let key = key.as_slice();
    let name = rule.name.as_slice();
    if has_wrong_length(ring.key(key)) {
        return add_of_two(alloc, Finding::KeyLength, name, key, lines);
    }
    Ok(())
}

/// The line of a rule for confidentiality whose key no AES takes.
#[tactic(auto, unfolding(crate::specs::Rules::length_lines))]
fn put_length(
    alloc: Global,
    ring: &KeyRing,
    rule: &RuleAt,
    lines: &mut List<Bytes>,
) -> Result<(), NoMemory>
    ensures { OnOk result (lines.new ≡ lines.old ++ length_lines ring.now rule.now) }
{
    if is_cipher(rule.patterns.service) {
        return put_length_of_key(alloc, ring, &rule.rule, lines);
    }
    Ok(())
}

fn has_type_0(targets: &Option<List<TargetKind>>) -> bool
    ensures { result ≡ has_type_0 targets.now }
{
    match targets {
        Some(kinds) => is_among(TargetKind::Kind(0), kinds.items()),
        None => false,
    }
}

fn is_keep(action: Action) -> bool
    ensures { result ≡ is_keep action }
{
    match action {
        Action::Keep => true,
        Action::Remove | Action::Discard => false,
    }
}

fn keeps(rule: &Rule) -> bool
    ensures { result ≡ keeps rule.now }
{
    is_keep(rule.failed) || is_keep(rule.misset)
}

/// The line of a rule that keeps what it can't verify.
#[tactic(auto, unfolding(crate::specs::Rules::keeps_lines))]
fn put_keeps(alloc: Global, rule: &Rule, lines: &mut List<Bytes>) -> Result<(), NoMemory>
    ensures { OnOk result (lines.new ≡ lines.old ++ keeps_lines rule.now) }
{
    let holds = has_role(rule.role) && keeps(rule);
    add_if(
        alloc,
        holds,
        Finding::KeepingRule,
        rule.name.as_slice(),
        lines,
    )
}

fn put_unknown_of_rule(
    alloc: Global,
    ring: &KeyRing,
    rule: &Rule,
    lines: &mut List<Bytes>,
) -> Result<(), NoMemory>
    ensures { OnOk result (lines.new
        ≡ lines.old ++ unknown_lines UnknownKeyOfRule ring.now rule.now.name rule.now.key) }
{
    let name = rule.name.as_slice();
    let key = rule.key.as_ref();
    put_unknown(alloc, Finding::UnknownKeyOfRule, ring, name, key, lines)
}

/// What is told of a rule, before which these stand.
#[tactic(auto, unfolding(crate::specs::Rules::rule_lines))]
pub(crate) fn put_rule(
    alloc: Global,
    ring: &KeyRing,
    before: &[RuleAt],
    rule: &RuleAt,
    lines: &mut List<Bytes>,
) -> Result<(), NoMemory>
    ensures { OnOk result (lines.new ≡ lines.old ++ rule_lines ring.now before.now rule.now) }
{
    let name = rule.rule.name.as_slice();
    put_dead(alloc, before, rule, lines)?;
    put_no_key(alloc, &rule.rule, lines)?;
    put_unknown_of_rule(alloc, ring, &rule.rule, lines)?;
    put_length(alloc, ring, rule, lines)?;
    add_if(
        alloc,
        has_type_0(&rule.patterns.targets),
        Finding::RuleForType0,
        name,
        lines,
    )?;
    put_keeps(alloc, &rule.rule, lines)
}

/// What is told of the default rule.
#[tactic(auto, unfolding(crate::specs::Rules::default_lines))]
pub(crate) fn put_default(
    alloc: Global,
    ring: &KeyRing,
    rule: &Rule,
    lines: &mut List<Bytes>,
) -> Result<(), NoMemory>
    ensures { OnOk result (lines.new ≡ lines.old ++ default_lines ring.now rule.now) }
{
    put_no_key(alloc, rule, lines)?;
    put_unknown_of_rule(alloc, ring, rule, lines)?;
    put_keeps(alloc, rule, lines)
}

/// What is told of a requirement.
#[tactic(auto, unfolding(crate::specs::Rules::requirement_lines))]
fn put_requirement(
    alloc: Global,
    required: &Requirement,
    lines: &mut List<Bytes>,
) -> Result<(), NoMemory>
    ensures { OnOk result (lines.new ≡ lines.old ++ requirement_lines required.now) }
{
    let name = required.name.as_slice();
    let is_type_0 = same_kind(required.target, TargetKind::Kind(0));
    add_if(alloc, is_type_0, Finding::RequirementForType0, name, lines)?;
    add_if(
        alloc,
        is_keep(required.missing),
        Finding::KeepingRequirement,
        name,
        lines,
    )
}

/// What is told of each requirement.
pub(crate) fn put_requirements(
    alloc: Global,
    required: &[Requirement],
    lines: &mut List<Bytes>,
) -> Result<(), NoMemory>
    ensures { OnOk result (lines.new ≡ lines.old ++ flat_map requirement_lines required.now) }
{
    for requirement in required {
        put_requirement(alloc, requirement, lines)?;
    }
    Ok(())
}

fn is_of_integrity(required: &Requirement) -> bool
    ensures { result ≡ is_of_integrity required.now }
{
    match required.service {
        Service::Bib => true,
        Service::Bcb => false,
    }
}

fn is_some_of_integrity(required: &[Requirement]) -> bool
    ensures { result ≡ list_any is_of_integrity required.now }
{
    required.iter().any(|one| is_of_integrity(one))
}

/// The line where no requirement is of integrity.
#[tactic(auto, unfolding(crate::specs::Rules::no_requirement_lines))]
pub(crate) fn put_no_requirement(
    alloc: Global,
    required: &[Requirement],
    lines: &mut List<Bytes>,
) -> Result<(), NoMemory>
    ensures { OnOk result (lines.new ≡ lines.old ++ no_requirement_lines required.now) }
{
    let lacks = !is_some_of_integrity(required);
    add_if(alloc, lacks, Finding::NoRequirement, b"bib", lines)
}
