//! Lines of findings.

ghost use Rattle.std.specs.Prelude.{◌≡◌, ◌∷◌, [], ◌++◌, IfOk, OnOk};
ghost use Rattle.bpsec_audit.specs.Lines.{front, link, line, line_of_two, line_if};

use cbor_profile::{Bytes, List, NoMemory};
use std::alloc::Global;

/// What a line says, of what has a name or an index.
#[derive(Clone, Copy, Debug)]
pub enum Finding {
    /// A rule matches nothing, or nothing that an earlier one leaves.
    DeadRule,
    /// A rule has a role, and names no key.
    KeylessRule,
    /// The ring lacks the key that a rule names.
    UnknownKeyOfRule,
    /// No AES takes the key of a rule for confidentiality.
    KeyLength,
    /// A rule is for block type 0, which isn't the primary block.
    RuleForType0,
    /// A rule keeps what failed, or what can't be judged.
    KeepingRule,
    /// A requirement is for block type 0.
    RequirementForType0,
    /// A requirement keeps what lacks the operation.
    KeepingRequirement,
    /// No requirement is of the service that is named.
    NoRequirement,
    /// A key is named nowhere.
    UnusedKey,
    /// An earlier key has the same bytes.
    EqualKey,
    /// An item seals several targets under one vector.
    SharedVector,
    /// The scope of an item lacks the primary block.
    UnboundItem,
    /// The vector of an item hasn't 12 bytes.
    VectorLength,
    /// The ring lacks a key that an item names.
    UnknownKeyOfItem,
}

impl Finding {
    /// How the line begins.
    #[tactic(auto, unfolding(crate::specs::Lines::front))]
    fn front(self) -> &'static [u8]
        ensures { result.now ≡ front self }
    {
        match self {
            Finding::DeadRule => b"dead rule=",
            Finding::KeylessRule => b"no-key rule=",
            Finding::UnknownKeyOfRule => b"unknown-key rule=",
            Finding::KeyLength => b"key-length rule=",
            Finding::RuleForType0 => b"type-0 rule=",
            Finding::KeepingRule => b"keeps rule=",
            Finding::RequirementForType0 => b"type-0 requirement=",
            Finding::KeepingRequirement => b"keeps requirement=",
            Finding::NoRequirement => b"no-requirement service=",
            Finding::UnusedKey => b"unused key=",
            Finding::EqualKey => b"equal key=",
            Finding::SharedVector => b"shared-vector item=",
            Finding::UnboundItem => b"unbound item=",
            Finding::VectorLength => b"vector-length item=",
            Finding::UnknownKeyOfItem => b"unknown-key item=",
        }
    }

    /// What stands between two names.
    #[tactic(auto, unfolding(crate::specs::Lines::link))]
    fn link(self) -> &'static [u8]
        ensures { result.now ≡ link self }
    {
        match self {
            Finding::DeadRule => b" by=",
            Finding::EqualKey => b" to=",
            _ => b" key=",
        }
    }
}

#[tactic(auto, unfolding(crate::specs::Lines::line))]
fn line(alloc: Global, finding: Finding, name: &[u8]) -> Result<Bytes, NoMemory>
    ensures { IfOk result (λ text. text ≡ line finding name.now) }
{
    let mut text = Bytes::new(alloc);
    text.extend(finding.front())?;
    text.extend(name)?;
    Ok(text)
}

#[tactic(auto, unfolding(crate::specs::Lines::line_of_two))]
fn line_of_two(
    alloc: Global,
    finding: Finding,
    name: &[u8],
    other: &[u8],
) -> Result<Bytes, NoMemory>
    ensures { IfOk result (λ text. text ≡ line_of_two finding name.now other.now) }
{
    let mut text = Bytes::new(alloc);
    text.extend(finding.front())?;
    text.extend(name)?;
    text.extend(finding.link())?;
    text.extend(other)?;
    Ok(text)
}

/// The line of what has this name, where something holds.
#[tactic(auto, unfolding(crate::specs::Lines::line_if))]
pub(crate) fn add_if(
    alloc: Global,
    holds: bool,
    finding: Finding,
    name: &[u8],
    lines: &mut List<Bytes>,
) -> Result<(), NoMemory>
    ensures { OnOk result (lines.new ≡ lines.old ++ line_if holds (line finding name.now)) }
{
    if holds {
        return lines.append(line(alloc, finding, name)?);
    }
    Ok(())
}

/// The line of two names.
pub(crate) fn add_of_two(
    alloc: Global,
    finding: Finding,
    name: &[u8],
    other: &[u8],
    lines: &mut List<Bytes>,
) -> Result<(), NoMemory>
    ensures { OnOk result (lines.new
        ≡ lines.old ++ line_of_two finding name.now other.now ∷ []) }
{
    lines.append(line_of_two(alloc, finding, name, other)?)
}
