//! Security policies and key rings, as values and as JSON texts. Their form is this project's own.
#![tactic(auto)]

mod entry;
pub mod laws;
mod policy;
mod policy_text;
mod put_text;
mod ring;
mod rule;
mod rule_text;
mod written;

pub use policy::{Policy, REQUIREMENT_LIMIT, RULE_LIMIT};
pub use ring::{KEY_LIMIT, KeyRing, NamedKey};
pub use rule::{
    Action, Patterns, Requirement, Role, Rule, RuleAt, TargetKind, is_among, same_id, same_kind,
    same_node, same_service,
};
