//! What a policy, a key ring or a plan does that its owner may not have meant: rules that never decide, keys that are nowhere,
//! block type 0 where the primary block was meant, one vector for several targets. Each finding is a line.
#![tactic(auto)]

mod findings;
mod items;
mod keys;
pub mod laws;
mod line;
mod reach;
mod rules;

pub use findings::{plan_findings, policy_findings};
pub use line::Finding;
