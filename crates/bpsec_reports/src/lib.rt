//! The jobs that report: `status`, on a bundle, and `audit`, on a policy or a plan.
#![tactic(auto)]

mod audit;
pub mod laws;
mod status;

pub use audit::{PlanAudit, PolicyAudit};
pub use status::StatusReport;
