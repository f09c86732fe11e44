//! Plans applied to bundles (RFC 9172, section 3; RFC 9173, sections 3 and 4): the refusals in their order, and the secured
//! bundle.
#![tactic(auto)]

mod adding;
pub mod laws;
mod parameters;
mod sealing;
mod securing;
mod signing;

pub use bpsec_facts::{PlanFault, PlanReason, Refusal};
pub use securing::secure;
