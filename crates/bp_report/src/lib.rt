//! Which status report a node makes of a bundle (RFC 9171, section 6.1.1), from what became of it there.
#![tactic(auto)]

mod bundle;
mod flags;
mod reason;
mod status;
mod subject;

pub use reason::{ReasonCode, reason_of};
pub use subject::{Subject, report_of};
