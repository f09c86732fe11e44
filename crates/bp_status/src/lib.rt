//! Bundle status reports (RFC 9171, section 6.1.1): the administrative record, which is the payload of a report's bundle.
#![tactic(auto)]

pub mod laws;
mod parts;
mod reading;
mod report;
mod writing;

pub use report::{Assertion, Extent, Report};
