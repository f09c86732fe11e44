//! A security context for private use (RFC 9172, section 11.3 leaves the negative ids to it): integrity by AES-CMAC. And a
//! suite that serves one more context for integrity than another suite. No call takes memory.
#![tactic(auto)]

mod also_suite;
mod cmac_context;
pub mod laws;
mod reading;

pub use also_suite::{AlsoSuite, CmacSuite, cmac_suite};
pub use cmac_context::CmacContext;
