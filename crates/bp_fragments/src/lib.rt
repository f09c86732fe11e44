//! Fragments of bundles (RFC 9171, sections 5.8 and 5.9): a bundle cut into fragments, and fragments joined to the bundle.
#![tactic(auto)]

mod alike;
mod assembly;
mod cut;
mod fault;
mod finish;
pub mod laws;
mod part;
mod payload;
mod refusal;
mod span;
mod spans;

pub use assembly::Assembly;
pub use cut::{CutFault, fragment};
pub use fault::{AddFault, FinishFault};
