//! Bundles as JSON texts, from which they are built. The form of the texts is this project's own.
#![tactic(auto)]

mod block;
mod build;
mod primary;

pub use build::{BLOCK_LIMIT, bundle_from_json};
