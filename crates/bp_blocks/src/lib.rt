//! Canonical blocks of a bundle, and the bodies of the three extension blocks that RFC 9171 defines.
#![tactic(auto)]

mod block;
mod bodies;
mod counted;
pub mod laws;

pub use block::{Block, block_with};
pub use bodies::{BodyFault, Hops, age, hop_count, previous_node, put_age, put_hops};
pub use bp_crc::{CheckKind, Feed};
