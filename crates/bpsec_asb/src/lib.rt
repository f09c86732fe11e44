//! Abstract security blocks (RFC 9172, section 3.6): the body of a block integrity block or a block confidentiality
//! block, and the security operations that the blocks of a bundle hold.
#![tactic(auto)]

mod asb;
mod covered;
mod known;
pub mod laws;
mod operation;
mod pair;
mod part;
mod reading;
mod target;
mod writing;

pub use asb::{Asb, Pair};
pub use covered::is_covered;
pub use known::operations;
pub use operation::{OpId, Service};
