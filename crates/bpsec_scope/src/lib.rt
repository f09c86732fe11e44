//! The bytes that a security operation covers (RFC 9173, sections 3.7 and 4.7.2), fed to whatever takes bytes. No call takes
//! memory.
#![tactic(auto)]

mod covered;
mod feeding;
mod header;
pub mod laws;
mod target;

pub use covered::Covered;
pub use feeding::{aad, ippt};
pub use header::Header;
pub use target::TargetOf;
