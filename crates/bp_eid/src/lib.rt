//! Endpoint ids of the bundle protocol (RFC 9171, section 4.2.5): their spelling, their text, and their node.
#![tactic(auto)]

mod dtn_text;
mod eid;
pub mod laws;
pub mod reading;
mod stop;
mod text;
mod writing;

pub use dtn_text::DtnText;
pub use eid::Eid;
pub use reading::EidAt;
pub use stop::{ReadError, Stop};
pub use text::number_of;
