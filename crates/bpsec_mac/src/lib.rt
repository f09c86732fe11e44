//! A code of AES-CMAC added to a bundle: a block integrity block of context -1 on one target (RFC 9172, section 3.7), with the
//! reasons of plans against it.
#![tactic(auto)]

mod adding;
mod item;
mod refusal;

pub use adding::add_mac;
pub use bpsec_facts::{PlanFault, PlanReason};
pub use item::MacItem;
