//! A node of the bundle protocol's security (RFC 9172, section 5): the one outcome that a bundle has at a node, in whatever order
//! its operations are done.
#![tactic(auto)]

mod actions;
mod begin;
mod chooser;
mod close;
mod event;
mod held;
mod kept;
mod kept_blocks;
mod kept_events;
pub mod laws;
mod least;
mod lists;
mod opening;
mod outcome;
mod over;
mod place;
mod run;
mod session;
mod site;
mod step;

pub use begin::BeginFault;
pub use chooser::{Chooser, Digits};
pub use event::{Event, Verdict};
pub use outcome::Outcome;
pub use session::Session;
