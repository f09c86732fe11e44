//! One side's stream in a session of the TCP convergence layer, version 4 (RFC 9174): its messages, and reading them from
//! bytes that come in any pieces.
#![tactic(auto)]

mod at;
mod fields;
pub mod laws;
mod message;
mod part;
mod reason;
mod stop;
mod stream;
mod writing;

pub use message::{Item, Message};
pub use reason::{LinkError, LinkReason};
pub use stop::Stop;
pub use stream::{Stream, Taken};

/// The most bytes of the extensions of a SESS_INIT or of a segment: 64 KiB.
pub const EXTENSIONS_LIMIT: u64 = 65_536;

/// The most bytes of a stream that are read: 128 MiB.
pub const INPUT_LIMIT: u64 = 134_217_728;
