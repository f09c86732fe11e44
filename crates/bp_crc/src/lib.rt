//! The check values of a bundle's blocks: CRC-16 X-25 and CRC-32C, each the remainder of a long division of polynomials
//! over bits (RFC 9171, section 4.2.1).
#![tactic(auto)]

mod checking;
mod item;
mod kind;
pub mod laws;
mod sliced;
mod tables;
mod value;

pub use cbor_profile::Feed;
pub use checking::{CheckBytes, Checking};
pub use kind::CheckKind;
pub use value::Crc;
