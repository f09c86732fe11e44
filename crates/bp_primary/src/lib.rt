//! The primary block of a bundle (RFC 9171, section 4.3.1).
#![tactic(auto)]

mod fragment;
pub mod laws;
mod parts;
mod primary;

pub use primary::{Piece, Primary};
