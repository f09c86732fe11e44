//! Polynomials over the field of two elements, and lists of bytes added bit by bit: what check values, authentication tags
//! and wrapped keys stand on.
#![tactic(auto)]

mod bytes;
pub mod laws;

pub use bytes::{add_bytes, same_bytes};
