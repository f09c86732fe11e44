//! The AES key wrap of RFC 3394, with the default initial value. Nothing here takes memory.

#![tactic(auto)]

pub mod laws;
mod registers;
mod wrapping;

pub use wrapping::{unwrap_into, wrap_into};
