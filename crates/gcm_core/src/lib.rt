//! AES-GCM (NIST SP 800-38D): bodies are enciphered and authenticated in place, with additional data that comes in
//! pieces. No call takes memory.
//!
//! A body is opened only under its tag; where the tag is wrong, the body stays as it is. Nothing is claimed of timing.
#![tactic(auto)]

mod counter;
mod gcm;
mod hash;
pub mod laws;
mod registers;
mod streams;
mod subkey;
mod tag;

pub use cbor_profile::Feed;
pub use gcm::Gcm;
