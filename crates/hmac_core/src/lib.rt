//! HMAC (RFC 2104) over any hash function, with SHA-256, SHA-384 and SHA-512 (FIPS 180-4). Messages come in pieces, however
//! they are cut. No call takes memory.
#![tactic(auto)]

mod front;
mod hash;
mod hmac;
mod sha;

pub use cbor_profile::Feed;
pub use hash::Hash;
pub use hmac::Hmac;
pub use sha::{Sha256, Sha384, Sha512};
