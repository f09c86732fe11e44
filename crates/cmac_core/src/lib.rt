//! AES-CMAC (RFC 4493; NIST SP 800-38B for keys of 256 bits). Messages come in pieces, however they are cut. No call takes
//! memory.
#![tactic(auto)]

mod cmac;
mod last;
pub mod laws;
mod subkeys;

pub use cbor_profile::Feed;
pub use cmac::Cmac;
