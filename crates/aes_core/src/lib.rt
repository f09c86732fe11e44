//! AES, the block cipher of FIPS 197, with keys of 128 and 256 bits. Nothing here takes memory.

#![tactic(auto)]

mod boxes;
mod cipher;
mod field;
mod inverse_keys;
mod key_expansion;
pub mod laws;
mod rounds;
mod sliced;
mod tables;
mod words;

pub use cipher::Aes;
pub use sliced::SlicedAes;
