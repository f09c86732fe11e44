//! The CBOR profile of the bundle protocol's encoding (RFC 8949, deterministic form), and the small types that every
//! crate above shares: byte strings, lists, want of memory, and what takes bytes piece by piece.
#![tactic(auto)]

mod bytes;
mod fault;
mod feed;
mod feeding;
mod head;
mod item;
pub mod laws;
mod list;
mod memory;
mod put;

pub use bytes::Bytes;
pub use fault::{Fault, Reason, SpellError, head_of_token};
pub use feed::{Feed, Gather};
pub use feeding::{feed_array, feed_bytes, feed_text, feed_uint, uint_size};
pub use head::{Head, HeadBytes, HeadRead, head_at, head_bytes};
pub use item::{ItemRead, item_at};
pub use list::List;
pub use memory::NoMemory;
pub use put::{put_array, put_bool, put_bytes, put_int, put_text, put_uint};

/// The most bytes that the spelling of a bundle has here: 16 MiB.
pub const BUNDLE_LIMIT: u64 = 16_777_216;
