//! Bundles of the bundle protocol (RFC 9171, section 4): their shape, their spelling, and reading them from bytes that come
//! in any pieces.
#![tactic(auto)]

mod at;
mod block_header;
mod bodies;
mod bundle;
mod bundles;
mod cursor;
mod edits;
mod feeding;
mod front;
mod header;
mod in_turn;
pub mod laws;
mod parts;
mod reader;
mod run;
mod shape;
mod stage;
mod steps;
mod token;
mod whole_input;
mod window;

pub use bundle::Bundle;
pub use bundles::Bundles;
pub use edits::InsertFault;
pub use header::Header;
pub use reader::{Fed, Reader};
pub use shape::{ShapeFault, spelled_size};
pub use token::Token;
pub use whole_input::{InputFault, read_one};
