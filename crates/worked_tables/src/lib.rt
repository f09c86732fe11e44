//! Tables of worked cases: rows of texts, names that stand for texts, bytes in hexadecimal, and how a program runs them.
#![tactic(auto)]

mod answers;
mod bytes;
mod calls;
mod fields;
mod pieces;
mod tables;
mod trouble;

pub use answers::{hex, lines, spell_error, text};
pub use bytes::bytes_of;
pub use calls::{Calls, Told, answer, run_calls};
pub use fields::{Fields, named};
pub use pieces::feed_in_pieces;
pub use tables::{Ended, Tables, names_of, run_each};
pub use trouble::Trouble;
