//! The program, from its words to its status: `run` reads the words, fetches the named files, reads the input, does the
//! job, and delivers the answer. Each command is a row of the grammar; its job and the definition of that stand in
//! bpsec_jobs.
#![tactic(auto)]

mod command;
mod files;
mod grammar;
mod input;
pub mod laws;
mod program;
mod respond;
mod said;

pub use bpsec_answer::{Hindrance, PiecesReason, Reading, Refused, Status, Writing};
pub use program::run;
