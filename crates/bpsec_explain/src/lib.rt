//! A bundle in lines of text: its blocks, its operations, and what each covers.
#![tactic(auto)]

mod blocks;
mod bodies;
mod covers;
mod primary;
mod security;
mod text;
mod whole;

pub use whole::explain;
