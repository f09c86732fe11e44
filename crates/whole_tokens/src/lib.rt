//! The law that a bundle's first fault stands at the end of whole tokens.
#![tactic(auto)]

pub mod laws;
