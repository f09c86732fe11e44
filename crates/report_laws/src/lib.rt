//! Laws alone: what holds of the status reports that nodes make.
#![tactic(auto)]

pub mod laws;
