//! Laws over the findings of `bpsec_audit`: what follows for whoever leaves things as they are.
#![tactic(auto)]

pub mod laws;
