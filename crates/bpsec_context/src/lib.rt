//! Security contexts: BIB-HMAC-SHA2 and BCB-AES-GCM (RFC 9173), and what any context has to keep. No call takes memory.
#![tactic(auto)]

mod cipher;
mod gcm_context;
mod gcm_parameters;
mod hmac_code;
mod hmac_context;
mod hmac_parameters;
mod integrity;
mod judgement;
mod keys;
pub mod laws;
mod opening;
mod pair_suite;
mod pairs;
mod sealer;
mod service;
mod suite;
mod values;

pub use cipher::CipherContext;
pub use gcm_context::GcmContext;
pub use hmac_context::HmacContext;
pub use integrity::IntegrityContext;
pub use judgement::{Judgement, MissetReason};
pub use pair_suite::{DefaultSuite, PairSuite};
pub use service::ServiceOf;
pub use suite::Suite;
