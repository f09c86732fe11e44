//! What a plan meets in a bundle (RFC 9172, section 3): the bundle's known operations and its block integrity blocks, the first
//! reason against the plan, and what it leaves of the bundle's blocks.
#![tactic(auto)]

mod answer;
mod bibs;
mod case;
mod frames;
mod items;
mod keys;
mod overlaps;
mod pairs;
mod reason;
mod refusal;
mod splits;
mod table;
mod targets;

pub use answer::{bundle_of, too_long};
pub use bibs::{ResultBib, ShownBib, copied, result_bibs, shown_at, shown_bibs};
pub use case::Case;
pub use frames::{
    before_last, header_of, new_asb, new_block, new_header, short_block_at, signed_covered,
};
pub use items::{is_cipher, is_in, targets_of};
pub use keys::key_named;
pub use pairs::{add_bytes, add_number, only_tag};
pub use reason::{PlanFault, PlanReason, Refusal};
pub use refusal::{early_refusal, nowhere, too_many, unreadable};
pub use splits::{blocks_left, body_of, narrowed_body, primary_left};
pub use table::first_of;
