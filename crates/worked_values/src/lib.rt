//! What the rows of several programs are made of: ids, bundles, check types, and what a security context takes.
#![tactic(auto)]

mod bundles;
mod checks;
mod contexts;
mod ids;

pub use bundles::{bundle_of, bundle_text, read};
pub use checks::check_kind;
pub use contexts::{Asking, asked, handed, header, key_of, pairs, short_key, suite};
pub use ids::{eid, id_text};
