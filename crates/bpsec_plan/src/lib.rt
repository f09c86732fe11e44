//! Plans of the security blocks that are added to a bundle, as values and as JSON texts. Their form is this project's own.
#![tactic(auto)]

mod entry;
mod item;
mod plan;

pub use item::{Cover, Item, Split};
pub use plan::{ITEM_LIMIT, Plan};
