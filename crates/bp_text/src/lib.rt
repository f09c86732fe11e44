//! What the JSON texts of this repository have in common: the tree that a text is read as, its fields, the first of
//! several faults, and lists of named entries. The kinds of text and the order of their reasons are this project's own.
#![tactic(auto)]

mod entries;
mod fault;
mod field;
mod kept;
pub mod laws;
mod names;
mod shape;
mod top;
mod tree;

pub use entries::{Entry, read_entries};
pub use fault::{FieldFault, TextError, TextFault, TextReason};
pub use field::{
    eid_field, flag_field, hex_field, list_field, number_field, signed_field, values_of, word_field,
};
pub use kept::{Field, optional};
pub use names::Names;
pub use shape::{Kind, has, has_only, is_name, may_have};
pub use top::{is_short, version_field};
pub use tree::{TEXT_LIMIT, read_tree, refused};
