//! Services of contexts.

/// Which service the context of an id has.
#[derive(Clone, Copy, Debug, PartialEq, Eq)]
pub enum ServiceOf {
    Integrity,
    Confidentiality,
    /// The suite doesn't serve the id.
    Unknown,
}
