//! What a status report says.

use bp_eid::Eid;

/// Whether a node asserts one thing of a bundle (RFC 9171, section 6.1.1).
#[derive(Clone, Copy, Debug, PartialEq, Eq)]
pub enum Assertion {
    /// It doesn't.
    No,
    /// It does, and doesn't say when.
    Yes,
    /// It does, at this DTN time in milliseconds (section 4.2.6).
    At(u64),
}

/// Where the payload of a fragment stands in that of the whole bundle (section 6.1.1), in bytes.
#[derive(Clone, Copy, Debug, PartialEq, Eq)]
pub struct Extent {
    pub offset: u64,
    pub length: u64,
}

/// A bundle status report (section 6.1.1): what a node asserts of a bundle. Any two are of one bundle where their sources,
/// creation timestamps and extents are equal.
#[derive(Debug, PartialEq, Eq, Drop)]
pub struct Report {
    /// That the node received the bundle.
    pub received: Assertion,
    /// That it forwarded it.
    pub forwarded: Assertion,
    /// That it delivered it.
    pub delivered: Assertion,
    /// That it deleted it.
    pub deleted: Assertion,
    /// The reason code, of any value (section 9.5 lists those that are given a meaning).
    pub reason: u64,
    /// The source node of the bundle.
    pub source: Eid,
    /// The time of the bundle's creation timestamp (section 4.2.7).
    pub created: u64,
    /// The sequence number of that timestamp.
    pub sequence: u64,
    /// There where the bundle is a fragment.
    pub piece: Option<Extent>,
}
