//! Parts of a status report, as they are read.

use crate::report::Assertion;
use bp_eid::Eid;

/// The status information.
#[derive(Clone, Copy)]
pub(crate) struct Asserted {
    pub(crate) received: Assertion,
    pub(crate) forwarded: Assertion,
    pub(crate) delivered: Assertion,
    pub(crate) deleted: Assertion,
}

/// What names the bundle.
#[derive(Drop)]
pub(crate) struct Subject {
    pub(crate) source: Eid,
    pub(crate) created: u64,
    pub(crate) sequence: u64,
}
