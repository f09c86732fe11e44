//! Endpoint ids.

ghost use Rattle.std.specs.Prelude.{◌≡◌, ◌↔◌, IsTrue, IfOk};
ghost use Rattle.bp_eid.specs.EndpointId.{Fits, SameNode};

use crate::dtn_text::DtnText;
use cbor_profile::NoMemory;
use std::alloc::Global;

/// An endpoint id (RFC 9171, section 4.2.5).
#[derive(Debug, PartialEq, Eq, Drop)]
pub enum Eid {
    /// The null id, `dtn:none`.
    Null,
    /// An id of the scheme dtn.
    Dtn(DtnText),
    /// An id of the scheme ipn.
    Ipn { node: u64, service: u64 },
}

impl Eid {
    /// The same id again.
    pub fn copy(&self, alloc: Global) -> Result<Eid, NoMemory>
        ensures same { IfOk result (λ copy. copy ≡ self.now) }
        ensures fits { Fits self.now }
    {
        match self {
            Eid::Null => Ok(Eid::Null),
            Eid::Dtn(text) => Ok(Eid::Dtn(text.copy(alloc)?)),
            Eid::Ipn { node, service } => Ok(Eid::Ipn {
                node: *node,
                service: *service,
            }),
        }
    }

    /// Whether both are the same id, as `==` says. Takes no memory.
    pub fn is(&self, other: &Eid) -> bool
        ensures { IsTrue result ↔ (self.now ≡ other.now) }
    {
        self == other
    }

    /// Whether the two ids name endpoints of one node. Takes no memory.
    pub fn same_node(&self, other: &Eid) -> bool
        ensures { IsTrue result ↔ SameNode self.now other.now }
    {
        match (self, other) {
            (Eid::Ipn { node, .. }, Eid::Ipn { node: other, .. }) => node == other,
            (Eid::Dtn(text), Eid::Dtn(other)) => {
                let name = text.node_name();
                !name.is_empty() && name == other.node_name()
            }
            _ => false,
        }
    }
}
