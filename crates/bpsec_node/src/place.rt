//! Places of events.

use bpsec_asb::{OpId, Service};
use std::cmp::Ordering;

/// Where an event stands. Places are in the order of target, service, block.
#[derive(Clone, Copy, Debug, PartialEq, Eq)]
pub(crate) struct Place {
    pub target: u64,
    pub service: Service,
    /// The number of the security block; 0 where an operation is missing.
    pub block: u64,
}

impl Ord for Place {
    ghost use Rattle.std.proofs.Common.{rules};
    ghost use Rattle.std.specs.Cmp.Rules.{comparing};
    ghost use Rattle.bpsec_node.specs.Events.{place_cmp};

    ghost cmp = { place_cmp };

    ghost total = { Prim.search (comparing, rules) };

    ghost matches_partial_cmp = { Prim.search (comparing, rules) };

    ghost matches_eq = { Prim.search (comparing, rules) };

    fn cmp(&self, other: &Place) -> Ordering {
        let service = (self.service as u8).cmp(&(other.service as u8));
        self.target
            .cmp(&other.target)
            .then(service)
            .then(self.block.cmp(&other.block))
    }
}

impl PartialOrd for Place {
    ghost use Rattle.std.proofs.Common.{rules};
    ghost use Rattle.std.specs.Cmp.{partial_order_from_own_ties};
    ghost use Rattle.std.specs.Cmp.Rules.{comparing};
    ghost use Rattle.std.specs.Ordering.{as_partial_cmp};
    ghost use Rattle.bpsec_node.specs.Events.{place_cmp};

    ghost partial_cmp = { as_partial_cmp place_cmp };

    ghost laws = { partial_order_from_own_ties (Prim.search (comparing, rules)) (Prim.search (comparing, rules)) };

    fn partial_cmp(&self, other: &Place) -> Option<Ordering> {
        Some(self.cmp(other))
    }
}
