//! Security operations.

ghost use Rattle.std.specs.Prelude.{◌≡◌};

use std::cmp::Ordering;

/// A security service (RFC 9172, section 1.1).
#[derive(Clone, Copy, Debug, PartialEq, Eq, PartialOrd, Ord)]
pub enum Service {
    /// Integrity, of a block integrity block.
    Bib,
    /// Confidentiality, of a block confidentiality block.
    Bcb,
}

impl Service {
    ghost use Rattle.bpsec_asb.specs.Operations.{block_type};

    /// The type of the blocks that hold its operations (section 11.1).
    pub fn block_type(self) -> u64
        ensures { result ≡ block_type self }
    {
        match self {
            Service::Bib => 11,
            Service::Bcb => 12,
        }
    }
}

/// A security operation: a service that a security block applies to a target (RFC 9172, section 1.4). Operations are in
/// the order of service, block, target.
#[derive(Clone, Copy, Debug, PartialEq, Eq)]
pub struct OpId {
    pub service: Service,
    /// The number of the security block.
    pub block: u64,
    /// The number of the target block; 0 is the primary block.
    pub target: u64,
}

impl Ord for OpId {
    ghost use Rattle.std.proofs.Common.{rules};
    ghost use Rattle.std.specs.Cmp.Rules.{comparing};
    ghost use Rattle.bpsec_asb.specs.Order.{op_cmp};

    ghost cmp = { op_cmp };

    ghost total = { Prim.search (comparing, rules) };

    ghost matches_partial_cmp = { Prim.search (comparing, rules) };

    ghost matches_eq = { Prim.search (comparing, rules) };

    fn cmp(&self, other: &OpId) -> Ordering {
        let service = (self.service as u8).cmp(&(other.service as u8));
        service
            .then(self.block.cmp(&other.block))
            .then(self.target.cmp(&other.target))
    }
}

impl PartialOrd for OpId {
    ghost use Rattle.std.proofs.Common.{rules};
    ghost use Rattle.std.specs.Cmp.{partial_order_from_own_ties};
    ghost use Rattle.std.specs.Cmp.Rules.{comparing};
    ghost use Rattle.std.specs.Ordering.{as_partial_cmp};
    ghost use Rattle.bpsec_asb.specs.Order.{op_cmp};

    ghost partial_cmp = { as_partial_cmp op_cmp };

    ghost laws = { partial_order_from_own_ties (Prim.search (comparing, rules)) (Prim.search (comparing, rules)) };

    fn partial_cmp(&self, other: &OpId) -> Option<Ordering> {
        Some(self.cmp(other))
    }
}
