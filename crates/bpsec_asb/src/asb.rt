//! The body of a security block.

ghost use Rattle.std.specs.Prelude.{◌≡◌, ◌==◌, ◌<◌, ◌≤◌, ◌↔◌, Some, IsSome, IfSome};
ghost use Rattle.std.specs.Prelude.{length, remove, position, slice_get, Contains};

use bp_eid::Eid;
use cbor_profile::{Bytes, List};

/// A parameter or a result of a security context (RFC 9172, section 3.6): its id, and the one CBOR item that is its
/// value.
#[derive(Debug, Drop)]
pub struct Pair {
    pub id: u64,
    /// The bytes of the item, as they stand in the body.
    pub value: Bytes,
}

/// An abstract security block (RFC 9172, section 3.6).
#[derive(Debug, Drop)]
pub struct Asb {
    /// The numbers of the target blocks: 1 to 64, all distinct.
    pub targets: List<u64>,
    /// The id of the security context.
    pub context: i64,
    /// The security context flags. Bit 0 says that there are parameters.
    pub flags: u64,
    /// The security source.
    pub source: Eid,
    /// At most 16, and there exactly where bit 0 of the flags is set.
    pub parameters: Option<List<Pair>>,
    /// For each target, in the targets' order, at most 16 results.
    pub results: List<List<Pair>>,
}

impl Asb {
    ghost use Rattle.bpsec_asb.specs.SecurityBlock.{IsSecurityBlock};

    /// The index of a target, or None where it isn't listed. Takes no memory.
    pub fn place_of(&self, target: u64) -> Option<usize>
        ensures first { result ≡ position (λ listed. listed == target) self.now.targets }
        ensures means { IfSome result (λ index. slice_get self.now.targets index ≡ Some target) }
        ensures found { IsSome result ↔ Contains self.now.targets target }
    {
        self.targets
            .items()
            .iter()
            .position(|listed| *listed == target)
    }

    /// Takes out the target at an index with its results. All else stays. Takes no memory.
    pub fn drop_operation(&mut self, index: usize)
        requires several { 2 ≤ length self.old.targets }
        requires within { index < length self.old.targets }
        requires each { length self.old.results ≡ length self.old.targets }
        ensures stays { self.new
            ≡ record self.old { targets = remove self.old.targets index; results = remove self.old.results index } }
        ensures block { IsSecurityBlock self.old → IsSecurityBlock self.new }
    {
        self.targets.remove(index);
        self.results.remove(index);
    }
}
