//! The names that stood before, in an ordered set.

ghost use Rattle.std.specs.Prelude.{◌≡◌, ◌||◌, ℕ, List, not, false, IfOk, OnOk, OnErr};
ghost use Rattle.std.specs.Str.{bytes_eq};
ghost use Rattle.bp_text.specs.Names.{knows};

use cbor_profile::NoMemory;
use std::alloc::Global;
use std::collections::BTreeSet;

/// Names that stood before.
#[derive(Drop)]
pub struct Names {
    seen: BTreeSet<String>,
}

impl Names {
    /// No names. Takes no memory.
    pub fn new(alloc: Global) -> Names
        ensures { (name : List ℕ) → knows result name ≡ false }
    {
        Names {
            seen: BTreeSet::new(alloc),
        }
    }

    /// Notes a name, and answers whether it is new.
    pub fn note(&mut self, alloc: Global, name: &str) -> Result<bool, NoMemory>
        ensures is_new { IfOk result (λ fresh. fresh ≡ not (knows self.old name.now)) }
        ensures known { OnOk result ((other : List ℕ)
            → knows self.new other ≡ (bytes_eq name.now other || knows self.old other)) }
        ensures err { OnErr result ((other : List ℕ)
            → knows self.new other ≡ knows self.old other) }
    {
        let name = String::from_str(alloc, name)?;
        Ok(self.seen.insert(name)?)
    }
}
