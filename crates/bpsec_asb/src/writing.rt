//! Writing a security block.

ghost use Rattle.std.specs.Prelude.{◌≡◌, ◌++◌, length, take, OnOk, OnErr, IfOk};
ghost use Rattle.bpsec_asb.specs.SecurityBlock.{parameters_item};

use crate::asb::{Asb, Pair};
use crate::part::{copy_all, put_all};
use cbor_profile::{Bytes, List, NoMemory, put_int, put_uint};
use std::alloc::Global;

/// Appends the parameters, where there are some, or for want of memory a part of them.
fn put_parameters(parameters: &Option<List<Pair>>, out: &mut Bytes) -> Result<(), NoMemory>
    ensures ok { OnOk result (out.new ≡ out.old ++ parameters_item parameters.now) }
    ensures err { OnErr result (take (length out.old) out.new ≡ out.old) }
{
    match parameters {
        Some(parameters) => put_all(parameters.items(), out),
        None => Ok(()),
    }
}

/// The same parameters again.
fn copy_parameters(
    alloc: Global,
    parameters: &Option<List<Pair>>,
) -> Result<Option<List<Pair>>, NoMemory>
    ensures { IfOk result (λ copy. copy ≡ parameters.now) }
{
    match parameters {
        Some(parameters) => Ok(Some(copy_all(alloc, parameters.items())?)),
        None => Ok(None),
    }
}

impl Asb {
    ghost use Rattle.bpsec_asb.specs.SecurityBlock.{spelling};

    /// Appends the spelling, or for want of memory a part of it.
    #[tactic(auto, unfolding(crate::specs::SecurityBlock::spelling))]
    fn append(&self, out: &mut Bytes) -> Result<(), NoMemory>
        ensures ok { OnOk result (out.new ≡ out.old ++ spelling self.now) }
        ensures err { OnErr result (take (length out.old) out.new ≡ out.old) }
    {
        put_all(self.targets.items(), out)?;
        put_int(out, self.context)?;
        put_uint(out, self.flags)?;
        self.source.put(out)?;
        put_parameters(&self.parameters, out)?;
        put_all(self.results.items(), out)
    }

    /// Appends the one spelling (RFC 9172, section 3.6), or leaves the bytes as they were for want of memory.
    pub fn put(&self, out: &mut Bytes) -> Result<(), NoMemory>
        ensures ok { OnOk result (out.new ≡ out.old ++ spelling self.now) }
        ensures err { OnErr result (out.new ≡ out.old) }
    {
        let before = out.len();
        let appended = self.append(out);
        out.settle(before, appended)
    }

    /// The same security block again.
    pub fn copy(&self, alloc: Global) -> Result<Asb, NoMemory>
        ensures { IfOk result (λ copy. copy ≡ self.now) }
    {
        Ok(Asb {
            targets: copy_all(alloc, self.targets.items())?,
            context: self.context,
            flags: self.flags,
            source: self.source.copy(alloc)?,
            parameters: copy_parameters(alloc, &self.parameters)?,
            results: copy_all(alloc, self.results.items())?,
        })
    }
}
