//! The parameters and results of new security blocks, one by one.

ghost use Rattle.std.specs.Prelude.{◌≡◌, ◌++◌, ◌∷◌, [], IfOk, OnOk};
ghost use Rattle.bpsec_context.specs.Calls.{only_tag};
ghost use Rattle.bpsec_facts.specs.Left.{bytes_pair, number_pair};

use bpsec_asb::Pair;
use cbor_profile::{Bytes, List, NoMemory, put_bytes, put_uint};
use std::alloc::Global;

/// Adds a parameter that is a number.
pub fn add_number(
    alloc: Global,
    id: u64,
    number: u64,
    pairs: &mut List<Pair>,
) -> Result<(), NoMemory>
    ensures { OnOk result (pairs.new ≡ pairs.old ++ number_pair id number ∷ []) }
{
    let mut value = Bytes::new(alloc);
    put_uint(&mut value, number)?;
    pairs.append(Pair { id, value })
}

/// Adds a pair that is a byte string.
pub fn add_bytes(
    alloc: Global,
    id: u64,
    bytes: &[u8],
    pairs: &mut List<Pair>,
) -> Result<(), NoMemory>
    ensures { OnOk result (pairs.new ≡ pairs.old ++ bytes_pair id bytes.now ∷ []) }
{
    let mut value = Bytes::new(alloc);
    put_bytes(&mut value, bytes)?;
    pairs.append(Pair { id, value })
}

/// The one result [1, tag].
pub fn only_tag(alloc: Global, tag: &[u8]) -> Result<List<Pair>, NoMemory>
    ensures { IfOk result (λ results. results ≡ only_tag tag.now) }
{
    let mut results = List::new(alloc);
    add_bytes(alloc, 1, tag, &mut results)?;
    Ok(results)
}
