//! Parameters and results.

ghost use Rattle.std.specs.Prelude.{◌≡◌, ◌++◌, Ok, IfOk, OnOk, OnErr, length, take};
ghost use Rattle.cbor_profile.specs.Step.{Gives};
ghost use Rattle.bpsec_asb.specs.SecurityBlock.{pair, pairs};
ghost use Rattle.bpsec_asb.specs.Reading.{value_at, pair_of, pairs_at};
ghost use Rattle.bpsec_asb.specs.Step.{Fails};

use crate::asb::Pair;
use crate::part::{Part, copy_all, put_all, read_all};
use bp_eid::ReadError;
use bp_eid::reading::{number, pair, stops};
use cbor_profile::{Bytes, ItemRead, List, NoMemory, Reason, item_at, put_array, put_uint};
use std::alloc::Global;

/// The most parameters, or results of one target.
pub(crate) const PAIR_LIMIT: u64 = 16;

/// These bytes again.
fn copied(alloc: Global, bytes: &[u8]) -> Result<Bytes, NoMemory>
    ensures { IfOk result (λ copy. copy ≡ bytes.now) }
{
    Ok(Bytes::of(Vec::from_slice(alloc, bytes)?))
}

/// The item at the front.
#[tactic(auto, unfolding(crate::specs::Reading::value_at))]
fn value(alloc: Global, bytes: &[u8]) -> Result<(Bytes, &[u8]), ReadError>
    ensures { Gives Fails (λ x. (x.0, x.1.now)) result (value_at bytes.now) }
{
    let reason = match item_at(bytes) {
        ItemRead::Whole { len } => {
            let (item, rest) = bytes.split_at(len);
            return Ok((copied(alloc, item)?, rest));
        }
        ItemRead::Short => Reason::Truncated,
        ItemRead::Bad => Reason::WrongKind,
        ItemRead::NotShortest => Reason::NotShortest,
        ItemRead::Deep => Reason::WrongValue,
    };
    Err(ReadError::Stop(stops(bytes, reason)))
}

/// The pair at the front.
#[tactic(auto, unfolding(crate::specs::Reading::pair_of))]
fn read_pair(alloc: Global, bytes: &[u8]) -> Result<(Pair, &[u8]), ReadError>
    ensures { Gives Fails (λ x. (x.0, x.1.now)) result (pair_of bytes.now) }
{
    let rest = pair(bytes)?;
    let (id, rest) = number(rest)?;
    let (value, rest) = value(alloc, rest)?;
    Ok((Pair { id, value }, rest))
}

/// Appends a pair, or for want of memory a part of it.
#[tactic(auto, unfolding(crate::specs::SecurityBlock::pair))]
fn put_pair(one: &Pair, out: &mut Bytes) -> Result<(), NoMemory>
    ensures ok { OnOk result (out.new ≡ out.old ++ pair one.now) }
    ensures err { OnErr result (take (length out.old) out.new ≡ out.old) }
{
    put_array(out, 2)?;
    put_uint(out, one.id)?;
    out.extend(one.value.as_slice())
}

impl Part for Pair {
    ghost spelled = { pair };

    ghost read_at = { λ _. pair_of };

    fn put(&self, out: &mut Bytes) -> Result<(), NoMemory> {
        put_pair(self, out)
    }

    fn copy(&self, alloc: Global) -> Result<Pair, NoMemory> {
        Ok(Pair {
            id: self.id,
            value: self.value.copy(alloc)?,
        })
    }

    fn read<'a>(
        alloc: Global,
        _before: &[Pair],
        bytes: &'a [u8],
    ) -> Result<(Pair, &'a [u8]), ReadError> {
        read_pair(alloc, bytes)
    }
}

impl Part for List<Pair> {
    ghost spelled = { pairs };

    ghost read_at = { λ _. pairs_at };

    fn put(&self, out: &mut Bytes) -> Result<(), NoMemory> {
        put_all(self.items(), out)
    }

    fn copy(&self, alloc: Global) -> Result<List<Pair>, NoMemory> {
        copy_all(alloc, self.items())
    }

    fn read<'a>(
        alloc: Global,
        _before: &[List<Pair>],
        bytes: &'a [u8],
    ) -> Result<(List<Pair>, &'a [u8]), ReadError> {
        read_all(alloc, 0, PAIR_LIMIT, bytes)
    }
}
