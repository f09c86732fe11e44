//! The items of the arrays of a security block: targets, pairs, and the results of one target.

ghost use Rattle.std.specs.Prelude.{◌≡◌, ◌++◌, [], ◌∷◌, List, length, take, Ok, IfOk, OnOk, OnErr};
ghost use Rattle.cbor_profile.specs.Step.{Stands, Gives};
ghost use Rattle.bpsec_asb.specs.SecurityBlock.{array};
ghost use Rattle.bpsec_asb.specs.Reading.{count_at, each_at, array_at};
ghost use Rattle.bpsec_asb.specs.Step.{Fails};

use bp_eid::reading::{head, stops};
use bp_eid::{ReadError, Stop};
use cbor_profile::{Bytes, List, NoMemory, Reason, put_array};
use std::alloc::Global;

/// An item of an array.
pub(crate) trait Part: Drop {
    ghost use Rattle.std.specs.Prelude.{ℕ, List, Result};
    ghost use Rattle.bp_eid.specs.declared.stop.Stop.{Stop};

    /// How it is spelled.
    ghost spelled: { Self → List ℕ };

    /// How it is read, after the items before it.
    ghost read_at: { List Self → List ℕ → Result (Self × List ℕ) Stop };

    /// Appends the spelling, or for want of memory a part of it.
    fn put(&self, out: &mut Bytes) -> Result<(), NoMemory>
        ensures ok { OnOk result (out.new ≡ out.old ++ spelled self.now) }
        ensures err { OnErr result (take (length out.old) out.new ≡ out.old) };

    /// The same item again.
    fn copy(&self, alloc: Global) -> Result<Self, NoMemory>
        ensures { IfOk result (λ copy. copy ≡ self.now) };

    /// Reads the item at the front, after the items before it.
    fn read<'a>(
        alloc: Global,
        before: &[Self],
        bytes: &'a [u8],
    ) -> Result<(Self, &'a [u8]), ReadError>
        ensures { Gives Fails (λ x. (x.0, x.1.now)) result (read_at before.now bytes.now) };
}

/// Appends an array, or for want of memory a part of it.
pub(crate) fn put_all<T: Part>(items: &[T], out: &mut Bytes) -> Result<(), NoMemory>
    ensures ok { OnOk result (out.new ≡ out.old ++ array T.spelled items.now) }
    ensures err { OnErr result (take (length out.old) out.new ≡ out.old) }
{
    put_array(out, items.len() as u64)?;
    for item in items {
        item.put(out)?;
    }
    Ok(())
}

/// The same items again.
pub(crate) fn copy_all<T: Part>(alloc: Global, items: &[T]) -> Result<List<T>, NoMemory>
    ensures { IfOk result (λ copy. copy ≡ items.now) }
{
    let mut copies = List::new(alloc);
    for item in items {
        let copy = item.copy(alloc)?;
        copies.append(copy)?;
    }
    Ok(copies)
}

/// The head of an array of so many items.
#[tactic(auto, unfolding(crate::specs::Reading::count_at))]
fn count(least: u64, most: u64, bytes: &[u8]) -> Result<(u64, &[u8]), Stop>
    ensures { Stands (λ x. (x.0, x.1.now)) result (count_at least most bytes.now) }
{
    let (head, rest) = head(bytes, &[4])?;
    if head.value < least || most < head.value {
        return Err(stops(bytes, Reason::WrongCount));
    }
    Ok((head.value, rest))
}

/// So many items.
#[tactic(auto, unfolding(crate::specs::Reading::each_at))]
fn each<T: Part>(alloc: Global, count: u64, bytes: &[u8]) -> Result<(List<T>, &[u8]), ReadError>
    ensures { Gives Fails (λ x. (x.0, x.1.now)) result (each_at T.read_at count [] bytes.now) }
{
    let mut items = List::new(alloc);
    let mut rest = bytes;
    for _ in 0..count {
        let (item, after) = T::read(alloc, items.items(), rest)?;
        items.append(item)?;
        rest = after;
    }
    Ok((items, rest))
}

/// An array of so many items.
pub(crate) fn read_all<T: Part>(
    alloc: Global,
    least: u64,
    most: u64,
    bytes: &[u8],
) -> Result<(List<T>, &[u8]), ReadError>
    ensures { Gives Fails (λ x. (x.0, x.1.now)) result (array_at T.read_at least most bytes.now) }
{
    let (count, rest) = count(least, most, bytes)?;
    each(alloc, count, rest)
}
