//! Lists that a session keeps.

ghost use Rattle.std.specs.Prelude.{◌≡◌, ◌≤◌, ◌+◌, ◌-◌, ◌==◌, ◌++◌, ◌∷◌, [], map, take, length, IfOk, OnOk, OnErr, option_to_list};
ghost use Rattle.std.specs.Option.{option_copied};
ghost use Rattle.bpsec_asb.specs.Known.{operation};
ghost use Rattle.bpsec_asb.specs.declared.operation.Service.TheVariants.{Bib};
ghost use Rattle.bpsec_node.specs.Situation.{is_op, is_among};
ghost use Rattle.bpsec_node.specs.Session.{has, find_held};
ghost use Rattle.bpsec_node.specs.Lists.{without_op, without_number, new_ops, clear_of, ready_among};

use crate::event::Verdict;
use crate::held::Held;
use bpsec_asb::{OpId, Service};
use cbor_profile::{Bytes, List, NoMemory};
use std::alloc::Global;
use std::collections::BTreeSet;
use std::mem;

/// Whether the number is among these.
pub(crate) fn has(numbers: &[u64], number: u64) -> bool
    ensures { result ≡ has numbers.now number }
{
    numbers.iter().any(|n| *n == number)
}

/// Whether both are the same operation.
pub(crate) fn same_op(one: OpId, other: OpId) -> bool
    ensures { result ≡ is_op one other }
{
    let service = match (one.service, other.service) {
        (Service::Bib, Service::Bib) | (Service::Bcb, Service::Bcb) => true,
        _ => false,
    };
    service && one.block == other.block && one.target == other.target
}

/// Whether the operation is among these.
pub(crate) fn is_among(ops: &[OpId], op: OpId) -> bool
    ensures { result ≡ is_among ops.now op }
{
    ops.iter().any(|other| same_op(op, *other))
}

/// The security block with this number, if it was read.
pub(crate) fn find_held(held: &[Held], number: u64) -> Option<&Held>
    ensures { option_copied result ≡ find_held held.now number }
{
    held.iter().find(|h| h.number == number)
}

/// These operations without one.
fn ops_without(mut ops: Vec<OpId>, op: OpId) -> Vec<OpId>
    ensures { result.items ≡ without_op op ops.items }
{
    ops.retain(|other| !same_op(op, *other));
    ops
}

/// These numbers without one.
pub(crate) fn numbers_without(mut numbers: Vec<u64>, number: u64) -> Vec<u64>
    ensures { result.items ≡ without_number number numbers.items }
{
    numbers.retain(|n| *n != number);
    numbers
}

/// Takes an operation out. Takes no memory.
pub(crate) fn take_op(alloc: Global, ops: &mut List<OpId>, op: OpId)
    ensures { ops.new ≡ without_op op ops.old }
{
    let all = mem::replace(ops, List::new(alloc));
    *ops = List::of(ops_without(all.into_vec(), op));
}

/// Takes a number out. Takes no memory.
pub(crate) fn take_number(alloc: Global, numbers: &mut List<u64>, number: u64)
    ensures { numbers.new ≡ without_number number numbers.old }
{
    let all = mem::replace(numbers, List::new(alloc));
    *numbers = List::of(numbers_without(all.into_vec(), number));
}

/// These operations again without one.
fn copied_without(alloc: Global, ops: &[OpId], op: OpId) -> Result<List<OpId>, NoMemory>
    ensures { IfOk result (λ kept. kept ≡ without_op op ops.now) }
{
    let mut kept = List::of(Vec::from_slice(alloc, ops)?);
    take_op(alloc, &mut kept, op);
    Ok(kept)
}

/// Appends the operations of an integrity block on these targets.
fn append_ops(ops: &mut List<OpId>, block: u64, targets: &[u64]) -> Result<(), NoMemory>
    ensures { OnOk result (ops.new ≡ ops.old ++ map (operation Bib block) targets.now) }
{
    for target in targets {
        let op = OpId {
            service: Service::Bib,
            block,
            target: *target,
        };
        ops.append(op)?;
    }
    Ok(())
}

/// Appends the operations of an integrity block, if it could be read.
pub(crate) fn append_new(ops: &mut List<OpId>, held: &Option<Held>) -> Result<(), NoMemory>
    ensures { OnOk result (ops.new ≡ ops.old ++ new_ops held.now) }
{
    match held {
        Some(
            Held {
                number,
                read: Ok(asb),
            },
        ) => append_ops(ops, *number, asb.targets.items()),
        _ => Ok(()),
    }
}

/// These operations without one, and with those of an integrity block that was read.
pub(crate) fn open_after(
    alloc: Global,
    ops: &[OpId],
    op: OpId,
    held: &Option<Held>,
) -> Result<List<OpId>, NoMemory>
    ensures { IfOk result (λ after. after ≡ without_op op ops.now ++ new_ops held.now) }
{
    let mut after = copied_without(alloc, ops, op)?;
    append_new(&mut after, held)?;
    Ok(after)
}

/// Whether neither block nor target of an integrity operation is among these numbers.
fn is_clear_of(numbers: &[u64], op: OpId) -> bool
    ensures { result ≡ clear_of numbers.now op }
{
    match op.service {
        Service::Bcb => true,
        Service::Bib => !has(numbers, op.block) && !has(numbers, op.target),
    }
}

/// Those of these operations that wait for no block of these numbers, in order.
pub(crate) fn ready_among(
    alloc: Global,
    numbers: &[u64],
    ops: &[OpId],
) -> Result<List<OpId>, NoMemory>
    ensures { IfOk result (λ ready. ready ≡ ready_among numbers.now ops.now) }
{
    let mut ready = BTreeSet::new(alloc);
    for op in ops {
        if is_clear_of(numbers, *op) {
            ready.insert(*op)?;
        }
    }
    Ok(List::of(ready.into_iter().collect(alloc)?))
}

/// These numbers again, with one more where there is one.
pub(crate) fn numbers_with(
    alloc: Global,
    numbers: &[u64],
    more: Option<u64>,
) -> Result<List<u64>, NoMemory>
    ensures { IfOk result (λ after. after ≡ numbers.now ++ option_to_list more) }
{
    let mut after = List::of(Vec::from_slice(alloc, numbers)?);
    if let Some(number) = more {
        after.append(number)?;
    }
    Ok(after)
}

/// Keeps the first items alone.
fn cut<T: Drop>(items: &mut List<T>, len: usize)
    requires { len + 1 ≡ length items.old }
    ensures { items.new ≡ take len items.old }
{
    let _item = items.remove(len);
}

/// Appends an operation, its key and its verdict, or for want of memory nothing.
pub(crate) fn note(
    done: &mut List<OpId>,
    keys: &mut List<Option<Bytes>>,
    verdicts: &mut List<Verdict>,
    op: OpId,
    key: Option<Bytes>,
    verdict: Verdict,
) -> Result<(), NoMemory>
    ensures done { OnOk result (done.new ≡ done.old ++ op ∷ []) }
    ensures keys { OnOk result (keys.new ≡ keys.old ++ key ∷ []) }
    ensures verdicts { OnOk result (verdicts.new ≡ verdicts.old ++ verdict ∷ []) }
    ensures done_stays { OnErr result (done.new ≡ done.old) }
    ensures keys_stay { OnErr result (keys.new ≡ keys.old) }
    ensures verdicts_stay { OnErr result (verdicts.new ≡ verdicts.old) }
{
    let count = done.items().len();
    done.append(op)?;
    let keyed = keys.items().len();
    if let Err(error) = keys.append(key) {
        cut(done, count);
        return Err(error);
    }
    if let Err(error) = verdicts.append(verdict) {
        cut(keys, keyed);
        cut(done, count);
        return Err(error);
    }
    Ok(())
}

/// Appends a security block where there is one, and an operation with its key and its verdict, or for want of memory nothing.
pub(crate) fn keep(
    held: &mut List<Held>,
    done: &mut List<OpId>,
    keys: &mut List<Option<Bytes>>,
    verdicts: &mut List<Verdict>,
    more: Option<Held>,
    op: OpId,
    key: Option<Bytes>,
    verdict: Verdict,
) -> Result<(), NoMemory>
    ensures held { OnOk result (held.new ≡ held.old ++ option_to_list more) }
    ensures done { OnOk result (done.new ≡ done.old ++ op ∷ []) }
    ensures keys { OnOk result (keys.new ≡ keys.old ++ key ∷ []) }
    ensures verdicts { OnOk result (verdicts.new ≡ verdicts.old ++ verdict ∷ []) }
    ensures held_stays { OnErr result (held.new ≡ held.old) }
    ensures done_stays { OnErr result (done.new ≡ done.old) }
    ensures keys_stay { OnErr result (keys.new ≡ keys.old) }
    ensures verdicts_stay { OnErr result (verdicts.new ≡ verdicts.old) }
{
    note(done, keys, verdicts, op, key, verdict)?;
    match more {
        Some(one) => keep_held(held, done, keys, verdicts, one),
        None => Ok(()),
    }
}

/// Appends a security block, or for want of memory takes what was noted last away again.
fn keep_held(
    held: &mut List<Held>,
    done: &mut List<OpId>,
    keys: &mut List<Option<Bytes>>,
    verdicts: &mut List<Verdict>,
    one: Held,
) -> Result<(), NoMemory>
    requires done { 1 ≤ length done.old }
    requires keys { 1 ≤ length keys.old }
    requires verdicts { 1 ≤ length verdicts.old }
    ensures held { OnOk result (held.new ≡ held.old ++ one ∷ []) }
    ensures done { OnOk result (done.new ≡ done.old) }
    ensures keys { OnOk result (keys.new ≡ keys.old) }
    ensures verdicts { OnOk result (verdicts.new ≡ verdicts.old) }
    ensures held_stays { OnErr result (held.new ≡ held.old) }
    ensures done_shorter { OnErr result (done.new ≡ take (length done.old - 1) done.old) }
    ensures keys_shorter { OnErr result (keys.new ≡ take (length keys.old - 1) keys.old) }
    ensures verdicts_shorter { OnErr result
        (verdicts.new ≡ take (length verdicts.old - 1) verdicts.old) }
{
    match held.append(one) {
        Ok(()) => Ok(()),
        Err(error) => {
            cut(done, done.items().len() - 1);
            cut(keys, keys.items().len() - 1);
            cut(verdicts, verdicts.items().len() - 1);
            Err(error)
        }
    }
}
