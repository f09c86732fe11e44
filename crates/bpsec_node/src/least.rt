//! What is looked for at the beginning of a session.

ghost use Rattle.std.specs.Prelude.{◌≡◌, ◌==◌, ◌&&◌, None};
ghost use Rattle.bpsec_node.specs.Least.{smaller, smaller_fault, least_broken, is_double, least_double, is_other, least_block, double_of};

use crate::held::Held;
use bpsec_asb::OpId;
use cbor_profile::Fault;

/// The smaller of two numbers.
fn smaller(best: Option<u64>, number: u64) -> Option<u64>
    ensures { result ≡ smaller best number }
{
    match best {
        Some(best) if best <= number => Some(best),
        _ => Some(number),
    }
}

/// Of two security blocks that can't be read, the one of smaller number.
fn smaller_fault(best: Option<(u64, Fault)>, held: &Held) -> Option<(u64, Fault)>
    ensures { result ≡ smaller_fault best held.now.number held.now.read }
{
    match &held.read {
        Ok(_) => best,
        Err(fault) => match best {
            Some(best) if best.0 <= held.number => Some(best),
            _ => Some((held.number, *fault)),
        },
    }
}

/// The least number of a security block that can't be read, with its first fault.
pub(crate) fn least_broken(held: &[Held]) -> Option<(u64, Fault)>
    ensures { result ≡ least_broken held.now }
{
    let mut best = None;
    for one in held {
        best = smaller_fault(best, one);
    }
    best
}

/// Whether another block covers the operation's target.
fn is_double(covers: &[OpId], op: OpId) -> bool
    ensures { result ≡ is_double covers.now op }
{
    covers.iter().any(|other| other.target == op.target && other.block != op.block)
}

/// The least target that two blocks cover.
fn least_double(covers: &[OpId]) -> Option<u64>
    ensures { result ≡ least_double covers.now }
{
    let mut best = None;
    for op in covers {
        if is_double(covers, *op) {
            best = smaller(best, op.target);
        }
    }
    best
}

/// Whether the number is another one.
fn is_other(other: Option<u64>, block: u64) -> bool
    ensures { result ≡ is_other other block }
{
    match other {
        Some(other) => block != other,
        None => true,
    }
}

/// The least number of a block that covers the target, other than one.
fn least_block(covers: &[OpId], target: u64, other: Option<u64>) -> Option<u64>
    ensures { result ≡ least_block covers.now target other }
{
    let mut best = None;
    for op in covers {
        if op.target == target && is_other(other, op.block) {
            best = smaller(best, op.block);
        }
    }
    best
}

/// The least target that two blocks cover, and the two least numbers of these.
pub(crate) fn double_of(covers: &[OpId]) -> Option<(u64, u64, u64)>
    ensures { result ≡ double_of covers.now }
{
    let target = match least_double(covers) {
        Some(target) => target,
        None => return None,
    };
    let first = match least_block(covers, target, None) {
        Some(first) => first,
        None => return None,
    };
    match least_block(covers, target, Some(first)) {
        Some(second) => Some((target, first, second)),
        None => None,
    }
}
