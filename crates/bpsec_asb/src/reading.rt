//! Reading a security block, token by token.

ghost use Rattle.std.specs.Prelude.{◌≡◌, Ok, Err, IfOk};
ghost use Rattle.cbor_profile.specs.Step.{Stands, Gives};
ghost use Rattle.bpsec_asb.specs.Step.{Fails};
ghost use Rattle.bpsec_asb.specs.SecurityBlock.{Reads};
ghost use Rattle.bpsec_asb.specs.Reading.{Answers, context_at, parameters_at, asb_at, read_body};
ghost use Rattle.bpsec_asb.specs.declared.asb.Asb.{Asb};

use crate::asb::{Asb, Pair};
use crate::pair::PAIR_LIMIT;
use crate::part::read_all;
use bp_eid::reading::{head, id, number, stops};
use bp_eid::{ReadError, Stop};
use cbor_profile::{List, Reason, SpellError};
use std::alloc::Global;

/// The most targets.
const TARGET_LIMIT: u64 = 64;

/// The id of a security context.
#[tactic(auto, unfolding(crate::specs::Reading::context_at))]
fn context(bytes: &[u8]) -> Result<(i64, &[u8]), Stop>
    ensures { Stands (λ x. (x.0, x.1.now)) result (context_at bytes.now) }
{
    let (head, rest) = head(bytes, &[0, 1])?;
    if head.value >= 1 << 63 {
        return Err(stops(bytes, Reason::WrongValue));
    }
    let argument = head.value as i64;
    if head.major == 0 {
        Ok((argument, rest))
    } else {
        Ok((-1 - argument, rest))
    }
}

/// The parameters, where the flags say that there are some.
#[tactic(auto, unfolding(crate::specs::Reading::parameters_at))]
fn parameters(
    alloc: Global,
    flags: u64,
    bytes: &[u8],
) -> Result<(Option<List<Pair>>, &[u8]), ReadError>
    ensures { Gives Fails (λ x. (x.0, x.1.now)) result (parameters_at flags bytes.now) }
{
    if flags % 2 == 0 {
        return Ok((None, bytes));
    }
    let (parameters, rest) = read_all(alloc, 0, PAIR_LIMIT, bytes)?;
    Ok((Some(parameters), rest))
}

/// A security block at the front.
#[tactic(auto, unfolding(crate::specs::Reading::asb_at))]
fn front(alloc: Global, bytes: &[u8]) -> Result<(Asb, &[u8]), ReadError>
    ensures { Gives Fails (λ x. (x.0, x.1.now)) result (asb_at bytes.now) }
{
    let (targets, rest) = read_all::<u64>(alloc, 1, TARGET_LIMIT, bytes)?;
    let (context, rest) = context(rest)?;
    let (flags, rest) = number(rest)?;
    let (source, rest) = id(alloc, rest)?;
    let (parameters, rest) = parameters(alloc, flags, rest)?;
    let count = targets.items().len() as u64;
    let (results, rest) = read_all::<List<Pair>>(alloc, count, count, rest)?;
    let asb = Asb {
        targets,
        context,
        flags,
        source,
        parameters,
        results,
    };
    Ok((asb, rest))
}

/// The security block that the body is.
#[tactic(auto, unfolding(crate::specs::Reading::read_body, crate::specs::Reading::body_at))]
fn whole(alloc: Global, body: &[u8]) -> Result<Asb, SpellError>
    ensures { Answers result (read_body body.now) }
{
    let given = body.len();
    match front(alloc, body) {
        Ok((asb, [])) => Ok(asb),
        Ok((_, rest)) => Err(SpellError::Fault(stops(rest, Reason::Trailing).fault(given))),
        Err(ReadError::Stop(stop)) => Err(SpellError::Fault(stop.fault(given))),
        Err(ReadError::NoMemory) => Err(SpellError::NoMemory),
    }
}

impl Asb {
    /// Reads the body of a security block (RFC 9172, section 3.6), all of it. A fault is the first that reading from
    /// the left meets.
    pub fn read(alloc: Global, body: &[u8]) -> Result<Asb, SpellError>
        // What is read is spelled so.
        ensures means { IfOk result (Reads body.now) }
        // What is spelled so is read.
        ensures found { (asb : Asb) → Reads body.now asb → Answers result (Ok asb) }
        // Which fault it is.
        ensures exact { Answers result (read_body body.now) }
    {
        whole(alloc, body)
    }
}
