//! Reading an endpoint id, token by token. The calls on tokens serve the readers of other items too.

ghost use Rattle.std.specs.Prelude.{◌≡◌, ◌≤◌, ◌++◌, ℕ, List, length, take, Ok, Err, Some, IfOk, IfSome, IsSomeAnd, OnErr};
ghost use Rattle.cbor_profile.specs.Step.{Stands};
ghost use Rattle.bp_eid.specs.Step.{GivesId, eid_of};
ghost use Rattle.bp_eid.specs.Reading.{Answers, head_at, pair_at, number_at, content_at, dtn_at, ipn_at, id_at, read_id};
ghost use Rattle.bp_eid.specs.EndpointId.{spelling, Fits, HasText};
ghost use Rattle.bp_eid.specs.declared.eid.Eid.{Eid};

use crate::dtn_text::{DtnText, TEXT_LIMIT, is_dtn_text};
use crate::eid::Eid;
use crate::laws::ids_are_read_as_spelled;
use crate::stop::{ReadError, Stop};
use cbor_profile::laws::tokens_are_read_as_spelled;
use cbor_profile::{Head, NoMemory, Reason, SpellError, head_of_token};
use std::alloc::Global;

/// An id at the front of a byte list.
#[derive(Debug, PartialEq, Eq, Drop)]
pub struct EidAt {
    pub eid: Eid,
    /// How many bytes spell the id.
    pub len: usize,
}

/// An id whose text, where it has one, still stands among the bytes that were read.
#[derive(Clone, Copy)]
pub(crate) enum Found<'a> {
    Null,
    Dtn(&'a [u8]),
    Ipn { node: u64, service: u64 },
}

/// The reason against a token at the front. Takes no memory.
pub fn stops(bytes: &[u8], reason: Reason) -> Stop
    ensures { result ≡ record { reason = reason; left = length bytes.now } }
{
    Stop {
        reason,
        left: bytes.len(),
    }
}

/// A head of one of these major types at the front (RFC 8949, section 3), and what follows it. Takes no memory.
pub fn head<'a>(bytes: &'a [u8], kinds: &[u8]) -> Result<(Head, &'a [u8]), Stop>
    ensures { Stands (λ x. (x.0, x.1.now)) result (head_at kinds.now bytes.now) }
{
    match head_of_token(bytes, kinds) {
        Ok(found) => Ok(found),
        Err(reason) => Err(stops(bytes, reason)),
    }
}

/// The head of an array of two items at the front: what follows it. Takes no memory.
#[tactic(auto, unfolding(crate::specs::Reading::pair_at))]
pub fn pair(bytes: &[u8]) -> Result<&[u8], Stop>
    ensures { Stands (λ x. x.now) result (pair_at bytes.now) }
{
    let (head, rest) = head(bytes, &[4])?;
    if head.value != 2 {
        return Err(stops(bytes, Reason::WrongCount));
    }
    Ok(rest)
}

/// An unsigned number at the front, and what follows it. Takes no memory.
#[tactic(auto, unfolding(crate::specs::Reading::number_at))]
pub fn number(bytes: &[u8]) -> Result<(u64, &[u8]), Stop>
    ensures { Stands (λ x. (x.0, x.1.now)) result (number_at bytes.now) }
{
    let (head, rest) = head(bytes, &[0])?;
    Ok((head.value, rest))
}

/// The content of a text string that is the text of a dtn id.
#[tactic(auto, unfolding(crate::specs::Reading::content_at))]
fn content(len: u64, bytes: &[u8]) -> Result<(&[u8], &[u8]), Stop>
    ensures { Stands (λ x. (x.0.now, x.1.now)) result (content_at len bytes.now) }
{
    let len = len as usize;
    if bytes.len() < len {
        return Err(stops(bytes, Reason::Truncated));
    }
    let (text, rest) = bytes.split_at(len);
    if !is_dtn_text(text) {
        return Err(stops(bytes, Reason::WrongText));
    }
    Ok((text, rest))
}

/// The part of the scheme dtn.
#[tactic(auto, unfolding(crate::specs::Reading::dtn_at))]
fn dtn(bytes: &[u8]) -> Result<(Found, &[u8]), Stop>
    ensures { Stands (λ x. (eid_of x.0, x.1.now)) result (dtn_at bytes.now) }
{
    let (head, rest) = head(bytes, &[0, 3])?;
    if head.major == 0 && head.value == 0 {
        return Ok((Found::Null, rest));
    }
    if head.major == 0 || head.value > TEXT_LIMIT as u64 {
        return Err(stops(bytes, Reason::WrongValue));
    }
    let (text, rest) = content(head.value, rest)?;
    Ok((Found::Dtn(text), rest))
}

/// The part of the scheme ipn.
#[tactic(auto, unfolding(crate::specs::Reading::ipn_at))]
fn ipn(bytes: &[u8]) -> Result<(Found, &[u8]), Stop>
    ensures { Stands (λ x. (eid_of x.0, x.1.now)) result (ipn_at bytes.now) }
{
    let rest = pair(bytes)?;
    let (node, rest) = number(rest)?;
    let (service, rest) = number(rest)?;
    Ok((Found::Ipn { node, service }, rest))
}

/// An id at the front, and what follows it.
#[tactic(auto, unfolding(crate::specs::Reading::id_at))]
fn find(bytes: &[u8]) -> Result<(Found, &[u8]), Stop>
    ensures { Stands (λ x. (eid_of x.0, x.1.now)) result (id_at bytes.now) }
{
    let rest = pair(bytes)?;
    let (scheme, part) = number(rest)?;
    match scheme {
        1 => dtn(part),
        2 => ipn(part),
        _ => Err(stops(rest, Reason::WrongValue)),
    }
}

/// The id with a text of its own.
fn owned(alloc: Global, found: Found) -> Result<Eid, NoMemory>
    requires { Fits (eid_of found) }
    ensures same { IfOk result (λ eid. eid ≡ eid_of found.entry) }
    ensures memory { OnErr result (HasText (eid_of found.entry)) }
{
    match found {
        Found::Null => Ok(Eid::Null),
        Found::Dtn(text) => Ok(Eid::Dtn(DtnText::copied(alloc, text)?)),
        Found::Ipn { node, service } => Ok(Eid::Ipn { node, service }),
    }
}

/// The id that the bytes are, one id and nothing more.
fn whole(bytes: &[u8]) -> Option<Found>
    ensures means { IfSome result
        (λ found. (bytes.now ≡ spelling (eid_of found)) × Fits (eid_of found)) }
    ensures found { (eid : Eid) → Fits eid → bytes.now ≡ spelling eid
        → IsSomeAnd result (λ found. eid_of found ≡ eid) }
{
    ids_are_read_as_spelled();
    match find(bytes) {
        Ok((found, [])) => Some(found),
        Ok(_) => None,
        Err(_) => None,
    }
}

/// An id at the front (RFC 9171, section 4.2.5), and what follows it.
pub fn id(alloc: Global, bytes: &[u8]) -> Result<(Eid, &[u8]), ReadError>
    ensures { GivesId result (id_at bytes.now) }
{
    ids_are_read_as_spelled();
    match find(bytes) {
        Ok((found, rest)) => match owned(alloc, found) {
            Ok(eid) => Ok((eid, rest)),
            Err(error) => Err(error.into()),
        },
        Err(stop) => Err(ReadError::Stop(stop)),
    }
}

/// The id at the front with its length.
#[tactic(auto, unfolding(crate::specs::Reading::read_id))]
fn front(alloc: Global, bytes: &[u8]) -> Result<EidAt, SpellError>
    ensures { Answers result (read_id bytes.now) }
{
    match id(alloc, bytes) {
        Ok((eid, rest)) => Ok(EidAt {
            eid,
            len: bytes.len() - rest.len(),
        }),
        Err(ReadError::Stop(stop)) => Err(SpellError::Fault(stop.fault(bytes.len()))),
        Err(ReadError::NoMemory) => Err(SpellError::NoMemory),
    }
}

impl Eid {
    /// Reads the id at the front. Bytes may follow it. A fault is the first that reading from the left meets.
    pub fn read(alloc: Global, bytes: &[u8]) -> Result<EidAt, SpellError>
        // What is read is spelled so.
        ensures means { IfOk result (λ at. (at.len ≤ length bytes.now)
            × (take at.len bytes.now ≡ spelling at.eid) × Fits at.eid) }
        // What is spelled so is read, whatever follows it.
        ensures found { (eid : Eid) (rest : List ℕ) → Fits eid → bytes.now ≡ spelling eid ++ rest
            → Answers result (Ok (record { eid = eid; len = length (spelling eid) })) }
        // Which fault it is. Memory runs out only where an id with a text stands.
        ensures exact { Answers result (read_id bytes.now) }
    {
        tokens_are_read_as_spelled();
        front(alloc, bytes)
    }

    /// The id that the bytes are, one id and nothing more, or none where they aren't one.
    pub fn read_whole(alloc: Global, bytes: &[u8]) -> Result<Option<Eid>, NoMemory>
        ensures means { IfOk result
            (λ found. IfSome found (λ eid. (bytes.now ≡ spelling eid) × Fits eid)) }
        ensures found { (eid : Eid) → Fits eid → bytes.now ≡ spelling eid
            → IfOk result (λ found. found ≡ Some eid) }
        // Memory runs out only where they are an id with a text.
        ensures memory { OnErr result ((eid : Eid) × HasText eid × Fits eid
            × (bytes.now ≡ spelling eid)) }
    {
        let Some(found) = whole(bytes) else {
            return Ok(None);
        };
        Ok(Some(owned(alloc, found)?))
    }
}
