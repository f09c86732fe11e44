//! Reading the part at the front (RFC 9174, sections 4.2 to 6.1). No call but the last takes memory.

ghost use Rattle.std.specs.Prelude.{◌≡◌, ◌≤◌, IfOk};
ghost use Rattle.cbor_profile.specs.Step.{Stands};
ghost use Rattle.bp_tcpcl.specs.Spelling.{is_start};
ghost use Rattle.bp_tcpcl.specs.Reading.{mark_at, contact_at, init_at, extensions_at, transfer_at, segment_at, ack_at, refuse_at, term_at, reject_at, kind_at, message_at, part_at, least_extensions};
ghost use Rattle.bp_tcpcl.specs.Step.{seen, item_of};

use crate::EXTENSIONS_LIMIT;
use crate::at::At;
use crate::fields::{
    sized_by_u16, sized_by_u32, sized_by_u64, u8_at, u8_in, u16_at, u64_at, within,
};
use crate::message::{Item, Message};
use crate::reason::LinkReason;
use crate::stop::Stop;
use cbor_profile::{BUNDLE_LIMIT, Bytes, NoMemory};
use std::alloc::Global;

/// A part whose bytes still stand among those that were read.
#[derive(Clone, Copy)]
pub(crate) enum Part<'a> {
    Contact {
        flags: u8,
    },
    Init {
        keepalive: u16,
        segment_mru: u64,
        transfer_mru: u64,
        node: &'a [u8],
        extensions: &'a [u8],
    },
    Segment {
        flags: u8,
        transfer: u64,
        extensions: &'a [u8],
        content: &'a [u8],
    },
    Ack {
        flags: u8,
        transfer: u64,
        length: u64,
    },
    Refuse {
        reason: u8,
        transfer: u64,
    },
    KeepAlive,
    Term {
        flags: u8,
        reason: u8,
    },
    Reject {
        reason: u8,
        header: u8,
    },
}

/// A part, and where the next one begins.
type Read<'a> = Result<(Part<'a>, At<'a>), Stop>;

/// One of the four bytes that begin a stream.
#[tactic(auto, unfolding(crate::specs::Reading::mark_at))]
fn mark(byte: u8, here: At<'_>) -> Result<At<'_>, Stop>
    ensures { Stands seen result (mark_at byte (seen here.entry)) }
{
    let Some(found) = u8_in(here.rest) else {
        return Err(Stop::More);
    };
    if found != byte {
        return Err(Stop::Fault {
            place: here.begin,
            reason: LinkReason::NotContact,
        });
    }
    Ok(here.past(1))
}

/// The contact header.
#[tactic(auto, unfolding(crate::specs::Reading::contact_at))]
fn contact(here: At<'_>) -> Read<'_>
    ensures { Stands (λ x. (item_of x.0, seen x.1)) result (contact_at (seen here.entry)) }
{
    let rest = mark(b'd', here)?;
    let rest = mark(b't', rest)?;
    let rest = mark(b'n', rest)?;
    let rest = mark(b'!', rest)?;
    let Some(version) = u8_in(rest.rest) else {
        return Err(Stop::More);
    };
    if version != 4 {
        return Err(Stop::Fault {
            place: rest.place,
            reason: LinkReason::Version,
        });
    }
    let (flags, rest) = u8_at(0, rest.past(1))?;
    Ok((Part::Contact { flags }, rest))
}

/// A SESS_INIT behind its first byte.
#[tactic(auto, unfolding(crate::specs::Reading::init_at))]
fn init(here: At<'_>) -> Read<'_>
    ensures { Stands (λ x. (item_of x.0, seen x.1)) result (init_at (seen here.entry)) }
{
    let (keepalive, rest) = u16_at(22, here)?;
    let (segment_mru, rest) = u64_at(14, rest)?;
    let (transfer_mru, rest) = u64_at(6, rest)?;
    let (node, rest) = sized_by_u16(65_535, 4, rest)?;
    let (extensions, rest) = sized_by_u32(EXTENSIONS_LIMIT, 0, rest)?;
    let found = Part::Init {
        keepalive,
        segment_mru,
        transfer_mru,
        node,
        extensions,
    };
    Ok((found, rest))
}

/// The extensions of a segment, which stand there with START alone.
#[tactic(auto, unfolding(crate::specs::Reading::extensions_at))]
fn extensions(start: bool, here: At<'_>) -> Result<(&[u8], At<'_>), Stop>
    ensures { Stands (λ x. (x.0.now, seen x.1)) result (extensions_at start (seen here.entry)) }
{
    if !start {
        return Ok((&[], here));
    }
    sized_by_u32(EXTENSIONS_LIMIT, 8, here)
}

/// How many bytes the extensions and their length have at least.
fn least_extensions(start: bool) -> u64
    ensures value { result ≡ least_extensions start }
    ensures small { result ≤ 4 }
{
    if start { 4 } else { 0 }
}

/// What follows the flags of a segment.
#[tactic(auto, unfolding(crate::specs::Reading::transfer_at))]
fn transfer(flags: u8, start: bool, here: At<'_>) -> Read<'_>
    ensures { Stands (λ x. (item_of x.0, seen x.1)) result
        (transfer_at flags start (seen here.entry)) }
{
    let (transfer, rest) = u64_at(8 + least_extensions(start), here)?;
    let (extensions, rest) = extensions(start, rest)?;
    let (content, rest) = sized_by_u64(BUNDLE_LIMIT, 0, rest)?;
    let found = Part::Segment {
        flags,
        transfer,
        extensions,
        content,
    };
    Ok((found, rest))
}

/// An XFER_SEGMENT behind its first byte.
#[tactic(auto, unfolding(crate::specs::Reading::segment_at))]
fn segment(here: At<'_>) -> Read<'_>
    ensures { Stands (λ x. (item_of x.0, seen x.1)) result (segment_at (seen here.entry)) }
{
    let Some(flags) = u8_in(here.rest) else {
        return Err(Stop::More);
    };
    let start = flags / 2 % 2 == 1;
    let rest = within(16 + least_extensions(start), here.past(1))?;
    transfer(flags, start, rest)
}

/// An XFER_ACK behind its first byte.
#[tactic(auto, unfolding(crate::specs::Reading::ack_at))]
fn ack(here: At<'_>) -> Read<'_>
    ensures { Stands (λ x. (item_of x.0, seen x.1)) result (ack_at (seen here.entry)) }
{
    let (flags, rest) = u8_at(16, here)?;
    let (transfer, rest) = u64_at(8, rest)?;
    let (length, rest) = u64_at(0, rest)?;
    let found = Part::Ack {
        flags,
        transfer,
        length,
    };
    Ok((found, rest))
}

/// An XFER_REFUSE behind its first byte.
#[tactic(auto, unfolding(crate::specs::Reading::refuse_at))]
fn refuse(here: At<'_>) -> Read<'_>
    ensures { Stands (λ x. (item_of x.0, seen x.1)) result (refuse_at (seen here.entry)) }
{
    let (reason, rest) = u8_at(8, here)?;
    let (transfer, rest) = u64_at(0, rest)?;
    Ok((Part::Refuse { reason, transfer }, rest))
}

/// A SESS_TERM behind its first byte.
#[tactic(auto, unfolding(crate::specs::Reading::term_at))]
fn term(here: At<'_>) -> Read<'_>
    ensures { Stands (λ x. (item_of x.0, seen x.1)) result (term_at (seen here.entry)) }
{
    let (flags, rest) = u8_at(1, here)?;
    let (reason, rest) = u8_at(0, rest)?;
    Ok((Part::Term { flags, reason }, rest))
}

/// A MSG_REJECT behind its first byte.
#[tactic(auto, unfolding(crate::specs::Reading::reject_at))]
fn reject(here: At<'_>) -> Read<'_>
    ensures { Stands (λ x. (item_of x.0, seen x.1)) result (reject_at (seen here.entry)) }
{
    let (reason, rest) = u8_at(1, here)?;
    let (header, rest) = u8_at(0, rest)?;
    Ok((Part::Reject { reason, header }, rest))
}

/// What follows a message's first byte, which stands at this place.
fn behind(kind: u8, place: u64, rest: At<'_>) -> Read<'_>
    ensures { Stands (λ x. (item_of x.0, seen x.1)) result (kind_at kind place (seen rest.entry)) }
{
    match kind {
        1 => segment(within(17, rest)?),
        2 => ack(within(17, rest)?),
        3 => refuse(within(9, rest)?),
        4 => Ok((Part::KeepAlive, within(0, rest)?)),
        5 => term(within(2, rest)?),
        6 => reject(within(2, rest)?),
        7 => init(within(24, rest)?),
        _ => Err(Stop::Fault {
            place,
            reason: LinkReason::UnknownMessage,
        }),
    }
}

/// A message.
#[tactic(auto, unfolding(crate::specs::Reading::message_at))]
fn message(here: At<'_>) -> Read<'_>
    ensures { Stands (λ x. (item_of x.0, seen x.1)) result (message_at (seen here.entry)) }
{
    let Some(kind) = u8_in(here.rest) else {
        return Err(Stop::More);
    };
    behind(kind, here.place, here.past(1))
}

/// The next part.
#[tactic(auto, unfolding(crate::specs::Reading::part_at))]
pub(crate) fn read_part(opened: bool, here: At<'_>) -> Read<'_>
    ensures { Stands (λ x. (item_of x.0, seen x.1)) result (part_at opened (seen here.entry)) }
{
    if opened { message(here) } else { contact(here) }
}

impl Part<'_> {
    /// The item, with bytes of its own.
    pub(crate) fn owned(self, alloc: Global) -> Result<Item, NoMemory>
        ensures { IfOk result (λ item. item ≡ item_of self.entry) }
    {
        let message = match self {
            Part::Contact { flags } => return Ok(Item::Contact { flags }),
            Part::Init {
                keepalive,
                segment_mru,
                transfer_mru,
                node,
                extensions,
            } => Message::Init {
                keepalive,
                segment_mru,
                transfer_mru,
                node: copied(alloc, node)?,
                extensions: copied(alloc, extensions)?,
            },
            Part::Segment {
                flags,
                transfer,
                extensions,
                content,
            } => Message::Segment {
                flags,
                transfer,
                extensions: copied(alloc, extensions)?,
                content: copied(alloc, content)?,
            },
            Part::Ack {
                flags,
                transfer,
                length,
            } => Message::Ack {
                flags,
                transfer,
                length,
            },
            Part::Refuse { reason, transfer } => Message::Refuse { reason, transfer },
            Part::KeepAlive => Message::KeepAlive,
            Part::Term { flags, reason } => Message::Term { flags, reason },
            Part::Reject { reason, header } => Message::Reject { reason, header },
        };
        Ok(Item::Message(message))
    }
}

/// These bytes again.
fn copied(alloc: Global, bytes: &[u8]) -> Result<Bytes, NoMemory>
    ensures { IfOk result (λ copy. copy ≡ bytes.now) }
{
    let mut copy = Bytes::new(alloc);
    copy.extend(bytes)?;
    Ok(copy)
}
