//! The begin of a bundle and its primary block (RFC 9171, section 4.3.1).

ghost use Rattle.std.specs.Prelude.{◌≡◌, ◌%◌, ◌==◌};
ghost use Rattle.cbor_profile.specs.Step.{Stands, Gives};
ghost use Rattle.bp_crc.specs.Check.{check_bytes};
ghost use Rattle.bp_crc.specs.Checking.{bytes_of};
ghost use Rattle.bp_crc.specs.Item.{zeros};
ghost use Rattle.bp_primary.specs.Flags.{is_fragment};
ghost use Rattle.bp_bundle.specs.Step.{Fails, seen, nodes_seen, times_seen};
ghost use Rattle.bp_bundle.specs.FirstFault.{nodes_at, times_at, piece_at, piece_if, primary_of, fields_at, primary_check, primary_at, front_at};

use crate::at::At;
use crate::cursor::begin;
use crate::parts::{check, check_type, id};
use crate::token::{Token, argument};
use bp_crc::laws::what_is_fixed_names_the_kind;
use bp_crc::{CheckBytes, CheckKind, Checking};
use bp_eid::Eid;
use bp_primary::{Piece, Primary};
use cbor_profile::{Fault, SpellError};
use std::alloc::Global;

/// The ids of a primary block.
#[derive(Drop)]
struct Ids {
    destination: Eid,
    source: Eid,
    report_to: Eid,
}

/// The creation timestamp and the lifetime of a primary block.
#[derive(Clone, Copy)]
struct Clock {
    created: u64,
    sequence: u64,
    lifetime: u64,
}

#[tactic(auto, unfolding(crate::specs::FirstFault::nodes_at))]
fn three_ids(alloc: Global, here: At<'_>) -> Result<(Ids, At<'_>), SpellError>
    ensures { Gives Fails (λ x. (nodes_seen x.0, seen x.1)) result (nodes_at (seen here.entry)) }
{
    let (destination, rest) = id(alloc, here)?;
    let (source, rest) = id(alloc, rest)?;
    let (report_to, rest) = id(alloc, rest)?;
    let found = Ids {
        destination,
        source,
        report_to,
    };
    Ok((found, rest))
}

#[tactic(auto, unfolding(crate::specs::FirstFault::times_at))]
fn times(here: At<'_>) -> Result<(Clock, At<'_>), Fault>
    ensures { Stands (λ x. (times_seen x.0, seen x.1)) result (times_at (seen here.entry)) }
{
    let (_pair, rest) = argument(&[], Token::Pair, here)?;
    let (created, rest) = argument(&[], Token::Number, rest)?;
    let (sequence, rest) = argument(&[], Token::Number, rest)?;
    let (lifetime, rest) = argument(&[], Token::Number, rest)?;
    let found = Clock {
        created,
        sequence,
        lifetime,
    };
    Ok((found, rest))
}

/// The offset and the total length where the bundle is a fragment, else zeros, and nothing is read.
#[tactic(auto, unfolding(crate::specs::FirstFault::piece_at))]
fn piece(fragmented: bool, here: At<'_>) -> Result<(Piece, At<'_>), Fault>
    ensures { Stands (λ x. (x.0, seen x.1)) result (piece_at fragmented (seen here.entry)) }
{
    if !fragmented {
        let none = Piece {
            offset: 0,
            total: 0,
        };
        return Ok((none, here));
    }
    let (offset, rest) = argument(&[], Token::Number, here)?;
    let (total, rest) = argument(&[], Token::Number, rest)?;
    Ok((Piece { offset, total }, rest))
}

/// The place of a fragment where there is one.
fn piece_if(fragmented: bool, piece: Piece) -> Option<Piece>
    ensures { result ≡ piece_if fragmented piece }
{
    if fragmented { Some(piece) } else { None }
}

/// The primary block of these fields. The place of a fragment counts where the flag says that it is one.
fn made(flags: u64, crc: CheckKind, ids: Ids, clock: Clock, piece: Piece) -> Primary
    ensures { result ≡ primary_of flags crc (nodes_seen ids) (times_seen clock) piece }
{
    Primary {
        flags,
        crc,
        destination: ids.destination,
        source: ids.source,
        report_to: ids.report_to,
        created: clock.created,
        sequence: clock.sequence,
        lifetime: clock.lifetime,
        fragment: piece_if(flags % 2 == 1, piece),
    }
}

/// The primary block up to its check.
#[tactic(auto, unfolding(crate::specs::FirstFault::fields_at))]
fn fields(alloc: Global, here: At<'_>) -> Result<(Primary, At<'_>), SpellError>
    ensures { Gives Fails (λ x. (x.0, seen x.1)) result (fields_at (seen here.entry)) }
{
    let (items, rest) = argument(&[], Token::PrimaryArray, here)?;
    let (_version, rest) = argument(&[], Token::Version, rest)?;
    let (flags, rest) = argument(&[], Token::BundleFlags { items }, rest)?;
    let (crc, rest) = check_type(items % 2 == 1, rest)?;
    let (ids, rest) = three_ids(alloc, rest)?;
    let (clock, rest) = times(rest)?;
    let (piece, rest) = piece(flags % 2 == 1, rest)?;
    Ok((made(flags, crc, ids, clock, piece), rest))
}

/// The check of a primary block.
fn check_of(primary: &Primary) -> CheckBytes
    ensures { bytes_of result ≡ primary_check primary.now }
{
    what_is_fixed_names_the_kind();
    // Asked for so that the array is known to be short.
    let _size = primary.size();
    let mut checking = Checking::new(primary.crc);
    primary.feed_with(primary.crc.zeros(), &mut checking);
    checking.finish()
}

/// The byte 9f and the primary block.
#[tactic(auto, unfolding(crate::specs::FirstFault::front_at, crate::specs::FirstFault::primary_at))]
pub(crate) fn front(alloc: Global, here: At<'_>) -> Result<(Primary, At<'_>), SpellError>
    ensures { Gives Fails (λ x. (x.0, seen x.1)) result (front_at (seen here.entry)) }
{
    let rest = begin(here)?;
    let (primary, rest) = fields(alloc, rest)?;
    let rest = check(primary.crc, check_of(&primary).as_slice(), rest)?;
    Ok((primary, rest))
}
