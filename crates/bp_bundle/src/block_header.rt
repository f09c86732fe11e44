//! The header of a canonical block (RFC 9171, section 4.3.2).

ghost use Rattle.std.specs.Prelude.{◌≡◌};
ghost use Rattle.cbor_profile.specs.Step.{Stands};
ghost use Rattle.bp_bundle.specs.Step.{seen};
ghost use Rattle.bp_bundle.specs.FirstFault.{header_at};

use crate::at::At;
use crate::header::Header;
use crate::parts::check_type;
use crate::token::{Token, argument};
use bp_blocks::Block;
use cbor_profile::Fault;

/// A block up to its body, after these.
#[tactic(auto, unfolding(crate::specs::FirstFault::header_at))]
pub(crate) fn header<'a>(before: &[Block], here: At<'a>) -> Result<(Header, At<'a>), Fault>
    ensures { Stands (λ x. (x.0, seen x.1)) result (header_at before.now (seen here.entry)) }
{
    let (items, rest) = argument(before, Token::BlockArray, here)?;
    let (kind, rest) = argument(before, Token::BlockType, rest)?;
    let (number, rest) = argument(before, Token::BlockNumber { kind }, rest)?;
    let (flags, rest) = argument(before, Token::Number, rest)?;
    let (crc, rest) = check_type(items == 6, rest)?;
    let (len, rest) = argument(before, Token::Body, rest)?;
    let header = Header {
        kind,
        number,
        flags,
        crc,
        len,
    };
    Ok((header, rest))
}
