//! The heads of a bundle's tokens.

ghost use Rattle.std.specs.Prelude.{◌≡◌, None, Some, if◌then◌else◌};
ghost use Rattle.cbor_profile.specs.Step.{Stands};
ghost use Rattle.bp_bundle.specs.Step.{seen};
ghost use Rattle.bp_bundle.specs.Tokens.{major_of, conditions, first_failing, announced, after_conditions, argument_at};

use crate::at::At;
use crate::shape::{MOST_BLOCKS, has_number, has_single, may_have};
use bp_blocks::Block;
use bp_crc::CheckKind;
use cbor_profile::{BUNDLE_LIMIT, Fault, Head, Reason, head_of_token};

/// A head, by where it stands in a bundle.
#[derive(Clone, Copy, Debug, PartialEq, Eq)]
pub enum Token {
    /// The head of the primary block's array.
    PrimaryArray,
    Version,
    /// The bundle flags, in an array of so many items.
    BundleFlags { items: u64 },
    /// A check type, in an array that has an item for the check, or has none.
    CheckType { checked: bool },
    /// The head of the creation timestamp's array.
    Pair,
    /// A number of which any is permitted.
    Number,
    /// The head of a check's byte string.
    CheckString { kind: CheckKind },
    /// The head of a canonical block's array.
    BlockArray,
    BlockType,
    /// The number of a block of this type.
    BlockNumber { kind: u64 },
    /// The head of a body's byte string.
    Body,
}

impl Token {
    /// The major type of the head.
    fn major(self) -> u8
        ensures { result ≡ major_of self }
    {
        match self {
            Token::PrimaryArray | Token::Pair | Token::BlockArray => 4,
            Token::CheckString { .. } | Token::Body => 2,
            _ => 0,
        }
    }

    /// The reason of the first condition on the argument that fails. These blocks stand before.
    fn failing(self, before: &[Block], argument: u64) -> Option<Reason>
        ensures { result ≡ first_failing (conditions before.now self) argument }
    {
        match self {
            Token::PrimaryArray => unless(8 <= argument && argument <= 11, Reason::WrongCount),
            Token::Version => unless(argument == 7, Reason::WrongValue),
            Token::BundleFlags { items } => {
                unless((argument % 2 == 1) == (10 <= items), Reason::WrongCount)
            }
            Token::CheckType { checked } => {
                if argument > 2 {
                    return Some(Reason::WrongValue);
                }
                unless((argument != 0) == checked, Reason::WrongCount)
            }
            Token::Pair => unless(argument == 2, Reason::WrongCount),
            Token::CheckString { kind } => {
                unless(argument == kind.zeros().len() as u64, Reason::WrongValue)
            }
            Token::BlockArray => {
                if argument != 5 && argument != 6 {
                    return Some(Reason::WrongCount);
                }
                unless(before.len() < MOST_BLOCKS, Reason::TooLong)
            }
            Token::BlockType => unless(!has_single(before, argument), Reason::Repeated),
            Token::BlockNumber { kind } => {
                if !may_have(kind, argument) {
                    return Some(Reason::WrongValue);
                }
                unless(!has_number(before, argument), Reason::Repeated)
            }
            Token::Number | Token::Body => None,
        }
    }
}

/// The reason where the condition fails.
fn unless(holds: bool, reason: Reason) -> Option<Reason>
    ensures { result ≡ (if holds then None else Some reason) }
{
    if holds { None } else { Some(reason) }
}

/// How many bytes of content a head announces.
fn announced(head: Head) -> u64
    ensures { result ≡ announced head }
{
    match head.major {
        2 | 3 => head.value,
        _ => 0,
    }
}

/// The argument of the head that begins here. These blocks stand before.
#[tactic(auto, unfolding(crate::specs::Tokens::argument_at))]
pub(crate) fn argument<'a>(
    before: &[Block],
    token: Token,
    here: At<'a>,
) -> Result<(u64, At<'a>), Fault>
    ensures { Stands (λ x. (x.0, seen x.1)) result (argument_at before.now token (seen here.entry)) }
{
    match head_of_token(here.rest, &[token.major()]) {
        Err(reason) => Err(here.fault(reason)),
        Ok((head, rest)) => match token.failing(before, head.value) {
            Some(reason) => Err(here.fault(reason)),
            None => within(here, head, here.up_to(rest)),
        },
    }
}

/// The argument of a head, where the head and the content that it announces leave room for the end of the bundle.
fn within<'a>(here: At<'a>, head: Head, after: At<'a>) -> Result<(u64, At<'a>), Fault>
    ensures { Stands (λ x. (x.0, seen x.1)) result (after_conditions (seen here.entry) None head (seen after.entry)) }
{
    if after.place.saturating_add(announced(head)) > BUNDLE_LIMIT - 1 {
        return Err(here.fault(Reason::TooLong));
    }
    Ok((head.value, after))
}
