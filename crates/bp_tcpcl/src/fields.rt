//! The fields of parts. Numbers are in network order. No call takes memory.

ghost use Rattle.std.specs.Prelude.{◌≡◌, ◌+◌, ◌<◌, ◌≤◌, ◌^◌, length, IfSome};
ghost use Rattle.std.specs.Int.{w8, w16, w32, w64};
ghost use Rattle.cbor_profile.specs.Step.{Stands};
ghost use Rattle.bp_tcpcl.specs.Numbers.{number_in};
ghost use Rattle.bp_tcpcl.specs.Reading.{within, number_at, bytes_at, content_at, sized_at};
ghost use Rattle.bp_tcpcl.specs.Step.{seen};

use crate::INPUT_LIMIT;
use crate::at::At;
use crate::reason::LinkReason;
use crate::stop::Stop;

/// The number of one byte at the front.
#[tactic(auto, unfolding(crate::specs::Numbers::number_in))]
pub(crate) fn u8_in(bytes: &[u8]) -> Option<u8>
    ensures value { result ≡ number_in w8 bytes.now }
    ensures there { IfSome result (λ _. 1 ≤ length bytes.now) }
{
    match bytes {
        [a, ..] => Some(*a),
        _ => None,
    }
}

/// The number of two bytes at the front.
#[tactic(auto, unfolding(crate::specs::Numbers::number_in))]
pub(crate) fn u16_in(bytes: &[u8]) -> Option<u16>
    ensures value { result ≡ number_in w16 bytes.now }
    ensures there { IfSome result (λ _. 2 ≤ length bytes.now) }
{
    match bytes {
        [a, b, ..] => Some(u16::from_be_bytes([*a, *b])),
        _ => None,
    }
}

/// The number of four bytes at the front.
#[tactic(auto, unfolding(crate::specs::Numbers::number_in))]
pub(crate) fn u32_in(bytes: &[u8]) -> Option<u32>
    ensures value { result ≡ number_in w32 bytes.now }
    ensures there { IfSome result (λ _. 4 ≤ length bytes.now) }
{
    match bytes {
        [a, b, c, d, ..] => Some(u32::from_be_bytes([*a, *b, *c, *d])),
        _ => None,
    }
}

/// The number of eight bytes at the front.
#[tactic(auto, unfolding(crate::specs::Numbers::number_in))]
pub(crate) fn u64_in(bytes: &[u8]) -> Option<u64>
    ensures value { result ≡ number_in w64 bytes.now }
    ensures there { IfSome result (λ _. 8 ≤ length bytes.now) }
{
    match bytes {
        [a, b, c, d, e, f, g, h, ..] => {
            Some(u64::from_be_bytes([*a, *b, *c, *d, *e, *f, *g, *h]))
        }
        _ => None,
    }
}

/// The place after a field, where the part may still end within the limit: the fields to come have so many bytes at least.
#[tactic(auto, unfolding(crate::specs::Reading::within))]
pub(crate) fn within(to_come: u64, here: At<'_>) -> Result<At<'_>, Stop>
    ensures { Stands seen result (within to_come (seen here.entry)) }
{
    if here.place.saturating_add(to_come) > INPUT_LIMIT {
        return Err(Stop::Fault {
            place: here.begin,
            reason: LinkReason::TooMuch,
        });
    }
    Ok(here)
}

/// A number of one byte.
#[tactic(auto, unfolding(crate::specs::Reading::number_at))]
pub(crate) fn u8_at(to_come: u64, here: At<'_>) -> Result<(u8, At<'_>), Stop>
    ensures { Stands (λ x. (x.0, seen x.1)) result (number_at w8 to_come (seen here.entry)) }
{
    let Some(value) = u8_in(here.rest) else {
        return Err(Stop::More);
    };
    let after = within(to_come, here.past(1))?;
    Ok((value, after))
}

/// A number of two bytes.
#[tactic(auto, unfolding(crate::specs::Reading::number_at))]
pub(crate) fn u16_at(to_come: u64, here: At<'_>) -> Result<(u16, At<'_>), Stop>
    ensures { Stands (λ x. (x.0, seen x.1)) result (number_at w16 to_come (seen here.entry)) }
{
    let Some(value) = u16_in(here.rest) else {
        return Err(Stop::More);
    };
    let after = within(to_come, here.past(2))?;
    Ok((value, after))
}

/// A number of eight bytes.
#[tactic(auto, unfolding(crate::specs::Reading::number_at))]
pub(crate) fn u64_at(to_come: u64, here: At<'_>) -> Result<(u64, At<'_>), Stop>
    ensures { Stands (λ x. (x.0, seen x.1)) result (number_at w64 to_come (seen here.entry)) }
{
    let Some(value) = u64_in(here.rest) else {
        return Err(Stop::More);
    };
    let after = within(to_come, here.past(8))?;
    Ok((value, after))
}

/// So many bytes.
#[tactic(auto, unfolding(crate::specs::Reading::bytes_at))]
fn bytes_at(len: u64, to_come: u64, here: At<'_>) -> Result<(&[u8], At<'_>), Stop>
    ensures { Stands (λ x. (x.0.now, seen x.1)) result (bytes_at len to_come (seen here.entry)) }
{
    if (here.rest.len() as u64) < len {
        return Err(Stop::More);
    }
    let len = len as usize;
    let after = within(to_come, here.past(len))?;
    Ok((&here.rest[..len], after))
}

/// The content behind its length, which stands here in so many bytes.
#[tactic(auto, unfolding(crate::specs::Reading::content_at))]
fn content_at<'a>(
    len: u64,
    size: usize,
    limit: u64,
    to_come: u64,
    here: At<'a>,
) -> Result<(&'a [u8], At<'a>), Stop>
    requires there { size ≤ length here.rest.now }
    requires small { limit + to_come < 2 ^ 64 }
    ensures { Stands (λ x. (x.0.now, seen x.1)) result
        (content_at len size limit to_come (seen here.entry)) }
{
    if len > limit {
        return Err(Stop::Fault {
            place: here.place,
            reason: LinkReason::TooLong,
        });
    }
    let start = within(len + to_come, here.past(size))?;
    bytes_at(len, to_come, start)
}

/// A length of two bytes, and as many bytes.
#[tactic(auto, unfolding(crate::specs::Reading::sized_at))]
pub(crate) fn sized_by_u16(limit: u64, to_come: u64, here: At<'_>) -> Result<(&[u8], At<'_>), Stop>
    requires { limit + to_come < 2 ^ 64 }
    ensures { Stands (λ x. (x.0.now, seen x.1)) result
        (sized_at w16 limit to_come (seen here.entry)) }
{
    let Some(len) = u16_in(here.rest) else {
        return Err(Stop::More);
    };
    content_at(u64::from(len), 2, limit, to_come, here)
}

/// A length of four bytes, and as many bytes.
#[tactic(auto, unfolding(crate::specs::Reading::sized_at))]
pub(crate) fn sized_by_u32(limit: u64, to_come: u64, here: At<'_>) -> Result<(&[u8], At<'_>), Stop>
    requires { limit + to_come < 2 ^ 64 }
    ensures { Stands (λ x. (x.0.now, seen x.1)) result
        (sized_at w32 limit to_come (seen here.entry)) }
{
    let Some(len) = u32_in(here.rest) else {
        return Err(Stop::More);
    };
    content_at(u64::from(len), 4, limit, to_come, here)
}

/// A length of eight bytes, and as many bytes.
#[tactic(auto, unfolding(crate::specs::Reading::sized_at))]
pub(crate) fn sized_by_u64(limit: u64, to_come: u64, here: At<'_>) -> Result<(&[u8], At<'_>), Stop>
    requires { limit + to_come < 2 ^ 64 }
    ensures { Stands (λ x. (x.0.now, seen x.1)) result
        (sized_at w64 limit to_come (seen here.entry)) }
{
    let Some(len) = u64_in(here.rest) else {
        return Err(Stop::More);
    };
    content_at(len, 8, limit, to_come, here)
}
