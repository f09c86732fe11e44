//! Where a reader stands, and tokens that are no heads.

ghost use Rattle.std.specs.Prelude.{◌≡◌, ◌≤◌, length};
ghost use Rattle.cbor_profile.specs.Step.{Stands};
ghost use Rattle.bp_bundle.specs.Step.{seen};
ghost use Rattle.bp_bundle.specs.Tokens.{fault_at, up_to};
ghost use Rattle.bp_bundle.specs.FirstFault.{past, begin_at, end_at, content_at};

use crate::at::At;
use crate::bundle::{BEGIN, END};
use cbor_profile::{Fault, Reason};

impl<'a> At<'a> {
    /// The token that begins here isn't permitted.
    pub(crate) fn fault(self, reason: Reason) -> Fault
        ensures { result ≡ fault_at (seen self.entry) reason }
    {
        let place = match reason {
            Reason::Truncated => self.place + self.rest.len() as u64,
            _ => self.place,
        };
        Fault { place, reason }
    }

    /// So many bytes further.
    pub(crate) fn past(self, count: usize) -> At<'a>
        requires { count ≤ length self.rest.now }
        ensures { seen result ≡ past count (seen self.entry) }
    {
        At {
            place: self.place + count as u64,
            rest: &self.rest[count..],
        }
    }

    /// Where these bytes are left.
    pub(crate) fn up_to(self, rest: &'a [u8]) -> At<'a>
        requires { length rest.now ≤ length self.rest.now }
        ensures { seen result ≡ up_to (seen self.entry) rest.now }
    {
        At {
            place: self.place + (self.rest.len() - rest.len()) as u64,
            rest,
        }
    }
}

/// The byte that begins a bundle.
#[tactic(auto, unfolding(crate::specs::FirstFault::begin_at))]
pub(crate) fn begin(here: At<'_>) -> Result<At<'_>, Fault>
    ensures { Stands seen result (begin_at (seen here.entry)) }
{
    let [first, ..] = here.rest else {
        return Err(here.fault(Reason::Truncated));
    };
    if *first != BEGIN {
        return Err(here.fault(Reason::NotBundle));
    }
    Ok(here.past(1))
}

/// The byte that ends a bundle.
#[tactic(auto, unfolding(crate::specs::FirstFault::end_at))]
pub(crate) fn end(here: At<'_>) -> Result<At<'_>, Fault>
    ensures { Stands seen result (end_at (seen here.entry)) }
{
    let [first, ..] = here.rest else {
        return Err(here.fault(Reason::Truncated));
    };
    if *first != END {
        return Err(here.fault(Reason::WrongKind));
    }
    Ok(here.past(1))
}

/// The content of a string of so many bytes.
#[tactic(auto, unfolding(crate::specs::FirstFault::content_at))]
pub(crate) fn content(len: u64, here: At<'_>) -> Result<(&[u8], At<'_>), Fault>
    ensures { Stands (λ x. (x.0.now, seen x.1)) result (content_at len (seen here.entry)) }
{
    if (here.rest.len() as u64) < len {
        return Err(here.fault(Reason::Truncated));
    }
    let len = len as usize;
    Ok((&here.rest[..len], here.past(len)))
}
