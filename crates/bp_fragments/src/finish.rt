//! Fragments joined to the bundle.

ghost use Rattle.std.specs.Prelude.{◌≡◌, ◌+◌, ◌<◌, ◌↔◌, List, Ok, Some, length, IsTrue, IfOk, IfErr, MatchResult};
ghost use Rattle.bp_bundle.specs.Shape.{Contents};
ghost use Rattle.bp_bundle.specs.Spelling.{IsBundle, spelling};
ghost use Rattle.cbor_profile.specs.Put.{uint};
ghost use Rattle.cbor_profile.specs.declared.TheConstants.{BUNDLE_LIMIT};
ghost use Rattle.bp_fragments.specs.Cut.{whole_flags, whole_primary};
ghost use Rattle.bp_fragments.specs.Joined.{IsJoinFault, IsWhole, joined, whole_with};
ghost use Rattle.bp_fragments.specs.Ready.{IsLong, IsLongFault};
ghost use Rattle.bp_fragments.specs.Assembled.{Took};

use crate::assembly::Assembly;
use crate::fault::FinishFault;
use crate::part::exchange_payload;
use crate::payload::Payload;
use bp_blocks::Block;
use bp_bundle::{Bundle, spelled_size};
use bp_primary::Primary;
use cbor_profile::{BUNDLE_LIMIT, List, NoMemory, uint_size};
use std::alloc::Global;

/// Bundle flag 0x1 clear.
fn whole_flags(flags: u64) -> u64
    ensures { result ≡ whole_flags flags }
{
    flags - flags % 2
}

/// The primary block of the whole.
fn whole_primary(alloc: Global, primary: &Primary) -> Result<Primary, NoMemory>
    ensures { IfOk result (λ whole. whole ≡ whole_primary primary.now) }
{
    Ok(Primary {
        flags: whole_flags(primary.flags),
        crc: primary.crc,
        destination: primary.destination.copy(alloc)?,
        source: primary.source.copy(alloc)?,
        report_to: primary.report_to.copy(alloc)?,
        created: primary.created,
        sequence: primary.sequence,
        lifetime: primary.lifetime,
        fragment: None,
    })
}

/// Whether the spelling with a payload of so many bytes would pass the bundle limit. The frame's payload has none.
fn is_too_long(primary: &Primary, frame: &[Block], total: u64) -> bool
    ensures { IsTrue result ↔ (BUNDLE_LIMIT + 1
        < length (spelling (record { primary = primary.now; blocks = frame.now }))
        + length (uint total) + total) }
{
    let size = spelled_size(primary, frame);
    size.saturating_add(uint_size(total)).saturating_add(total) > BUNDLE_LIMIT + 1
}

/// The same of a frame that may be there.
fn is_long(primary: &Primary, frame: &Option<List<Block>>, total: u64) -> bool
    ensures { IsTrue result ↔ IsLong frame.now primary.now total }
{
    match frame {
        None => false,
        Some(frame) => is_too_long(primary, frame.items(), total),
    }
}

/// The primary block of the whole, if that isn't too long.
fn whole_within(
    alloc: Global,
    first: &Primary,
    frame: &Option<List<Block>>,
    total: u64,
) -> Result<Primary, FinishFault>
    ensures { MatchResult result (λ primary. (primary ≡ whole_primary first.now)
        × (IsLong frame.now (whole_primary first.now) total → ⊥))
        (λ fault. IsLongFault fault frame.now (whole_primary first.now) total) }
{
    match whole_primary(alloc, first) {
        Err(error) => Err(error.into()),
        Ok(primary) => {
            if is_long(&primary, frame, total) {
                Err(FinishFault::TooLong)
            } else {
                Ok(primary)
            }
        }
    }
}

/// The bundle of these blocks with this payload, if it is one.
fn bundle_of(primary: Primary, frame: Option<List<Block>>, payload: Payload) -> Option<Bundle>
    ensures { (bundle : Contents) → IsWhole bundle primary frame payload → IsBundle bundle
        → result ≡ Some bundle }
{
    let mut blocks = frame?;
    if blocks.items().is_empty() {
        return None;
    }
    let _empty = exchange_payload(&mut blocks, payload.into_bytes());
    match Bundle::of(primary, blocks) {
        Ok(bundle) => Some(bundle),
        Err(_fault) => None,
    }
}

impl Assembly {
    /// The primary block of the whole, or the first reason why the fragments aren't joined.
    fn ready(&self) -> Result<Primary, FinishFault>
        ensures { (pieces : List Contents) → Took self.now pieces
            → MatchResult result (λ primary. joined pieces ≡ Ok (whole_with primary self.now))
            (λ fault. IsJoinFault fault (joined pieces)) }
    {
        match &self.primary {
            None => Err(FinishFault::Empty),
            Some(first) => match self.payload.gap() {
                Some(place) => Err(FinishFault::Gap {
                    place: place as u64,
                }),
                None => whole_within(self.alloc, first, &self.frame, self.payload.len() as u64),
            },
        }
    }

    /// The whole with this primary block.
    fn close(self, primary: Primary) -> Result<Bundle, (Assembly, FinishFault)>
        ensures { (pieces : List Contents) → Took self pieces
            → joined pieces ≡ Ok (whole_with primary self)
            → MatchResult result (λ bundle. joined pieces ≡ Ok bundle) (λ _. ⊥) }
    {
        let Assembly {
            alloc,
            primary: _first,
            frame,
            payload,
            count: _count,
        } = self;
        match bundle_of(primary, frame, payload) {
            Some(bundle) => Ok(bundle),
            // Not met: what is gathered without a gap is a bundle.
            None => Err((Assembly::new(alloc), FinishFault::NoMemory)),
        }
    }

    /// The bundle that the fragments are joined to. An error hands the assembly back as it was.
    pub fn finish(self) -> Result<Bundle, (Assembly, FinishFault)>
        ensures means { (pieces : List Contents) → Took self pieces
            → MatchResult result (λ bundle. joined pieces ≡ Ok bundle)
            (λ kept. IsJoinFault kept.1 (joined pieces)) }
        ensures stays { (pieces : List Contents) → Took self pieces
            → IfErr result (λ kept. kept.0 ≡ self) }
    {
        match self.ready() {
            Ok(primary) => self.close(primary),
            Err(fault) => Err((self, fault)),
        }
    }
}
