//! Fragments that are gathered until they are the whole bundle.

ghost use Rattle.std.specs.Prelude.{◌≡◌, ◌+◌, ◌≤◌, ◌++◌, ◌∷◌, [], List, length, None, Some, Err, MatchResult, OnOk, OnErr};
ghost use Rattle.std.specs.Option.{ForSome, option_or};
ghost use Rattle.bp_bundle.specs.Shape.{Contents};
ghost use Rattle.bp_fragments.specs.Fragment.{piece_of};
ghost use Rattle.bp_fragments.specs.Overlaid.{Overlaid};
ghost use Rattle.bp_fragments.specs.Agreement.{IsRefusal, refusal, refusal_of};
ghost use Rattle.bp_fragments.specs.Kept.{AsLongAs, TakesIn, known_before, frame_after};
ghost use Rattle.bp_fragments.specs.Assembled.{Took};

use crate::alike::piece_of;
use crate::fault::AddFault;
use crate::part::{Part, part_of};
use crate::payload::Payload;
use crate::refusal::refusal_of;
use bp_blocks::Block;
use bp_bundle::Bundle;
use bp_primary::{Piece, Primary};
use cbor_profile::{List, NoMemory};
use std::alloc::Global;
use std::marker::Model;

/// The fragments of one bundle that were added so far. A contract sees it as what they together tell.
#[derive(Drop)]
pub struct Assembly {
    pub(crate) alloc: Global,
    /// The primary block of the first fragment.
    pub(crate) primary: Option<Primary>,
    /// The blocks of a fragment of offset 0, without the payload's body.
    pub(crate) frame: Option<List<Block>>,
    pub(crate) payload: Payload,
    pub(crate) count: usize,
}

impl Model for Assembly {
    ghost use Rattle.std.specs.Prelude.{◌≡◌, ◌≤◌, length};
    ghost use Rattle.bp_fragments.specs.Agreement.{Gathered};
    ghost use Rattle.bp_fragments.specs.Kept.{AsLongAs};

    ghost Value = { Gathered };

    ghost view = { λ a. record { primary = a.primary; frame = a.frame; known = a.payload; count = a.count } };

    ghost invariant = { λ a. AsLongAs a.primary (length a.payload) × (a.count ≤ 256) };
}

impl Assembly {
    /// No fragments so far. Takes no memory.
    pub fn new(alloc: Global) -> Assembly
        ensures { Took result [] }
    {
        Assembly {
            alloc,
            primary: None,
            frame: None,
            payload: Payload::empty(alloc),
            count: 0,
        }
    }

    /// Adds a fragment. A refusal drops it, and changes nothing.
    pub fn add(&mut self, piece: Bundle) -> Result<(), AddFault>
        // The first reason against it is answered, or there is none, and it is taken.
        ensures means { (pieces : List Contents) → Took self.old pieces
            → MatchResult result (λ _. (refusal pieces piece ≡ None)
            × Took self.new (pieces ++ piece ∷ []))
            (λ fault. IsRefusal fault (refusal pieces piece)) }
        ensures stays { OnErr result (self.new ≡ self.old) }
    {
        let part = part_of(self.alloc, piece);
        match refusal_of(&self.primary, &self.frame, &self.payload, self.count, &part) {
            Some(fault) => Err(fault),
            None => self.take_in(part),
        }
    }

    /// Takes a fragment against which nothing stands. It takes all its room before it changes anything.
    fn take_in(&mut self, part: Part) -> Result<(), AddFault>
        requires { refusal_of self.old part.primary part.frame part.body ≡ None }
        ensures ok { OnOk result (TakesIn self.old part.primary part.frame part.body self.new) }
        ensures err { OnErr result (self.new ≡ self.old) }
        ensures memory { OnErr result (result ≡ Err AddFault.NoMemory) }
    {
        let piece = piece_of(&part.primary);
        match keep_payload(
            self.alloc,
            &self.primary,
            &mut self.payload,
            piece,
            part.body.as_slice(),
        ) {
            Ok(()) => {}
            Err(error) => return Err(error.into()),
        }
        let Part {
            primary,
            frame,
            body: _body,
        } = part;
        keep_primary(&mut self.primary, primary);
        keep_frame(&mut self.frame, piece.offset, frame);
        self.count += 1;
        Ok(())
    }
}

/// Keeps the payload of a fragment; the first says how long the whole is.
fn keep_payload(
    alloc: Global,
    first: &Option<Primary>,
    payload: &mut Payload,
    piece: Piece,
    body: &[u8],
) -> Result<(), NoMemory>
    requires long { AsLongAs first.now (length payload.old) }
    requires same { ForSome first.now (λ first. (piece_of first).total ≡ piece.total) }
    requires within { piece.offset + length body.now ≤ piece.total }
    ensures ok { OnOk result (Overlaid (known_before first.now piece.total payload.old) piece.offset
        body.now payload.new) }
    ensures err { OnErr result (payload.new ≡ payload.old) }
{
    if first.is_some() {
        return payload.put(alloc, piece.offset as usize, body);
    }
    let mut whole = Payload::unknown(alloc, piece.total as usize)?;
    whole.put(alloc, piece.offset as usize, body)?;
    *payload = whole;
    Ok(())
}

/// The first primary block stays.
fn keep_primary(first: &mut Option<Primary>, primary: Primary)
    ensures { first.new ≡ option_or first.old (Some primary) }
{
    if first.is_none() {
        *first = Some(primary);
    }
}

/// The first blocks of a fragment of offset 0 stay.
fn keep_frame(kept: &mut Option<List<Block>>, offset: u64, frame: List<Block>)
    ensures { kept.new ≡ frame_after kept.old offset frame }
{
    if offset == 0 && kept.is_none() {
        *kept = Some(frame);
    }
}
