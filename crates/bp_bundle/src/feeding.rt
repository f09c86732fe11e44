//! Feeding the streaming decoder.

ghost use Rattle.std.specs.Prelude.{◌≡◌, [], List, ℕ, None, Some, Err, IfOk};
ghost use Rattle.cbor_profile.specs.declared.fault.SpellError.{SpellError};
ghost use Rattle.bp_bundle.specs.Spelling.{IsBundle};
ghost use Rattle.bp_bundle.specs.Taking.{met, Took, Feeds, Finishes, Settles, Concludes};

use crate::at::At;
use crate::bundle::Bundle;
use crate::laws;
use crate::reader::{Fed, Reader};
use crate::run::run;
use crate::stage::{Outcome, Stage};
use cbor_profile::{Bytes, Fault, Reason, SpellError};
use std::alloc::Global;
use std::mem;

/// More than the place of any byte that a reader looks at.
const PLACES: u64 = 1 << 62;

impl Reader {
    /// Nothing taken yet. Takes no memory.
    pub fn new(alloc: Global) -> Reader
        ensures took { Took result [] }
        ensures none { met result ≡ None }
    {
        Reader {
            alloc,
            stage: Stage::Front,
            place: 0,
            pending: Bytes::new(alloc),
            met: None,
        }
    }

    /// Keeps an error, and answers it.
    fn fail(&mut self, error: SpellError) -> Result<Fed, SpellError>
        ensures result { result ≡ Err error }
        ensures met { met self.new ≡ Some error }
    {
        self.met = Some(error);
        Err(error)
    }

    /// Keeps what all steps over some bytes came to, of which so many are new.
    fn settle(&mut self, outcome: Outcome<'_>, given: usize) -> Result<Fed, SpellError>
        ensures { Settles outcome.entry given self.old self.new result }
    {
        match outcome {
            Outcome::Stop(error) => { self.fail(error) }
            Outcome::End(begun, rest) => {
                self.stage = Stage::Done(begun);
                self.place = rest.place.min(PLACES);
                self.pending = Bytes::new(self.alloc);
                Ok(Fed {
                    taken: given.saturating_sub(rest.rest.len()),
                    done: true,
                })
            }
            Outcome::Wait(stage, rest) => {
                let mut kept = Bytes::new(self.alloc);
                if let Err(error) = kept.extend(rest.rest) {
                    return self.fail(SpellError::from(error));
                }
                self.stage = stage;
                self.place = rest.place.min(PLACES);
                self.pending = kept;
                Ok(Fed {
                    taken: given,
                    done: false,
                })
            }
        }
    }

    /// Takes the next piece, up to the bundle's end. Once done it takes nothing. An error is answered for good.
    pub fn feed(&mut self, piece: &[u8]) -> Result<Fed, SpellError>
        // The first fault is answered at once, done is answered exactly where a bundle is whole, and else all is taken.
        ensures means { (taken : List ℕ) → Took self.old taken → Feeds taken piece.now self.new result }
        ensures again { (error : SpellError) → met self.old ≡ Some error → (result ≡ Err error) × (met self.new ≡ Some error) }
    {
        laws::bundles_are_read_as_spelled();
        if let Some(error) = self.met {
            return Err(error);
        }
        let stage = mem::replace(&mut self.stage, Stage::Front);
        if self.pending.len() == 0 {
            let here = At {
                place: self.place,
                rest: piece,
            };
            let outcome = run(self.alloc, stage, here);
            return self.settle(outcome, piece.len());
        }
        let mut all = mem::replace(&mut self.pending, Bytes::new(self.alloc));
        match all.extend(piece) {
            Ok(()) => {}
            Err(error) => return self.fail(SpellError::from(error)),
        }
        let here = At {
            place: self.place,
            rest: all.as_slice(),
        };
        let outcome = run(self.alloc, stage, here);
        self.settle(outcome, piece.len())
    }

    /// The bundle that was taken, or the error that was met; where the bundle hasn't ended, the bytes end too early. Takes no
    /// memory.
    pub fn finish(self) -> Result<Bundle, SpellError>
        ensures means { (taken : List ℕ) → Took self taken → Finishes taken result }
        ensures again { (error : SpellError) → met self ≡ Some error → result ≡ Err error }
        ensures shape { IfOk result IsBundle }
    {
        laws::bundles_are_read_as_spelled();
        if let Some(error) = self.met {
            return Err(error);
        }
        let place = self.place + self.pending.len() as u64;
        let Reader {
            alloc: _alloc,
            stage,
            place: _place,
            pending: _pending,
            met: _met,
        } = self;
        concluded(stage, place)
    }
}

/// The bundle that has ended, else the fault of bytes that end too early, before this place.
fn concluded(stage: Stage, place: u64) -> Result<Bundle, SpellError>
    ensures concludes { Concludes stage place result }
    ensures shape { IfOk result IsBundle }
{
    let early = SpellError::Fault(Fault {
        place,
        reason: Reason::Truncated,
    });
    match stage {
        Stage::Front => Err(early),
        Stage::Header(_begun) => Err(early),
        Stage::Body(_block) => Err(early),
        Stage::Tail(_closing) => Err(early),
        Stage::Done(begun) => match Bundle::of(begun.primary, begun.blocks) {
            Ok(bundle) => Ok(bundle),
            // Never met: what a reader has taken is a bundle.
            Err(_fault) => Err(early),
        },
    }
}
