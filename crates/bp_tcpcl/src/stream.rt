//! Reading a stream from bytes that come in any pieces.

ghost use Rattle.std.specs.Prelude.{◌≡◌, ◌+◌, ◌≤◌, ℕ, List, [], true, false, None, Some, Ok, Err};
ghost use Rattle.bp_tcpcl.specs.declared.TheConstants.{INPUT_LIMIT};
ghost use Rattle.bp_tcpcl.specs.declared.message.Item.{Item};
ghost use Rattle.bp_tcpcl.specs.declared.reason.LinkError.{LinkError};
ghost use Rattle.bp_tcpcl.specs.declared.stop.Stop.TheVariants as stops;
ghost use Rattle.bp_tcpcl.specs.Taking.{Finds};

use crate::at::At;
use crate::laws;
use crate::message::Item;
use crate::part::read_part;
use crate::reason::{LinkError, LinkReason};
use crate::stop::Stop;
use cbor_profile::Bytes;
use std::alloc::Global;
use std::marker::Model;
use std::mem;

/// How much of a piece was taken, and the part that ended there.
#[derive(Debug, Drop)]
pub struct Taken {
    pub taken: usize,
    pub item: Option<Item>,
}

/// Reads one side's stream (RFC 9174) part by part: the contact header, and then messages. It stops at the first fault, and
/// answers it for good. It keeps the bytes of a part that isn't whole, and no more.
#[derive(Drop)]
pub struct Stream {
    alloc: Global,
    /// Whether the contact header was taken.
    opened: bool,
    /// How many bytes the parts have that were given.
    place: u64,
    /// The bytes of a part that isn't whole yet.
    pending: Bytes,
    /// The error that it has met.
    met: Option<LinkError>,
}

impl Model for Stream {
    ghost use Rattle.std.specs.Prelude.{◌≡◌, ◌≤◌, Err};
    ghost use Rattle.bp_tcpcl.specs.declared.TheConstants.{INPUT_LIMIT};
    ghost use Rattle.bp_tcpcl.specs.declared.stop.Stop.TheVariants as stops;
    ghost use Rattle.bp_tcpcl.specs.Reading.{front_at};
    ghost use Rattle.bp_tcpcl.specs.Taking.{Link};

    ghost Value = { Link };

    ghost view = { λ s. record { opened = s.opened; place = s.place; pending = s.pending; met = s.met } };

    ghost invariant = { λ s. (s.place ≤ INPUT_LIMIT)
        × (front_at s.opened s.place s.pending ≡ Err stops.More) };
}

/// What stands at the front of some bytes.
#[derive(Drop)]
enum Found {
    /// This part, in so many bytes.
    Whole(Item, usize),
    /// More bytes are wanted.
    More,
    /// A fault, or want of memory.
    Error(LinkError),
}

/// Looks for a part at the front of some bytes, which begin at this place.
fn next(alloc: Global, opened: bool, place: u64, bytes: &[u8]) -> Found
    requires { place ≤ INPUT_LIMIT }
    ensures { Finds opened place bytes.now result }
{
    laws::parts_are_read_as_spelled();
    let here = At {
        begin: place,
        place,
        rest: bytes,
    };
    match read_part(opened, here) {
        Ok((part, after)) => {
            let len = bytes.len().saturating_sub(after.rest.len());
            match part.owned(alloc) {
                Ok(item) => Found::Whole(item, len),
                Err(error) => Found::Error(LinkError::from(error)),
            }
        }
        Err(Stop::More) => Found::More,
        Err(Stop::Fault { place, reason }) => Found::Error(LinkError::Fault { place, reason }),
    }
}

impl Stream {
    ghost use Rattle.bp_tcpcl.specs.Reading.{front_at};
    ghost use Rattle.bp_tcpcl.specs.Taking.{Feeds, Finishes, Took, TookMore};

    /// Nothing taken yet. Takes no memory.
    pub fn new(alloc: Global) -> Stream
        ensures fresh { result
            ≡ record { opened = false; place = 0; pending = []; met = None } }
        ensures took { Took result [] [] }
    {
        Stream {
            alloc,
            opened: false,
            place: 0,
            pending: Bytes::new(alloc),
            met: None,
        }
    }

    /// Keeps an error, and answers it.
    fn fail(&mut self, error: LinkError) -> Result<Taken, LinkError>
        ensures result { result ≡ Err error }
        ensures met { self.new.met ≡ Some error }
    {
        self.met = Some(error);
        Err(error)
    }

    /// Keeps the bytes of a part that isn't whole. So many of them are new.
    fn wait(&mut self, pending: Bytes, taken: usize) -> Result<Taken, LinkError>
        requires { front_at self.old.opened self.old.place pending ≡ Err stops.More }
        ensures result { result ≡ Ok (record { taken = taken; item = None }) }
        ensures kept { self.new ≡ record self.old { pending = pending } }
    {
        self.pending = pending;
        Ok(Taken { taken, item: None })
    }

    /// Gives a part of so many bytes, of which so many are new.
    fn give(&mut self, item: Item, len: usize, taken: usize) -> Result<Taken, LinkError>
        requires { self.old.place + len ≤ INPUT_LIMIT }
        ensures result { result ≡ Ok (record { taken = taken; item = Some item }) }
        ensures kept { self.new ≡ record self.old {
          opened = true;
          place = self.old.place + len;
          pending = [];
        } }
    {
        self.opened = true;
        self.place += len as u64;
        self.pending = Bytes::new(self.alloc);
        Ok(Taken {
            taken,
            item: Some(item),
        })
    }

    /// Takes up to the end of the next part, and gives it, or takes the whole piece and gives none. An error is answered
    /// for good. Memory is asked for the bytes that came, never for a length that was announced.
    pub fn feed(&mut self, piece: &[u8]) -> Result<Taken, LinkError>
        // A part is given exactly where the bytes have one at their front, a fault is the first one.
        ensures means { self.old.met ≡ None → Feeds self.old piece.now self.new result }
        // The bytes taken are the spelling of the items given, and a rest that begins with no whole part.
        ensures took { (items : List Item) (bytes : List ℕ) → Took self.old items bytes
            → TookMore items bytes piece.now self.new result }
        ensures again { (error : LinkError) → self.old.met ≡ Some error
            → (result ≡ Err error) × (self.new ≡ self.old) }
    {
        laws::parts_are_read_as_spelled();
        if let Some(error) = self.met {
            return Err(error);
        }
        if self.pending.len() == 0 {
            return match next(self.alloc, self.opened, self.place, piece) {
                Found::Whole(item, len) => self.give(item, len, len),
                Found::More => {
                    let mut pending = Bytes::new(self.alloc);
                    match pending.extend(piece) {
                        Ok(()) => self.wait(pending, piece.len()),
                        Err(error) => self.fail(LinkError::from(error)),
                    }
                }
                Found::Error(error) => self.fail(error),
            };
        }
        let before = self.pending.len();
        let mut all = mem::replace(&mut self.pending, Bytes::new(self.alloc));
        if let Err(error) = all.extend(piece) {
            return self.fail(LinkError::from(error));
        }
        match next(self.alloc, self.opened, self.place, all.as_slice()) {
            Found::Whole(item, len) => self.give(item, len, len.saturating_sub(before)),
            Found::More => self.wait(all, piece.len()),
            Found::Error(error) => self.fail(error),
        }
    }

    /// The end of the input: `Truncated` where a part was begun and not ended, or the contact header isn't whole, and the
    /// error where one was met. Takes no memory.
    pub fn finish(&self) -> Result<(), LinkError>
        ensures means { self.now.met ≡ None → Finishes self.now result }
        ensures again { (error : LinkError) → self.now.met ≡ Some error → result ≡ Err error }
    {
        if let Some(error) = self.met {
            return Err(error);
        }
        let waiting = self.pending.as_slice().len();
        if self.opened && waiting == 0 {
            return Ok(());
        }
        Err(LinkError::Fault {
            place: self.place + waiting as u64,
            reason: LinkReason::Truncated,
        })
    }
}
