//! A payload that is known in part.

ghost use Rattle.std.specs.Prelude.{◌≡◌, ◌≢◌, ◌+◌, ◌-◌, ◌^◌, ◌<◌, ◌≤◌, ◌++◌, ℕ, true, false, [], None, Some, length, take, drop, slice_index, is_none, IfOk, OnOk, OnErr};
ghost use Rattle.std.specs.List.{find, position};
ghost use Rattle.bp_fragments.specs.Spans.{is_in, is_covered, AreWithin};
ghost use Rattle.bp_fragments.specs.Overlaid.{Overlaid};
ghost use Rattle.bp_fragments.specs.Agreement.{clash_from};
ghost use Rattle.bp_fragments.specs.Kept.{nothing_known};
ghost use Rattle.bp_fragments.specs.Joined.{whole_payload};

use crate::fault::AddFault;
use crate::span::Span;
use crate::spans::merged;
use cbor_profile::{Bytes, List, NoMemory};
use std::alloc::Global;
use std::marker::Model;

/// A payload of which some bytes are known: its bytes, zeros where they aren't known, and the spans that are. A contract sees
/// it as the list of the bytes that are known.
#[derive(Drop)]
pub(crate) struct Payload {
    bytes: Bytes,
    covered: List<Span>,
}

impl Model for Payload {
    ghost use Rattle.std.specs.Prelude.{ℕ, List, Option, length};
    ghost use Rattle.bp_fragments.specs.Spans.{seen, AreWithin};

    ghost Value = { List (Option ℕ) };

    ghost view = { λ p. seen p.covered p.bytes };

    ghost invariant = { λ p. AreWithin p.covered (length p.bytes) };
}

/// The index of the first difference, or the length.
fn first_difference(a: &[u8], b: &[u8]) -> usize
    requires { length a.now ≡ length b.now }
    ensures within { result ≤ length a.now }
    ensures same { (k : ℕ) → k < result → slice_index a.now k ≡ slice_index b.now k }
    ensures differs { result < length a.now → slice_index a.now result ≢ slice_index b.now result }
{
    if a == b {
        return a.len();
    }
    for i in 0..a.len() {
        if a[i] != b[i] {
            return i;
        }
    }
    a.len()
}

/// The least place before `end` that the span covers and at which the piece has another byte, or `end`.
fn clash_in(bytes: &[u8], span: Span, offset: usize, piece: &[u8], end: usize) -> usize
    requires inside { span.to ≤ length bytes.now }
    requires begin { offset ≤ end }
    requires end { end ≤ offset + length piece.now }
    ensures within { result ≤ end }
    ensures behind { offset ≤ result }
    ensures same { (place : ℕ) → offset ≤ place → place < result → is_in span place ≡ true
        → slice_index bytes.now place ≡ slice_index piece.now (place - offset) }
    ensures differs { result < end
        → (is_in span result ≡ true) × (slice_index bytes.now result
        ≢ slice_index piece.now (result - offset)) }
{
    let from = span.from.max(offset);
    let to = span.to.min(end);
    if from >= to {
        return end;
    }
    let at = from + first_difference(&bytes[from..to], &piece[from - offset..to - offset]);
    if at < to { at } else { end }
}

/// The least place that is covered and at which the piece has another byte, or the piece's end.
fn clash_place(bytes: &[u8], covered: &[Span], offset: usize, piece: &[u8]) -> usize
    requires inside { AreWithin covered.now (length bytes.now) }
    requires fits { offset + length piece.now < 2 ^ 64 }
    ensures within { result ≤ offset + length piece.now }
    ensures behind { offset ≤ result }
    ensures same { (place : ℕ) → offset ≤ place → place < result
        → is_covered covered.now place ≡ true
        → slice_index bytes.now place ≡ slice_index piece.now (place - offset) }
    ensures differs { result < offset + length piece.now
        → (is_covered covered.now result ≡ true)
        × (slice_index bytes.now result ≢ slice_index piece.now (result - offset))
        × (result < length bytes.now) }
{
    let mut end = offset + piece.len();
    for span in covered {
        end = clash_in(bytes, *span, offset, piece, end);
    }
    end
}

/// Writes the piece over the bytes from this place on.
fn write_at(bytes: &mut [u8], offset: usize, piece: &[u8])
    requires { offset + length piece.now ≤ length bytes.old }
    ensures { bytes.new ≡ take offset bytes.old ++ piece.now
        ++ drop (offset + length piece.now) bytes.old }
{
    let end = offset + piece.len();
    bytes[offset..end].copy_from_slice(piece);
}

/// The least place that no span covers, or the end.
fn gap_from(covered: &[Span], len: usize) -> usize
    requires { AreWithin covered.now len }
    ensures within { result ≤ len }
    ensures covered { (place : ℕ) → place < result → is_covered covered.now place ≡ true }
    ensures gap { result < len → is_covered covered.now result ≡ false }
{
    let mut place = 0;
    'places: loop {
        match covering(covered, place) {
            Some(span) => place = span.to,
            None => return place,
        }
    }
}

/// A span that covers the place.
fn covering(covered: &[Span], place: usize) -> Option<Span>
    ensures { result ≡ find (λ span. is_in span place) covered.now }
{
    covered
        .iter()
        .copied()
        .find(|span| span.from <= place && place < span.to)
}

impl Payload {
    /// Nothing of no bytes. Takes no memory.
    pub(crate) fn empty(alloc: Global) -> Payload
        ensures { result ≡ [] }
    {
        Payload {
            bytes: Bytes::new(alloc),
            covered: List::new(alloc),
        }
    }

    /// Nothing is known of so many bytes.
    pub(crate) fn unknown(alloc: Global, total: usize) -> Result<Payload, NoMemory>
        ensures { IfOk result (λ payload. payload ≡ nothing_known total) }
    {
        Ok(Payload {
            bytes: Bytes::of(vec![in alloc; 0u8; total]?),
            covered: List::new(alloc),
        })
    }

    /// How many bytes are looked for.
    pub(crate) fn len(&self) -> usize
        ensures { result ≡ length self.now }
    {
        self.bytes.len()
    }

    /// The first byte of the piece that isn't the one that is known.
    pub(crate) fn clash(&self, offset: usize, piece: &[u8]) -> Option<AddFault>
        requires { offset + length piece.now < 2 ^ 64 }
        ensures { result ≡ clash_from self.now offset piece.now }
    {
        let bytes = self.bytes.as_slice();
        let place = clash_place(bytes, self.covered.items(), offset, piece);
        if place == offset + piece.len() {
            return None;
        }
        Some(AddFault::Disagree {
            place: place as u64,
            kept: bytes[place],
            given: piece[place - offset],
        })
    }

    /// Keeps the piece. It takes all its room before it changes anything.
    pub(crate) fn put(&mut self, alloc: Global, offset: usize, piece: &[u8]) -> Result<(), NoMemory>
        requires room { offset + length piece.now ≤ length self.old }
        requires fits { offset + length piece.now < 2 ^ 64 }
        ensures ok { OnOk result (Overlaid self.old offset piece.now self.new) }
        ensures err { OnErr result (self.new ≡ self.old) }
    {
        let span = Span {
            from: offset,
            to: offset + piece.len(),
        };
        let spans = merged(alloc, self.covered.items(), span)?;
        write_at(self.bytes.as_mut_slice(), offset, piece);
        self.covered = spans;
        Ok(())
    }

    /// The least place at which no byte is known.
    pub(crate) fn gap(&self) -> Option<usize>
        ensures { result ≡ position is_none self.now }
    {
        let len = self.bytes.len();
        let place = gap_from(self.covered.items(), len);
        if place < len { Some(place) } else { None }
    }

    /// The bytes, of which all are known.
    pub(crate) fn into_bytes(self) -> Bytes
        ensures { position is_none self ≡ None → result ≡ whole_payload self }
    {
        self.bytes
    }
}
