//! Spans that are merged where they touch.

ghost use Rattle.std.specs.Prelude.{◌≡◌, ◌≤◌, ◌||◌, ℕ, IsTrue, min, max, IfOk};
ghost use Rattle.bp_fragments.specs.Spans.{is_in, is_covered, AreWithin};

use crate::span::Span;
use cbor_profile::{List, NoMemory};
use std::alloc::Global;

/// Whether the spans overlap, or one begins where the other ends.
fn touches(a: Span, b: Span) -> bool
    ensures { IsTrue result → (a.from ≤ b.to) × (b.from ≤ a.to) }
{
    a.from <= b.to && b.from <= a.to
}

/// The places from the first of both to the last.
fn hull(a: Span, b: Span) -> Span
    ensures from { result.from ≡ min a.from b.from }
    ensures to { result.to ≡ max a.to b.to }
{
    Span {
        from: a.from.min(b.from),
        to: a.to.max(b.to),
    }
}

/// Takes a span to the one that grows where they touch, else to those that stand apart.
fn absorbed(apart: &mut List<Span>, whole: Span, span: Span) -> Result<Span, NoMemory>
    ensures covers { IfOk result (λ after. (place : ℕ)
        → (is_covered apart.new place || is_in after place)
        ≡ ((is_covered apart.old place || is_in whole place) || is_in span place)) }
    ensures within { IfOk result (λ after. (len : ℕ) → AreWithin apart.old len → whole.to ≤ len
        → span.to ≤ len → AreWithin apart.new len × (after.to ≤ len)) }
{
    if touches(whole, span) {
        return Ok(hull(whole, span));
    }
    apart.append(span)?;
    Ok(whole)
}

/// The spans and one more, with those that touch it in one.
pub(crate) fn merged(alloc: Global, spans: &[Span], more: Span) -> Result<List<Span>, NoMemory>
    ensures covers { IfOk result (λ merged. (place : ℕ)
        → is_covered merged place ≡ (is_covered spans.now place || is_in more place)) }
    ensures within { IfOk result (λ merged. (len : ℕ) → AreWithin spans.now len → more.to ≤ len
        → AreWithin merged len) }
{
    let mut apart = List::new(alloc);
    let mut whole = more;
    for span in spans {
        match absorbed(&mut apart, whole, *span) {
            Ok(after) => whole = after,
            Err(error) => return Err(error),
        }
    }
    match apart.append(whole) {
        Ok(()) => Ok(apart),
        Err(error) => Err(error),
    }
}
