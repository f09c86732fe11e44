//! Spans of places.

ghost use Rattle.std.specs.Prelude.{◌≤◌};

/// The places from `from` on that are before `to`.
#[derive(Clone, Copy, Debug)]
pub(crate) struct Span {
    pub(crate) from: usize,
    pub(crate) to: usize,
    pub(crate) ghost ordered: { from ≤ to },
}
