//! A place in the bytes of a bundle.

ghost use Rattle.std.specs.Prelude.{◌+◌, ◌<◌, ◌^◌, length};

/// A place in the bytes of a bundle.
#[derive(Clone, Copy)]
pub(crate) struct At<'a> {
    /// How many bytes stand before.
    pub(crate) place: u64,
    /// The bytes from here on.
    pub(crate) rest: &'a [u8],
    pub(crate) ghost fits: { place + length rest.now < 2 ^ 64 },
}
