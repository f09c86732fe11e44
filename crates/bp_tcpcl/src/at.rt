//! A place in a part.

ghost use Rattle.std.specs.Prelude.{◌≡◌, ◌+◌, ◌<◌, ◌≤◌, ◌^◌, length};

/// A place in a part.
#[derive(Clone, Copy)]
pub(crate) struct At<'a> {
    /// The place of the part.
    pub(crate) begin: u64,
    /// How many bytes of the input stand before.
    pub(crate) place: u64,
    /// The bytes from here on.
    pub(crate) rest: &'a [u8],
    pub(crate) ghost fits: { place + length rest.now < 2 ^ 64 },
}

impl<'a> At<'a> {
    ghost use Rattle.bp_tcpcl.specs.Reading.{past};
    ghost use Rattle.bp_tcpcl.specs.Step.{seen};

    /// So many bytes further.
    pub(crate) fn past(self, count: usize) -> At<'a>
        requires { count ≤ length self.rest.now }
        ensures { seen result ≡ past count (seen self.entry) }
    {
        At {
            begin: self.begin,
            place: self.place + count as u64,
            rest: &self.rest[count..],
        }
    }
}
