//! Targets.

/// What an operation applies to: for integrity the primary block, or a canonical block with this body; for confidentiality
/// a block whose body is sealed.
#[derive(Clone, Copy, Debug)]
pub enum TargetOf<'a> {
    Primary,
    Body(&'a [u8]),
    Sealed,
}

impl TargetOf<'_> {
    ghost use Rattle.std.specs.Prelude.{◌≡◌};
    ghost use Rattle.bpsec_scope.specs.Target.{target_of, is_primary};

    /// Whether it is the primary block.
    pub(crate) fn is_primary(self) -> bool
        ensures { result ≡ is_primary (target_of self.entry) }
    {
        matches!(self, TargetOf::Primary)
    }
}
