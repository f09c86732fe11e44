//! What the flags of a bundle say of its reports (RFC 9171, section 4.2.3).

ghost use Rattle.std.specs.Prelude.{◌≡◌};
ghost use Rattle.bp_report.specs.Due.{is_administrative, asks_for_times, is_received, is_deleted};

/// Whether its payload is an administrative record.
pub(crate) fn is_administrative(flags: u64) -> bool
    ensures { result ≡ is_administrative flags }
{
    flags / 0x2 % 2 == 1
}

/// Whether times are asked for in its reports.
pub(crate) fn asks_for_times(flags: u64) -> bool
    ensures { result ≡ asks_for_times flags }
{
    flags / 0x40 % 2 == 1
}

/// Whether its reception is asserted.
pub(crate) fn is_received(flags: u64) -> bool
    ensures { result ≡ is_received flags }
{
    flags / 0x4000 % 2 == 1
}

/// Whether its deletion is asserted.
pub(crate) fn is_deleted(flags: u64, discarded: bool) -> bool
    ensures { result ≡ is_deleted flags discarded }
{
    flags / 0x40000 % 2 == 1 && discarded
}
