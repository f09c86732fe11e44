//! Check types.

use bp_crc::CheckKind;
use worked_tables::Trouble;

/// A check type by its number.
pub fn check_kind(number: u64) -> Result<CheckKind, Trouble> {
    match number {
        0 => Ok(CheckKind::None),
        1 => Ok(CheckKind::Crc16),
        2 => Ok(CheckKind::Crc32c),
        _ => Err(Trouble::Row("a check type")),
    }
}
