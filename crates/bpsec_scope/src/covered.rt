//! What an operation may cover.

ghost use Rattle.std.specs.Prelude.{◌≡◌, not, is_some};
ghost use Rattle.bpsec_scope.specs.Target.{target_of, is_primary};

use crate::header::Header;
use crate::target::TargetOf;
use bp_primary::Primary;

/// The parts of a bundle that an operation may cover. The header of the target is there exactly where the target isn't the
/// primary block.
#[derive(Clone, Copy)]
pub struct Covered<'a> {
    pub target: TargetOf<'a>,
    pub primary: &'a Primary,
    pub target_header: Option<Header>,
    pub security_header: Header,
    pub ghost header: { is_some target_header ≡ not (is_primary (target_of target)) },
}
