//! What a plan meets.

use crate::bibs::{ResultBib, ShownBib};
use bp_blocks::Block;
use bp_primary::Primary;
use bpsec_asb::OpId;
use bpsec_plan::Item;
use bpsec_policy::KeyRing;

/// The bundle as it is handed in, its known operations, its block integrity blocks that no operation covers, those of the
/// result, and the plan and the keys.
#[derive(Clone, Copy)]
pub struct Case<'a> {
    pub primary: &'a Primary,
    pub blocks: &'a [Block],
    pub ops: &'a [OpId],
    pub shown: &'a [ShownBib],
    pub bibs: &'a [ResultBib],
    pub items: &'a [Item],
    pub ring: &'a KeyRing,
}
