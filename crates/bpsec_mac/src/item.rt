//! What a code is to be made of.

ghost use Rattle.std.specs.Prelude.{◌≡◌, IfOk};
ghost use Rattle.bpsec_mac.specs.Mac.{cover_of};

use bp_crc::CheckKind;
use bp_eid::Eid;
use bpsec_plan::Cover;
use cbor_profile::{Bytes, List, NoMemory};
use std::alloc::Global;

/// A block integrity block with a code of AES-CMAC over one target.
#[derive(Debug, Drop)]
pub struct MacItem {
    /// The number of the new block.
    pub block: u64,
    /// The number of the target; 0 is the primary block.
    pub target: u64,
    /// The security source.
    pub source: Eid,
    /// The name of the key, which is one of AES-128.
    pub key: Bytes,
    /// The scope flags (RFC 9173, section 3.3.3), modulo 8.
    pub scope: u64,
}

/// The item of a plan that it is read for.
pub(crate) fn cover_of(alloc: Global, item: &MacItem) -> Result<Cover, NoMemory>
    ensures { IfOk result (λ cover. cover ≡ cover_of item.now) }
{
    let mut targets = List::new(alloc);
    targets.append(item.target)?;
    Ok(Cover {
        block: item.block,
        flags: 0,
        crc: CheckKind::None,
        targets,
        source: item.source.copy(alloc)?,
        key: item.key.copy(alloc)?,
        wrapped_with: None,
        variant: 5,
        scope: item.scope,
    })
}
