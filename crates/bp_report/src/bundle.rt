//! The bundle of a report.

ghost use Rattle.std.specs.Prelude.{◌≡◌, ◌≤◌, IfOk, length};
ghost use Rattle.bp_status.specs.StatusReport.{spelling};
ghost use Rattle.bp_report.specs.Due.{report_primary, report_block, report_bundle};

use bp_blocks::Block;
use bp_bundle::Bundle;
use bp_crc::CheckKind;
use bp_eid::Eid;
use bp_primary::Primary;
use bp_status::Report;
use cbor_profile::{Bytes, List, NoMemory};
use std::alloc::Global;

/// The primary block of a report.
fn report_primary(
    alloc: Global,
    primary: &Primary,
    node: &Eid,
    time: u64,
    sequence: u64,
) -> Result<Primary, NoMemory>
    ensures { IfOk result (λ made. made ≡ report_primary primary.now node.now time sequence) }
{
    Ok(Primary {
        flags: 0x2,
        crc: CheckKind::Crc32c,
        destination: primary.report_to.copy(alloc)?,
        source: node.copy(alloc)?,
        report_to: Eid::Null,
        created: time,
        sequence,
        lifetime: primary.lifetime,
        fragment: None,
    })
}

/// The payload block of a report.
fn report_block(alloc: Global, report: &Report) -> Result<Block, NoMemory>
    ensures block { IfOk result (λ block. block ≡ report_block report.now) }
    ensures short { length (spelling report.now) ≤ 1123 }
{
    let _size = report.size();
    let mut body = Bytes::new(alloc);
    report.put(&mut body)?;
    Ok(Block {
        kind: 1,
        number: 1,
        flags: 0,
        crc: CheckKind::None,
        body,
    })
}

/// The bundle of a report.
#[tactic(auto, unfolding(crate::specs::Due::report_bundle))]
pub(crate) fn report_bundle(
    alloc: Global,
    primary: &Primary,
    node: &Eid,
    report: &Report,
    time: u64,
    sequence: u64,
) -> Result<Bundle, NoMemory>
    ensures { IfOk result
        (λ made. made ≡ report_bundle primary.now node.now report.now time sequence) }
{
    let primary = report_primary(alloc, primary, node, time, sequence)?;
    let block = report_block(alloc, report)?;
    // Read for its bound.
    let _size = primary.size();
    let mut blocks = List::new(alloc);
    blocks.append(block)?;
    match Bundle::of(primary, blocks) {
        Ok(made) => Ok(made),
        Err(_) => unreachable!(),
    }
}
