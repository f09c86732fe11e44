//! `check`: how many bytes and canonical blocks the bundle has.

ghost use Rattle.std.specs.Prelude.{◌≡◌, length, IfOk};
ghost use Rattle.bp_bundle.specs.Spelling.{spelling};
ghost use Rattle.bpsec_jobs.specs.Done.{checked, ok_line};

use crate::job::BundleJob;
use bp_bundle::Bundle;
use bpsec_answer::{Answer, Status};
use cbor_profile::{Bytes, NoMemory};
use std::alloc::Global;

/// The line that counts a bundle's bytes and canonical blocks.
pub fn count_line(alloc: Global, bundle: &Bundle) -> Result<Bytes, NoMemory>
    ensures { IfOk result (λ line. line
        ≡ ok_line (length (spelling bundle.now)) (length bundle.now.blocks)) }
{
    let bytes = bundle.size();
    let blocks = bundle.blocks().len();
    let line = format!(in alloc; "ok bytes={bytes} blocks={blocks}\n")?;
    Ok(Bytes::of(line.into_bytes()))
}

/// The job of `check`.
#[derive(Clone, Copy)]
pub struct Check;

impl BundleJob for Check {
    ghost answer_to = { λ _ bundle. checked bundle };

    fn answer(&self, alloc: Global, bundle: Bundle) -> Result<Answer, NoMemory> {
        Ok(Answer {
            status: Status::Done,
            out: count_line(alloc, &bundle)?,
            report: Bytes::new(alloc),
        })
    }
}
