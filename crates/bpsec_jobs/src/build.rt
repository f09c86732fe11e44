//! `build`: the bundle of a text, and how many bytes and canonical blocks it has.

ghost use Rattle.std.specs.Prelude.{◌≡◌, IfOk};
ghost use Rattle.bpsec_jobs.specs.Done.{built};

use crate::check::count_line;
use crate::job::TextJob;
use bp_bundle::Bundle;
use bpsec_answer::{Answer, Status};
use cbor_profile::{Bytes, NoMemory};
use std::alloc::Global;

/// The answer that is a bundle, and counts it.
pub fn whole_bundle(alloc: Global, bundle: &Bundle) -> Result<Answer, NoMemory>
    ensures { IfOk result (λ answer. answer ≡ built bundle.now) }
{
    let report = count_line(alloc, bundle)?;
    let mut out = Bytes::new(alloc);
    bundle.encode(&mut out)?;
    Ok(Answer {
        status: Status::Done,
        out,
        report,
    })
}

/// The job of `build`.
#[derive(Clone, Copy)]
pub struct Build;

impl TextJob for Build {
    type Text = Bundle;

    ghost answer_to = { λ _ bundle. built bundle };

    fn answer(&self, alloc: Global, bundle: Bundle) -> Result<Answer, NoMemory> {
        whole_bundle(alloc, &bundle)
    }
}
