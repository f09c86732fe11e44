//! `explain`: the bundle in lines.

ghost use Rattle.std.specs.Prelude.{◌≡◌, IfOk};
ghost use Rattle.bpsec_jobs.specs.Done.{explained};

use crate::job::BundleJob;
use bp_bundle::Bundle;
use bpsec_answer::{Answer, Status};
use bpsec_explain::explain;
use cbor_profile::{Bytes, NoMemory};
use std::alloc::Global;

/// The job of `explain`.
#[derive(Clone, Copy)]
pub struct Explain;

impl BundleJob for Explain {
    ghost answer_to = { λ _ bundle. explained bundle };

    fn answer(&self, alloc: Global, bundle: Bundle) -> Result<Answer, NoMemory> {
        let mut out = Bytes::new(alloc);
        explain(alloc, &bundle, &mut out)?;
        Ok(Answer {
            status: Status::Done,
            out,
            report: Bytes::new(alloc),
        })
    }
}
