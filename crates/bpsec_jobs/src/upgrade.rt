//! `upgrade`: a policy as a text of version 2.

ghost use Rattle.std.specs.Prelude.{◌≡◌, IfOk};
ghost use Rattle.bpsec_jobs.specs.Done.{upgraded};

use crate::job::TextJob;
use bpsec_answer::{Answer, Status};
use bpsec_policy::Policy;
use cbor_profile::{Bytes, NoMemory};
use std::alloc::Global;

/// The job of `upgrade`.
#[derive(Clone, Copy)]
pub struct Upgrade;

impl TextJob for Upgrade {
    type Text = Policy;

    ghost answer_to = { λ _ policy. upgraded policy };

    fn answer(&self, alloc: Global, policy: Policy) -> Result<Answer, NoMemory> {
        let mut out = Bytes::new(alloc);
        policy.put_text(alloc, &mut out)?;
        Ok(Answer {
            status: Status::Done,
            out,
            report: Bytes::new(alloc),
        })
    }
}
