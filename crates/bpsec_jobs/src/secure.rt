//! `secure`: the security blocks of a plan added to the bundle.

ghost use Rattle.std.specs.Prelude.{◌≡◌, IfOk};
ghost use Rattle.bpsec_jobs.specs.Done.{secured};

use crate::build::whole_bundle;
use crate::job::KeyedJob;
use bp_bundle::Bundle;
use bpsec_answer::{Answer, Status, refusal};
use bpsec_context::{DefaultSuite, GcmContext, HmacContext, laws};
use bpsec_facts::PlanFault;
use bpsec_plan::Plan;
use bpsec_policy::KeyRing;
use bpsec_secure::secure;
use cbor_profile::NoMemory;
use std::alloc::Global;

/// The job of `secure`.
#[derive(Clone, Copy)]
pub struct Secure;

impl KeyedJob for Secure {
    type Text = Plan;

    ghost answer_to = { λ _ items ring bundle. secured items ring bundle };

    fn answer(
        &self,
        alloc: Global,
        plan: Plan,
        ring: KeyRing,
        bundle: Bundle,
    ) -> Result<Answer, NoMemory> {
        laws::the_default_suite_is_rfc_9173();
        let suite = DefaultSuite {
            integrity: HmacContext,
            cipher: GcmContext,
        };
        match secure(alloc, &bundle, &plan, &ring, &suite) {
            Ok(made) => whole_bundle(alloc, &made),
            Err(PlanFault::Refused { reason, at }) => {
                refusal(alloc, Status::PlanRefused { reason, at })
            }
            Err(PlanFault::NoMemory) => Err(NoMemory::again()),
        }
    }
}
