//! The answer to a plan: a bundle of parts, or that it is too long.

ghost use Rattle.std.specs.Prelude.{◌≡◌};
ghost use Rattle.bpsec_facts.specs.declared.reason.PlanReason.TheVariants.{TooLong};
ghost use Rattle.bpsec_facts.specs.Refusal.{nowhere};
ghost use Rattle.bpsec_facts.specs.Answer.{Answers, HasShape, long_refusal};

use crate::reason::{PlanReason, Refusal};
use bp_blocks::Block;
use bp_bundle::Bundle;
use bp_primary::Primary;
use cbor_profile::List;

/// `TooLong`.
pub fn too_long() -> Refusal
    ensures { result ≡ nowhere TooLong }
{
    Refusal {
        reason: PlanReason::TooLong,
        at: None,
    }
}

/// The bundle of parts that have no other fault of shape than that they are too long.
pub fn bundle_of(primary: Primary, blocks: List<Block>) -> Result<Bundle, Refusal>
    requires { HasShape (record { primary = primary; blocks = blocks }) }
    ensures { Answers result (long_refusal (record { primary = primary; blocks = blocks }))
        (record { primary = primary; blocks = blocks }) }
{
    match Bundle::of(primary, blocks) {
        Ok(bundle) => Ok(bundle),
        Err(_) => Err(too_long()),
    }
}
