//! All steps of the streaming decoder over some bytes.

ghost use Rattle.bp_bundle.specs.Step.{seen};
ghost use Rattle.bp_bundle.specs.Machine.{Follows, Ran};

use crate::at::At;
use crate::stage::{Outcome, Stage, Step};
use crate::steps::step;
use std::alloc::Global;

/// Steps until more bytes are wanted, the bundle has ended, or reading stops.
pub(crate) fn run<'a>(alloc: Global, stage: Stage, here: At<'a>) -> Outcome<'a>
    ensures { Ran stage (seen here.entry) result }
{
    let mut stage = stage;
    let mut here = here;
    loop {
        match step(alloc, stage, here) {
            Step::On(next, rest) => {
                stage = next;
                here = rest;
            }
            Step::Last(outcome) => return outcome,
        }
    }
}
