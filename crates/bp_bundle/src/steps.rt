//! The steps of the streaming decoder from state to state.

ghost use Rattle.std.specs.Prelude.{◌≡◌, ◌+◌, ◌≤◌, ◌++◌, ◌∷◌, [], length, IfOk};
ghost use Rattle.bp_bundle.specs.Step.{Fails, seen};
ghost use Rattle.bp_bundle.specs.FirstFault.{block_of};
ghost use Rattle.bp_bundle.specs.Machine.{resume, Steps};
ghost use Rattle.bp_bundle.specs.Tokens.{Cursor};
ghost use Rattle.bp_bundle.specs.declared.stage.Stage.{Stage};
ghost use Rattle.bp_bundle.specs.declared.stage.Stage.TheVariants as stages;

use crate::at::At;
use crate::block_header::header;
use crate::bodies::{absorbed, closed, opened, pushed};
use crate::cursor::end;
use crate::front::front;
use crate::parts::check;
use crate::shape::is_payload;
use crate::stage::{Begun, Closing, Open, Outcome, Stage, Step};
use cbor_profile::{List, NoMemory, Reason, SpellError};
use std::alloc::Global;

/// Reading failed here: bytes are missing, or it stops for good.
pub(crate) fn stopped<'a>(stage: Stage, here: At<'a>, error: SpellError) -> Step<'a>
    requires { Fails error (resume stage (seen here)) }
    ensures { Steps stage (seen here.entry) result }
{
    cbor_profile::laws::heads_are_judged_from_the_left();
    bp_eid::laws::answers_stay_the_same();
    match error {
        SpellError::NoMemory => Step::Last(Outcome::Stop(error)),
        SpellError::Fault(fault) => match fault.reason {
            Reason::Truncated => Step::Last(Outcome::Wait(stage, here)),
            _ => Step::Last(Outcome::Stop(error)),
        },
    }
}

/// Reading stops for want of memory.
fn out_of_memory<'a>(error: NoMemory) -> Step<'a>
    ensures { (stage : Stage) (cursor : Cursor) → Steps stage cursor result }
{
    Step::Last(Outcome::Stop(SpellError::from(error)))
}

/// Reads the begin of a bundle and its primary block.
pub(crate) fn at_front<'a>(alloc: Global, here: At<'a>) -> Step<'a>
    ensures { Steps stages.Front (seen here.entry) result }
{
    cbor_profile::laws::heads_are_judged_from_the_left();
    bp_eid::laws::answers_stay_the_same();
    match front(alloc, here) {
        Ok((primary, rest)) => {
            let begun = Begun {
                primary,
                blocks: List::new(alloc),
            };
            Step::On(Stage::Header(begun), rest)
        }
        Err(error) => stopped(Stage::Front, here, error),
    }
}

/// Reads the header of a block.
pub(crate) fn at_header<'a>(alloc: Global, begun: Begun, here: At<'a>) -> Step<'a>
    ensures { Steps (stages.Header begun) (seen here.entry) result }
{
    cbor_profile::laws::heads_are_judged_from_the_left();
    bp_eid::laws::answers_stay_the_same();
    match header(begun.blocks.items(), here) {
        Ok((found, rest)) => Step::On(Stage::Body(opened(alloc, begun, found)), rest),
        Err(fault) => stopped(Stage::Header(begun), here, SpellError::Fault(fault)),
    }
}

/// Takes what has come of the body.
pub(crate) fn at_body<'a>(block: Open, here: At<'a>) -> Step<'a>
    ensures { Steps (stages.Body block) (seen here.entry) result }
{
    let wanted = (block.header.len - block.body.len() as u64) as usize;
    if here.rest.len() < wanted {
        return match absorbed(block, here.rest) {
            Ok(next) => { Step::Last(Outcome::Wait(Stage::Body(next), here.past(here.rest.len()))) }
            Err(error) => out_of_memory(error),
        };
    }
    match absorbed(block, &here.rest[..wanted]) {
        Ok(next) => Step::On(Stage::Tail(closed(next)), here.past(wanted)),
        Err(error) => out_of_memory(error),
    }
}

/// Reads the check of a block, and after the payload block the end of the bundle.
pub(crate) fn at_tail<'a>(closing: Closing, here: At<'a>) -> Step<'a>
    ensures { Steps (stages.Tail closing) (seen here.entry) result }
{
    cbor_profile::laws::heads_are_judged_from_the_left();
    bp_eid::laws::answers_stay_the_same();
    match check(closing.block.crc, closing.check.as_slice(), here) {
        Err(fault) => stopped(Stage::Tail(closing), here, SpellError::Fault(fault)),
        Ok(rest) if is_payload(&closing.block) => match end(rest) {
            Err(fault) => stopped(Stage::Tail(closing), here, SpellError::Fault(fault)),
            Ok(rest) => match pushed(closing) {
                Ok(begun) => Step::Last(Outcome::End(begun, rest)),
                Err(error) => out_of_memory(error),
            },
        },
        Ok(rest) => match pushed(closing) {
            Ok(begun) => Step::On(Stage::Header(begun), rest),
            Err(error) => out_of_memory(error),
        },
    }
}

/// One step.
pub(crate) fn step<'a>(alloc: Global, stage: Stage, here: At<'a>) -> Step<'a>
    ensures { Steps stage (seen here.entry) result }
{
    match stage {
        Stage::Front => at_front(alloc, here),
        Stage::Header(begun) => at_header(alloc, begun, here),
        Stage::Body(block) => at_body(block, here),
        Stage::Tail(closing) => at_tail(closing, here),
        Stage::Done(begun) => Step::Last(Outcome::End(begun, here)),
    }
}
