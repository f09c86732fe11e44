//! Laws alone: a further context for integrity beside those of RFC 9173 costs nothing above. A node's session is one over any
//! suite that keeps the laws, so it is one over this suite, with its functions in the place of the others.
#![tactic(auto)]

ghost use Rattle.std.specs.Prelude.{IfOk, IfErr};
ghost use Rattle.bpsec_node.specs.Situation.{meaning};
ghost use Rattle.bpsec_node.specs.Running.{Ran, Ended};

use bpsec_cmac::AlsoSuite;
use bpsec_context::{DefaultSuite, IntegrityContext, Suite};
use bpsec_node::{Chooser, Outcome, Session};
use bpsec_policy::KeyRing;
use cbor_profile::NoMemory;

/// The contexts of RFC 9173, and one more for integrity, whose id is neither 1 nor 2.
pub type Further<I> = AlsoSuite<I, DefaultSuite>;

/// A session over a suite with any further context, run by a chooser with the keys of a ring, ends with the one outcome of its
/// bundle, which no order of work occurs in.
pub fn run_with_a_further_context<'a, I: IntegrityContext, C: Chooser>(
    session: Session<'a, Further<I>>,
    ring: &KeyRing,
    chooser: &mut C,
) -> Result<Outcome, (Session<'a, Further<I>>, NoMemory)>
    ensures ok { IfOk result (Ended C.answer C.after
        (meaning ⟦<Further<I> as Suite>⟧.scope ⟦<Further<I> as Suite>⟧.judged
        ⟦<Further<I> as Suite>⟧.checked ⟦<Further<I> as Suite>⟧.opened)
        ring.now session.entry chooser.old) }
    ensures err { IfErr result (λ back. Ran C.answer C.after
        (meaning ⟦<Further<I> as Suite>⟧.scope ⟦<Further<I> as Suite>⟧.judged
        ⟦<Further<I> as Suite>⟧.checked ⟦<Further<I> as Suite>⟧.opened)
        ring.now session.entry back.0 chooser.old) }
{
    session.run_all(ring, chooser)
}
