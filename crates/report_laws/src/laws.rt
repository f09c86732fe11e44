//! Laws over the definitions of `bp_report` and of a node. Each is the contract of a function that does nothing.

ghost use Rattle.std.specs.Prelude.{◌≡◌, ◌≢◌, ℕ, Bool, true, List, Some, None};
ghost use Rattle.bp_eid.specs.declared.eid.Eid.{Eid};
ghost use Rattle.bp_bundle.specs.Shape.{Contents};
ghost use Rattle.bpsec_node.specs.declared.event.Event.{Event};
ghost use Rattle.bpsec_node.specs.Situation.{Situation};
ghost use Rattle.bpsec_node.specs.Outcome.{outcome};
ghost use Rattle.bp_report.specs.declared.subject.Subject.{Subject};
ghost use Rattle.bp_report.specs.declared.reason.ReasonCode.TheVariants.{NoAdditionalInformation};
ghost use Rattle.bp_report.specs.Reason.{reason_of};
ghost use Rattle.bp_report.specs.Due.{subject_of, due_report};

/// A report is never reported on, whatever becomes of it at another node, so that no reports of reports go to and fro
/// (RFC 9171, section 4.2.3).
pub fn reports_are_not_reported_on()
    ensures { (subject : Subject) (node : Eid) (events : List Event) (discarded : Bool)
        (time sequence : ℕ) (report : Contents)
        → due_report subject node events discarded time sequence ≡ Some report
        → (other : Eid) (more : List Event) (dropped : Bool) (later number : ℕ)
        → due_report (subject_of report) other more dropped later number ≡ None }
{}

/// Where a node discards a bundle, an event decides, and it has a code: the reason is one of RFC 9172, section 7.1.
pub fn deletions_have_a_reason()
    ensures { (s : Situation) → (outcome s).bundle ≡ None
        → reason_of (outcome s).events true ≢ NoAdditionalInformation }
{}
