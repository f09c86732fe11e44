//! Laws over the definitions of this crate, each the contract of a function that does nothing.

ghost use Rattle.std.specs.Prelude.{◌≡◌, ◌≢◌, ℕ, ℤ, [], Option, Some, slice_get, take};
ghost use Rattle.bp_eid.specs.declared.eid.Eid.{Eid};
ghost use Rattle.bpsec_asb.specs.declared.operation.Service.{Service};
ghost use Rattle.bpsec_policy.specs.declared.rule.TargetKind.{TargetKind};
ghost use Rattle.bpsec_policy.specs.declared.rule.RuleAt.{RuleAt};
ghost use Rattle.bpsec_policy.specs.Rules.{Parts, rule_of};
ghost use Rattle.bpsec_audit.specs.Reach.{without};
ghost use Rattle.bpsec_audit.specs.Rules.{dead_lines};

/// A rule of which `dead` is told never decides: without it each operation has the same rule, whatever its service, source,
/// context and target are.
pub fn dead_rules_never_decide()
    ensures { (policy : Parts) (i : ℕ) (r : RuleAt) → slice_get policy.rules i ≡ Some r
        → dead_lines (take i policy.rules) r ≢ []
        → (service : Service) (source : Eid) (context : ℤ) (target : Option TargetKind)
        → rule_of (without i policy) service source context target
        ≡ rule_of policy service source context target }
{}
