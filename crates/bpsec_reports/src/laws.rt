//! Laws over the definitions of this crate. Each is the contract of a function that does nothing.

ghost use Rattle.std.specs.Prelude.{◌≡◌, ℕ, List};
ghost use Rattle.bp_bundle.specs.Shape.{Contents};
ghost use Rattle.bpsec_policy.specs.Rules.{Parts};
ghost use Rattle.bpsec_policy.specs.declared.ring.NamedKey.{NamedKey};
ghost use Rattle.bpsec_reports.specs.Reported.{reported};

/// The bundle that `status` writes, or that it writes none, is the same for each order of the operations.
pub fn reports_are_the_same_in_every_order()
    ensures { (one other time sequence : ℕ) (policy : Parts) (ring : List NamedKey)
        → (bundle : Contents)
        → (reported one time sequence policy ring bundle).out
        ≡ (reported other time sequence policy ring bundle).out }
{}
