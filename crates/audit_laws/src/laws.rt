//! Laws over the findings of `bpsec_audit`. Each is the contract of a function that does nothing but name the laws that it
//! follows from.

ghost use Rattle.std.specs.Prelude.{◌≡◌, ◌≢◌, ℕ, Some, None, Ok, List, length, take};
ghost use Rattle.bp_blocks.specs.declared.block.Block.{Block};
ghost use Rattle.bp_bundle.specs.Shape.{Contents};
ghost use Rattle.bpsec_asb.specs.declared.asb.Pair.{Pair};
ghost use Rattle.bpsec_asb.specs.declared.operation.OpId.{OpId};
ghost use Rattle.bpsec_scope.specs.Parts.{Parts};
ghost use Rattle.bpsec_policy.specs.Rules as policies;
ghost use Rattle.bpsec_policy.specs.declared.ring.NamedKey.{NamedKey};
ghost use Rattle.bpsec_plan.specs.declared.item.Item.{Item};
ghost use Rattle.gcm_core.specs.Counter.{bytes_sum};
ghost use Rattle.gcm_core.specs.Gcm.{ciphered};
ghost use Rattle.bpsec_context.specs.Calls.{Protected};
ghost use Rattle.bpsec_context.specs.Confidentiality.{sealed};
ghost use Rattle.bpsec_facts.specs.Facts.{Facts};
ghost use Rattle.bpsec_secure.specs.Secured as plans;
ghost use Rattle.bpsec_node.specs.Situation.{Meaning, meaning};
ghost use Rattle.bpsec_node.specs.Ring.{key_named, at_node};
ghost use Rattle.bpsec_node.specs.Verdict.{rule, verdict, step_verdict};
ghost use Rattle.bpsec_node.specs.declared.event.Verdict.TheVariants.{Passed};
ghost use Rattle.audit_laws.specs.Keyless.{NeedsKeys, IsKeyless};

use bpsec_context::{DefaultSuite, Suite};

/// A rule of which `no-key` or `unknown-key` is told lets nothing pass: whatever bundle comes, no operation that it decides has the
/// verdict `passed`. The same holds of each rule that names no key of the ring, whether anything is told of it or not. So of
/// every suite that judges nothing Right without a key, as the contexts of RFC 9173 do.
pub fn rules_without_a_key_let_nothing_pass()
    ensures told { (suite : Meaning) (bundle : Contents) (policy : policies.Parts)
        (ring : List NamedKey) (op : OpId)
        → NeedsKeys suite
        → IsKeyless ring (rule (at_node suite bundle policy ring) op)
        → verdict (at_node suite bundle policy ring) op ≢ Passed }
    ensures keyless { (suite : Meaning) (bundle : Contents) (policy : policies.Parts)
        (ring : List NamedKey) (op : OpId)
        → NeedsKeys suite
        → key_named ring (rule (at_node suite bundle policy ring) op).key ≡ None
        → verdict (at_node suite bundle policy ring) op ≢ Passed }
    ensures step { (suite : Meaning) (bundle : Contents) (policy : policies.Parts)
        (ring : List NamedKey) (op : OpId)
        → NeedsKeys suite
        → key_named ring (rule (at_node suite bundle policy ring) op).key ≡ None
        → step_verdict (at_node suite bundle policy ring) op ≢ Passed }
    ensures suite { NeedsKeys (meaning ⟦<DefaultSuite as Suite>⟧.scope
        ⟦<DefaultSuite as Suite>⟧.judged ⟦<DefaultSuite as Suite>⟧.checked
        ⟦<DefaultSuite as Suite>⟧.opened) }
{
    bpsec_node::laws::operations_have_the_keys_of_their_rules();
}

/// What `shared-vector` tells of: the targets of one item are sealed under one key and one initialisation vector. The exclusive
/// or of two of their ciphertexts is that of the bodies, and who knows or guesses one body reads as many bytes of the other. So in
/// the bundle that a plan gives, with the tag in the body too: there the ciphertext is as long a front as the body was.
pub fn a_shared_vector_gives_bodies_away()
    ensures ciphers { (e : List ℕ → List ℕ) (iv one other : List ℕ)
        → bytes_sum (ciphered e iv one) (ciphered e iv other) ≡ bytes_sum one other }
    ensures sealed { (key : List ℕ) (parameters : List Pair) (a b : Parts) (one other : List ℕ)
        (first second : Protected)
        → sealed key parameters a one ≡ Ok first → sealed key parameters b other ≡ Ok second
        → bytes_sum first.ciphertext second.ciphertext ≡ bytes_sum one other }
    ensures read { (key : List ℕ) (parameters : List Pair) (a b : Parts) (one other : List ℕ)
        (first second : Protected)
        → sealed key parameters a one ≡ Ok first → sealed key parameters b other ≡ Ok second
        → bytes_sum (bytes_sum second.ciphertext first.ciphertext) one ≡ take (length one) other }
    ensures secured { (facts : Facts) (item : Item) (one other : Block)
        → plans.sealing_item facts one ≡ Some item → plans.sealing_item facts other ≡ Some item
        → bytes_sum (take (length one.body) (plans.sealed facts one).body)
        (take (length other.body) (plans.sealed facts other).body)
        ≡ bytes_sum one.body other.body }
{
    gcm_core::laws::ciphertext_is_as_long_as_the_body();
}
