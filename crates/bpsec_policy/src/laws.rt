//! Laws over the definitions of this crate, each the contract of a function that does nothing.

ghost use Rattle.std.specs.Prelude.{◌≡◌, ◌⊎◌, ◌↔◌, ℕ, List, true, IsTrue, Some, None, slice_get};
ghost use Rattle.bpsec_policy.specs.declared.ring.NamedKey.{NamedKey};
ghost use Rattle.bpsec_policy.specs.declared.rule.Patterns.{Patterns};
ghost use Rattle.bpsec_policy.specs.declared.rule.RuleAt.{RuleAt};
ghost use Rattle.bpsec_policy.specs.Ring.{is_ring, key_of};
ghost use Rattle.bpsec_policy.specs.Rules.{Parts, matches};
ghost use Rattle.bpsec_policy.specs.Matching.{Operation, Matches, IsFirst, NoneMatches, rule_for};

/// Patterns pass their test exactly where each that is there matches.
pub fn patterns_mean_what_they_say()
    ensures { (p : Patterns) (op : Operation)
        → (matches p op.service op.source op.context op.target ≡ true) ↔ Matches p op }
{}

/// The rule of an operation matches and none before it does; or no rule does, and it is the default.
pub fn the_first_rule_decides()
    ensures { (policy : Parts) (op : Operation)
        → ((i : ℕ) × (r : RuleAt) × IsFirst policy.rules op i r × (rule_for policy op ≡ r.rule))
        ⊎ (NoneMatches policy.rules op × (rule_for policy op ≡ policy.default_rule)) }
{}

/// Each key of a ring is found under its name, and what is found under a name has it.
pub fn keys_are_found()
    ensures found { (keys : List NamedKey) (i : ℕ) (k : NamedKey) → IsTrue (is_ring keys)
        → slice_get keys i ≡ Some k
        → key_of keys k.name ≡ Some k.key }
    ensures means { (keys : List NamedKey) (name key : List ℕ) → key_of keys name ≡ Some key
        → (i : ℕ) × (slice_get keys i ≡ Some (record { name = name; key = key })) }
{}
