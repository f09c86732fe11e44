//! Laws over the definitions of this crate. Each is the contract of a function that does nothing.

ghost use Rattle.std.specs.Prelude.{◌≡◌, ◌≢◌, ◌≤◌, ◌↔◌, ◌⊎◌, ℕ, [], false, Some, None, Option, List};
ghost use Rattle.std.specs.Prelude.{Contains, AllPairs, length};
ghost use Rattle.bp_bundle.specs.Shape.{Contents};
ghost use Rattle.bp_bundle.specs.Spelling.{IsBundle};
ghost use Rattle.bpsec_asb.specs.Operations.{BodiesAreBytes, IsHeldBy, IsOperationOf, Covers, IsVisible, IsKnown};
ghost use Rattle.bpsec_asb.specs.declared.operation.OpId.{OpId};
ghost use Rattle.bpsec_asb.specs.declared.operation.Service.TheVariants.{Bib, Bcb};
ghost use Rattle.bp_blocks.specs.declared.block.Block.{Block};
ghost use Rattle.bpsec_scope.specs.Parts.{IsParts};
ghost use Rattle.bpsec_policy.specs.Rules as policies;
ghost use Rattle.bpsec_policy.specs.declared.ring.NamedKey.{NamedKey};
ghost use Rattle.bpsec_node.specs.Situation.{Meaning, Situation};
ghost use Rattle.bpsec_node.specs.Agree.{with_keys, Agree};
ghost use Rattle.bpsec_node.specs.Alike.{Alike};
ghost use Rattle.bpsec_node.specs.Begin.{CanBegin, IsBeginFault};
ghost use Rattle.bpsec_node.specs.Start.{begin_fault};
ghost use Rattle.bpsec_node.specs.declared.begin.BeginFault.{BeginFault};
ghost use Rattle.bpsec_node.specs.declared.begin.BeginFault.TheVariants.{NoMemory};
ghost use Rattle.bpsec_node.specs.Site.{block_at, site, parts};
ghost use Rattle.bpsec_node.specs.PartsOf.{IsPartsOf};
ghost use Rattle.bpsec_node.specs.Plain.{cover, plain};
ghost use Rattle.bpsec_node.specs.AllOperations.{revealed, all_operations};
ghost use Rattle.bpsec_node.specs.Verdict.{step_verdict, rule};
ghost use Rattle.bpsec_node.specs.Events.{events};
ghost use Rattle.bpsec_node.specs.Outcome.{is_discarded, resulting, outcome};
ghost use Rattle.bpsec_node.specs.Order.{ready, shown, picks, Legal};
ghost use Rattle.bpsec_node.specs.View.{Progress, situation};
ghost use Rattle.bpsec_node.specs.Ring.{key_named, at_node};
ghost use Rattle.bpsec_node.specs.Longer.{NeverLonger};
ghost use Rattle.bpsec_node.specs.Shrunk.{Shrunk};

use crate::chooser::Chooser;

/// The block that is found with a number is the one that has it.
pub fn blocks_are_found_by_their_numbers()
    ensures means { (blocks : List Block) (number : ℕ) (block : Block)
        → block_at blocks number ≡ Some block
        → Contains blocks block × (block.number ≡ number) }
    ensures found { (bundle : Contents) (block : Block) → IsBundle bundle
        → Contains bundle.blocks block
        → block_at bundle.blocks block.number ≡ Some block }
{}

/// What an operation may cover stands so in its bundle (RFC 9173, sections 3.7 and 4.7.2). It keeps what the laws of
/// coverage ask for, if what confidentiality applies to is there.
pub fn parts_are_those_of_the_bundle()
    ensures means { (bundle : Contents) (op : OpId) → IsBundle bundle
        → IsPartsOf bundle op (parts (site bundle op) op) }
    ensures integrity { (bundle : Contents) (op : OpId) → IsBundle bundle → op.service ≡ Bib
        → IsParts (parts (site bundle op) op) }
    ensures confidentiality { (bundle : Contents) (op : OpId) (block : Block) → IsBundle bundle
        → op.service ≡ Bcb
        → Contains bundle.blocks block → block.number ≡ op.target
        → IsParts (parts (site bundle op) op) }
{}

/// The operation that is found as the cover of a block is one that covers it (RFC 9172, section 3.8), and a block
/// without one is visible. In a bundle that a node takes no other covers the block. Of a visible block none is found.
pub fn covers_are_found()
    ensures means { (blocks : List Block) (number : ℕ) (op : OpId) → BodiesAreBytes blocks
        → cover blocks number ≡ Some op → IsOperationOf blocks op × Covers blocks op number }
    ensures found { (bundle : Contents) (number : ℕ) → IsBundle bundle
        → cover bundle.blocks number ≡ None
        → IsVisible bundle.blocks number }
    ensures only { (bundle : Contents) (number : ℕ) (op : OpId) → IsBundle bundle → CanBegin bundle
        → IsOperationOf bundle.blocks op → Covers bundle.blocks op number
        → cover bundle.blocks number ≡ Some op }
    ensures none { (blocks : List Block) (number : ℕ) → BodiesAreBytes blocks
        → IsVisible blocks number
        → cover blocks number ≡ None }
{}

/// What stands in the way of a session, as it is looked for over lists, is the first of what the relations say, in
/// every bundle.
pub fn the_first_that_stands_in_the_way_is_found()
    ensures clear { (bundle : Contents) → begin_fault bundle ≡ None ↔ CanBegin bundle }
    ensures means { (bundle : Contents) (fault : BeginFault) → begin_fault bundle ≡ Some fault
        → (fault ≢ NoMemory) × IsBeginFault bundle fault }
    ensures found { (bundle : Contents) (fault : BeginFault) → IsBundle bundle → fault ≢ NoMemory
        → IsBeginFault bundle fault → begin_fault bundle ≡ Some fault }
{}

/// All operations are the known ones, and those of the block integrity blocks that opening reveals.
pub fn all_operations_are_known_or_revealed()
    ensures means { (s : Situation) (op : OpId) → IsBundle s.bundle → BodiesAreBytes s.bundle.blocks
        → BodiesAreBytes (revealed s) → Contains (all_operations s) op
        → IsKnown s.bundle.blocks op ⊎ ((block : Block) × Contains (revealed s) block
        × IsHeldBy op block) }
    ensures known { (s : Situation) (op : OpId) → BodiesAreBytes s.bundle.blocks
        → IsKnown s.bundle.blocks op
        → Contains (all_operations s) op }
    ensures revealed { (s : Situation) (block : Block) (op : OpId) → op.service ≡ Bib
        → Contains (revealed s) block
        → IsHeldBy op block → Contains (all_operations s) op }
{}

/// What was done in a legal order stands, whatever keys come later: the verdicts of its steps, the bundle as it is
/// shown, and what is ready. And it was legal.
pub fn what_is_done_stands()
    ensures verdict { (s : Situation) (key : OpId → Option (List ℕ)) (done : List OpId) (op : OpId)
        → Agree s key done
        → Legal s done → Contains done op → step_verdict s op ≡ step_verdict (with_keys s key) op }
    ensures shown { (s : Situation) (key : OpId → Option (List ℕ)) (done : List OpId)
        → Agree s key done
        → shown s done ≡ shown (with_keys s key) done }
    ensures ready { (s : Situation) (key : OpId → Option (List ℕ)) (done : List OpId)
        → Agree s key done
        → ready s done ≡ ready (with_keys s key) done }
    ensures legal { (s : Situation) (key : OpId → Option (List ℕ)) (done : List OpId)
        → Agree s key done → Legal s done
        → Legal (with_keys s key) done }
{}

/// Events and resulting bundle depend on the keys of all operations alone.
pub fn the_outcome_depends_on_the_keys_of_the_operations()
    ensures { (s : Situation) (key : OpId → Option (List ℕ)) → IsBundle s.bundle
        → Agree s key (all_operations s)
        → outcome s ≡ outcome (with_keys s key) }
{}

/// Where nothing is ready, events and resulting bundle depend on the keys of what was done. So two sessions over one
/// bundle, policy and suite, in which each operation was handed the same key, end with the same events and the same
/// bundle, in whatever orders they did the operations. They did the same operations, with the same verdicts.
pub fn equal_keys_give_equal_outcomes()
    ensures keys { (s : Situation) (key : OpId → Option (List ℕ)) (done : List OpId)
        → IsBundle s.bundle
        → ready s done ≡ [] → Agree s key done → outcome s ≡ outcome (with_keys s key) }
    ensures outcome { (suite : Meaning) (p q : Progress) → Alike p q → IsBundle p.received
        → ready (situation suite p) p.done ≡ []
        → outcome (situation suite p) ≡ outcome (situation suite q) }
    ensures done { (suite : Meaning) (p q : Progress) → Alike p q → (op : OpId)
        → Legal (situation suite p) p.done → ready (situation suite p) p.done ≡ []
        → Legal (situation suite q) q.done → ready (situation suite q) q.done ≡ []
        → Contains p.done op ↔ Contains q.done op }
    ensures verdict { (suite : Meaning) (p q : Progress) → Alike p q → (op : OpId)
        → Legal (situation suite p) p.done
        → Contains p.done op → step_verdict (situation suite p) op
        ≡ step_verdict (situation suite q) op }
{}

/// What a chooser picks after a legal order is legal, whatever it answers.
pub fn picks_are_legal<C: Chooser>()
    ensures { (s : Situation) (most : ℕ) (done : List OpId) (chooser : C) → Legal s done
        → Legal s (picks C.answer C.after s most done chooser) }
{}

/// A legal order that leaves nothing ready has each operation once, and nothing else. No legal order has more than
/// 4,096.
pub fn nothing_ready_means_all_done()
    ensures all { (s : Situation) (done : List OpId) (op : OpId) → Legal s done → ready s done ≡ []
        → Contains done op ↔ Contains (all_operations s) op }
    ensures once { (s : Situation) (done : List OpId) → Legal s done → AllPairs ◌≢◌ done }
    ensures few { (s : Situation) (done : List OpId) → IsBundle s.bundle → Legal s done
        → length done ≤ 4096 }
{}

/// A resulting bundle is a bundle of the profile, of blocks of the received one in their order, with their headers and
/// check types.
pub fn resulting_bundles_are_bundles()
    ensures bundle { (s : Situation) → NeverLonger s.suite → IsBundle s.bundle
        → BodiesAreBytes (plain s).blocks
        → is_discarded (events s) ≡ false → IsBundle (resulting s) }
    ensures blocks { (s : Situation) → NeverLonger s.suite → IsBundle s.bundle
        → BodiesAreBytes (plain s).blocks
        → is_discarded (events s) ≡ false → Shrunk s.bundle.blocks (resulting s).blocks }
{}

/// At a node each operation has the key that its rule names in the ring.
pub fn operations_have_the_keys_of_their_rules()
    ensures { (suite : Meaning) (bundle : Contents) (policy : policies.Parts) (ring : List NamedKey)
        (op : OpId)
        → (at_node suite bundle policy ring).key op
        ≡ key_named ring (rule (at_node suite bundle policy ring) op).key }
{}
