//! Laws over the definitions of this crate. Each is the contract of a function that does nothing.

ghost use Rattle.std.specs.Prelude.{◌≡◌, ◌≤◌, ◌<◌, ℕ, Bool, true, false, [], None, Some, List, map, take, length, slice_index_or};
ghost use Rattle.std.specs.List.{list_any};
ghost use Rattle.cbor_profile.specs.declared.TheConstants.{BUNDLE_LIMIT};
ghost use Rattle.bp_crc.specs.declared.kind.CheckKind.TheVariants as checks;
ghost use Rattle.bp_blocks.specs.declared.block.Block.{Block};
ghost use Rattle.bp_bundle.specs.Shape.{Contents};
ghost use Rattle.bp_bundle.specs.Spelling.{spelling};
ghost use Rattle.bpsec_policy.specs.declared.ring.NamedKey.{NamedKey};
ghost use Rattle.bpsec_plan.specs.declared.item.Item.{Item};
ghost use Rattle.bpsec_facts.specs.Items.{block_number, is_cipher, is_target};
ghost use Rattle.bpsec_secure.specs.Laws.{is_split};
ghost use Rattle.bpsec_facts.specs.Facts.{Facts, facts_of};
ghost use Rattle.bpsec_facts.specs.Refusal.{first_at};
ghost use Rattle.bpsec_facts.specs.Left.{header_of, splits_from, before_last};
ghost use Rattle.bpsec_secure.specs.Secured.{seals, kept, added};
ghost use Rattle.bpsec_secure.specs.Answer.{refusal, secured_bundle};

/// A block that no item names stays as it is.
pub fn unnamed_blocks_stay()
    ensures { (facts : Facts) (block : Block) → is_target facts.items block.number ≡ false
        → list_any (splits_from block.number) facts.items ≡ false → kept facts block ≡ block }
{}

/// What a block keeps that items name: its number, type and flags; its check, unless it is a target, which has none then; its
/// body, unless a bcb item seals it or a split takes results out of it.
pub fn named_blocks_keep_what_no_step_changes()
    ensures header { (facts : Facts) (block : Block)
        → header_of (kept facts block) ≡ header_of block }
    ensures target { (facts : Facts) (block : Block) → is_target facts.items block.number ≡ true
        → (kept facts block).crc ≡ checks.None }
    ensures check { (facts : Facts) (block : Block) → is_target facts.items block.number ≡ false
        → (kept facts block).crc ≡ block.crc }
    ensures body { (facts : Facts) (block : Block)
        → list_any (seals block.number) facts.items ≡ false
        → list_any (splits_from block.number) facts.items ≡ false
        → (kept facts block).body ≡ block.body }
{}

/// The primary block of the secured bundle is that of the bundle, without its check where an item has the target 0.
pub fn the_primary_block_loses_its_check_as_a_target()
    ensures target { (bundle : Contents) (items : List Item) (ring : List NamedKey)
        → is_target items 0 ≡ true
        → (secured_bundle bundle items ring).primary ≡ record bundle.primary { crc = checks.None } }
    ensures stays { (bundle : Contents) (items : List Item) (ring : List NamedKey)
        → is_target items 0 ≡ false
        → (secured_bundle bundle items ring).primary ≡ bundle.primary }
{}

/// Where nothing is sealed or split, the bodies of the bundle's blocks stay.
pub fn bodies_stay_where_nothing_is_sealed_or_split()
    ensures { (facts : Facts) (block : Block) → list_any is_cipher facts.items ≡ false
        → list_any is_split facts.items ≡ false
        → (kept facts block).body ≡ block.body }
{}

/// The blocks of the secured bundle are those of the bundle, as they are kept, and before the last of them those of the
/// plan. Their numbers are those of the bundle and the plan.
pub fn new_blocks_stand_before_the_payload()
    ensures blocks { (bundle : Contents) (items : List Item) (ring : List NamedKey)
        → (secured_bundle bundle items ring).blocks
        ≡ before_last (map (kept (facts_of bundle items ring)) bundle.blocks)
        (map (added (facts_of bundle items ring)) items) }
    ensures numbers { (bundle : Contents) (items : List Item) (ring : List NamedKey)
        → map (λ block. block.number) (secured_bundle bundle items ring).blocks
        ≡ before_last (map (λ block. block.number) bundle.blocks) (map block_number items) }
{}

/// A plan that isn't refused makes a bundle within the limit.
pub fn secured_bundles_are_within_the_limit()
    ensures { (bundle : Contents) (items : List Item) (ring : List NamedKey)
        → refusal bundle items ring ≡ None
        → length (spelling (secured_bundle bundle items ring)) ≤ BUNDLE_LIMIT }
{}

/// The least index of an item for which a reason holds: it holds there after the items before, and at no lesser index. There
/// is none where it holds nowhere.
pub fn the_least_index_of_an_item()
    ensures some { (holds : List Item → Item → Bool) (items : List Item) (at : ℕ)
        → first_at holds [] items ≡ Some at
        → (at < length items) × ((d : Item)
        → holds (take at items) (slice_index_or items at d) ≡ true)
        × ((k : ℕ) (d : Item) → k < at → holds (take k items) (slice_index_or items k d) ≡ false) }
    ensures none { (holds : List Item → Item → Bool) (items : List Item)
        → first_at holds [] items ≡ None
        → (k : ℕ) (d : Item) → k < length items
        → holds (take k items) (slice_index_or items k d) ≡ false }
{}
