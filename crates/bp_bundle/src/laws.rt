//! Laws over the definitions of this crate. Each is the contract of a function that does nothing but name the laws that it
//! follows from.

ghost use Rattle.std.specs.Prelude.{◌≡◌, ◌≢◌, ◌+◌, ◌<◌, ◌≤◌, ◌↔◌, ◌++◌, ℕ, List, None, Ok, Err, length, slice_index, slice_get, Some, take, drop};
ghost use Rattle.cbor_profile.specs.declared.TheConstants.{BUNDLE_LIMIT};
ghost use Rattle.cbor_profile.specs.declared.fault.Fault.{Fault};
ghost use Rattle.cbor_profile.specs.declared.fault.Reason.TheVariants.{Truncated};
ghost use Rattle.bp_bundle.specs.Shape.{Contents};
ghost use Rattle.bp_bundle.specs.Spelling.{IsBundle, Spells, spelling};
ghost use Rattle.bp_bundle.specs.Faults.{shape_fault};
ghost use Rattle.bp_bundle.specs.Tokens.{Cursor};
ghost use Rattle.bp_bundle.specs.FirstFault.{read_bundle, read_only};
ghost use Rattle.bp_bundle.specs.Edits.{check_size, with_crc};
ghost use Rattle.bp_crc.specs.declared.kind.CheckKind.{CheckKind};
ghost use Rattle.bp_crc.specs.declared.kind.CheckKind.TheVariants as kinds;
ghost use Rattle.bp_blocks.specs.declared.block.Block.{Block};

use bp_eid::laws::{answers_stay_the_same, ids_are_read_as_spelled};
use cbor_profile::laws::{heads_are_judged_from_the_left, tokens_are_read_as_spelled};

/// What is spelled as a bundle is read as that bundle, whatever follows it; and what is read as a bundle is spelled so and
/// keeps the rules, where the bytes are below 256.
pub fn bundles_are_read_as_spelled()
    ensures again { (bundle : Contents) (rest : List ℕ) → IsBundle bundle
        → read_bundle (spelling bundle ++ rest) ≡ Ok (bundle, record { at = length (spelling bundle); rest = rest }) }
    ensures means { (bytes : List ℕ) (bundle : Contents) (after : Cursor) → ((i : ℕ) → slice_index bytes i < 256) → read_bundle bytes ≡ Ok (bundle, after)
        → IsBundle bundle × (bytes ≡ spelling bundle ++ after.rest) × (after.at ≡ length (spelling bundle)) }
{
    tokens_are_read_as_spelled();
    ids_are_read_as_spelled();
}

/// A byte list spells at most one bundle, and no spelling is a proper prefix of another.
pub fn bundles_have_one_spelling()
    ensures { (a b : Contents) (x y : List ℕ) → IsBundle a → IsBundle b → spelling a ++ x ≡ spelling b ++ y → (a ≡ b) × (x ≡ y) }
{
    bundles_are_read_as_spelled();
}

/// A whole input is read as a bundle exactly where it spells that bundle.
pub fn inputs_are_read_as_spelled()
    ensures { (bytes : List ℕ) (bundle : Contents) → ((i : ℕ) → slice_index bytes i < 256) → (read_only bytes ≡ Ok bundle) ↔ Spells bundle bytes }
{
    bundles_are_read_as_spelled();
}

/// A bundle that is read, and a fault with its place, stays the same whatever bytes are added, but where the bytes end too
/// early.
pub fn reading_stays_the_same()
    ensures bundle { (bytes more : List ℕ) (bundle : Contents) (after : Cursor) → read_bundle bytes ≡ Ok (bundle, after)
        → read_bundle (bytes ++ more) ≡ Ok (bundle, record { at = after.at; rest = after.rest ++ more }) }
    ensures fault { (bytes more : List ℕ) (fault : Fault) → read_bundle bytes ≡ Err fault → fault.reason ≢ Truncated → read_bundle (bytes ++ more) ≡ Err fault }
{
    heads_are_judged_from_the_left();
    answers_stay_the_same();
}

/// No fault stands behind all the bytes.
pub fn faults_stand_within_the_bytes()
    ensures { (bytes : List ℕ) (fault : Fault) → read_bundle bytes ≡ Err fault → fault.place ≤ length bytes }
{}

/// Bytes that end too early do so at their end, and are fewer than the bundle limit and 8 more: a head that announces more
/// is refused before a byte of its content.
pub fn early_ends_are_within_the_limit()
    ensures place { (bytes : List ℕ) (fault : Fault) → read_bundle bytes ≡ Err fault → fault.reason ≡ Truncated → fault.place ≡ length bytes }
    ensures within { (bytes : List ℕ) (fault : Fault) → read_bundle bytes ≡ Err fault → fault.reason ≡ Truncated → length bytes < BUNDLE_LIMIT + 8 }
{}

/// With another check a block has as many bytes fewer and more as the checks are: none, 3 or 5. Without a check it never has
/// more.
pub fn checks_have_sizes()
    ensures primary { (bundle : Contents) (crc : CheckKind)
        → length (spelling (with_crc 0 crc bundle)) + check_size bundle.primary.crc ≡ length (spelling bundle) + check_size crc }
    ensures block { (bundle : Contents) (index : ℕ) (block : Block) (crc : CheckKind) → IsBundle bundle → slice_get bundle.blocks index ≡ Some block
        → length (spelling (with_crc block.number crc bundle)) + check_size block.crc ≡ length (spelling bundle) + check_size crc }
    ensures none { (bundle : Contents) (number : ℕ) → length (spelling (with_crc number kinds.None bundle)) ≤ length (spelling bundle) }
{}

/// A bundle has no fault of shape.
pub fn bundles_have_no_fault_of_shape()
    ensures { (bundle : Contents) → IsBundle bundle → shape_fault bundle ≡ None }
{}
