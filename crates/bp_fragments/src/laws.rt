//! Laws over the definitions of this crate. Each is the contract of a function that does nothing.

ghost use Rattle.std.specs.Prelude.{◌≡◌, ◌<◌, ◌++◌, ◌∷◌, [], ℕ, List, None, Ok, length, Contains, is_none};
ghost use Rattle.std.specs.List.{position};
ghost use Rattle.bp_bundle.specs.Shape.{Contents};
ghost use Rattle.bp_bundle.specs.Spelling.{IsBundle};
ghost use Rattle.bp_fragments.specs.Cut.{cut, cut_fault};
ghost use Rattle.bp_fragments.specs.Known.{known};
ghost use Rattle.bp_fragments.specs.Agreement.{Agree, refusal};
ghost use Rattle.bp_fragments.specs.Joined.{IsJoined, joined};

/// Fragments that agree are taken in any order, and however often each is there, up to 256 in all; and what is taken to
/// fragments that agree agrees with them.
pub fn agreeing_fragments_are_taken()
    ensures found { (all kept : List Contents) (piece : Contents) → Agree all → Contains all piece
        → ((a : Contents) → Contains kept a → Contains all a)
        → length kept < 256 → refusal kept piece ≡ None }
    ensures means { (pieces : List Contents) (piece : Contents) → Agree pieces
        → refusal pieces piece ≡ None → Agree (pieces ++ piece ∷ []) }
{}

/// What fragments that agree are joined to depends on which there are, and not on their order nor on how often each is there.
pub fn the_order_of_fragments_tells_nothing()
    ensures { (xs ys : List Contents) → Agree xs → ((a : Contents) → Contains xs a → Contains ys a)
        → ((a : Contents) → Contains ys a → Contains xs a)
        → joined xs ≡ joined ys }
{}

/// The fragments of a cut agree and leave no gap; and fragments of a cut that leave no gap, in any order, are joined to the
/// bundle that was cut.
pub fn a_cut_is_joined_again()
    ensures agree { (bundle : Contents) (size : ℕ) → IsBundle bundle → cut_fault bundle size ≡ None
        → Agree (cut bundle size) }
    ensures covers { (bundle : Contents) (size : ℕ) → IsBundle bundle → cut_fault bundle size ≡ None
        → position is_none (known (cut bundle size)) ≡ None }
    ensures joined { (bundle : Contents) (size : ℕ) (pieces : List Contents) → IsBundle bundle
        → cut_fault bundle size ≡ None
        → 0 < length pieces → ((a : Contents) → Contains pieces a → Contains (cut bundle size) a)
        → position is_none (known pieces) ≡ None
        → joined pieces ≡ Ok bundle }
{}

/// The bundle that fragments that agree are joined to has each of them as a part; and where they leave no gap, there is one
/// such bundle at most.
pub fn joined_bundles_have_their_fragments()
    ensures means { (pieces : List Contents) (bundle : Contents) → Agree pieces
        → ((a : Contents) → Contains pieces a → IsBundle a) → joined pieces ≡ Ok bundle
        → IsJoined pieces bundle }
    ensures one { (pieces : List Contents) (a b : Contents) → 0 < length pieces → Agree pieces
        → position is_none (known pieces) ≡ None
        → IsJoined pieces a → IsJoined pieces b → a ≡ b }
{}
