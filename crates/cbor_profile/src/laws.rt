//! Laws over the definitions of this crate. Each is the contract of a function that does nothing.

ghost use Rattle.std.specs.Prelude.{◌≡◌, ◌<◌, ◌≤◌, ◌^◌, ◌∷◌, ◌++◌, ◌↔◌, ◌==◌, ℕ, IsTrue, List, Ok, length, take, slice_index};
ghost use Rattle.std.specs.List.{list_any};
ghost use Rattle.cbor_profile.specs.Head.{spelling, IsHead, read_head};
ghost use Rattle.cbor_profile.specs.Token.{token_head};
ghost use Rattle.cbor_profile.specs.Item.{IsItem, most_levels, read_item};
ghost use Rattle.cbor_profile.specs.declared.head.Head.{Head};
ghost use Rattle.cbor_profile.specs.declared.head.HeadRead.TheVariants.{Whole, Short, Bad};
ghost use Rattle.cbor_profile.specs.declared.item.ItemRead.TheVariants as items;
ghost use Rattle.cbor_profile.specs.declared.TheConstants.{BUNDLE_LIMIT};

/// The spelling of a bundle has at most 16 MiB.
pub fn the_bundle_limit_is_16_mib()
    ensures { BUNDLE_LIMIT ≡ 2 ^ 24 }
{}

/// A spelling determines its head, and no spelling is a proper prefix of another.
pub fn heads_have_one_spelling()
    ensures { (a b : Head) (x y : List ℕ) → IsHead a → IsHead b → spelling a ++ x ≡ spelling b ++ y
        → (a ≡ b) × (x ≡ y) }
{}

/// A byte list begins with at most one item.
pub fn an_item_has_one_end()
    ensures { (a b x y : List ℕ) → IsItem most_levels a → IsItem most_levels b → a ++ x ≡ b ++ y
        → (a ≡ b) × (x ≡ y) }
{}

/// What is spelled as a head is read as that head, whatever follows it; and what is read as a head is spelled so, where
/// the bytes are below 256.
pub fn heads_are_read_as_spelled()
    ensures again { (head : Head) (rest : List ℕ) → IsHead head
        → read_head (spelling head ++ rest) ≡ Whole head (length (spelling head)) }
    ensures means { (bytes : List ℕ) (head : Head) (len : ℕ) → ((i : ℕ) → slice_index bytes i < 256)
        → read_head bytes ≡ Whole head len
        → (len ≤ length bytes) × (take len bytes ≡ spelling head) × IsHead head }
{}

/// Each answer about the head at the front stands, whatever bytes follow; only want of bytes may change.
pub fn heads_are_judged_from_the_left()
    ensures { (bytes more : List ℕ) → (read_head bytes ≡ Short → ⊥)
        → read_head (bytes ++ more) ≡ read_head bytes }
{}

/// A head is bad exactly where no spelling begins with its first byte.
pub fn heads_are_bad_at_their_first_byte()
    ensures { (first : ℕ) (rest : List ℕ) → first < 256
        → (read_head (first ∷ rest) ≡ Bad)
        ↔ ((head : Head) (others : List ℕ) → IsHead head → spelling head ≡ first ∷ others → ⊥) }
{}

/// Each answer about the item at the front stands, whatever bytes follow; only want of bytes may change.
pub fn items_are_judged_from_the_left()
    ensures { (bytes more : List ℕ) → (read_item bytes ≡ items.Short → ⊥)
        → read_item (bytes ++ more) ≡ read_item bytes }
{}

/// What is spelled as a head of a permitted major type is read as the head of a token, and what follows it is left; and what
/// is read so is spelled so, where the bytes are below 256.
pub fn tokens_are_read_as_spelled()
    ensures again { (kinds : List ℕ) (head : Head) (rest : List ℕ) → IsHead head
        → IsTrue (list_any (λ kind. kind == head.major) kinds)
        → token_head kinds (spelling head ++ rest) ≡ Ok (head, rest) }
    ensures means { (kinds bytes : List ℕ) (head : Head) (rest : List ℕ)
        → ((i : ℕ) → slice_index bytes i < 256) → token_head kinds bytes ≡ Ok (head, rest)
        → (bytes ≡ spelling head ++ rest) × IsHead head
        × IsTrue (list_any (λ kind. kind == head.major) kinds) }
{}
