//! Laws over the definitions of this crate. Each is the contract of a function that does nothing but name the laws that it
//! follows from.

ghost use Rattle.std.specs.Prelude.{◌≡◌, ◌+◌, ◌<◌, ◌≤◌, ◌++◌, ℕ, Bool, List, Ok, Err, length, slice_index};
ghost use Rattle.bp_tcpcl.specs.declared.TheConstants.{INPUT_LIMIT};
ghost use Rattle.bp_tcpcl.specs.declared.message.Item.{Item};
ghost use Rattle.bp_tcpcl.specs.declared.reason.LinkReason.{LinkReason};
ghost use Rattle.bp_tcpcl.specs.declared.stop.Stop.TheVariants as stops;
ghost use Rattle.bp_tcpcl.specs.Spelling.{item_bytes, IsPart};
ghost use Rattle.bp_tcpcl.specs.Reading.{Cursor, front_at};

/// What is spelled as a part is read as that part, whatever follows it, where it ends within the limit of the input; and
/// what is read as a part is spelled so, where the bytes are below 256.
pub fn parts_are_read_as_spelled()
    ensures again { (opened : Bool) (place : ℕ) (item : Item) (rest : List ℕ) → IsPart opened item
        → place + length (item_bytes item) ≤ INPUT_LIMIT
        → front_at opened place (item_bytes item ++ rest)
        ≡ Ok (item, record { begin = place; at = place + length (item_bytes item); rest = rest }) }
    ensures means { (opened : Bool) (place : ℕ) (bytes : List ℕ) (item : Item) (after : Cursor)
        → ((i : ℕ) → slice_index bytes i < 256)
        → front_at opened place bytes ≡ Ok (item, after)
        → IsPart opened item × (bytes ≡ item_bytes item ++ after.rest)
        × (after.at ≡ place + length (item_bytes item)) × (after.at ≤ INPUT_LIMIT) }
{}

/// No spelling of a part is a proper prefix of another, and a byte list spells at most one part.
pub fn parts_have_one_spelling()
    ensures { (opened : Bool) (a b : Item) (x y : List ℕ) → IsPart opened a → IsPart opened b
        → item_bytes a ++ x ≡ item_bytes b ++ y → (a ≡ b) × (x ≡ y) }
{
    parts_are_read_as_spelled();
}

/// A part that is read, and a fault with its place, stays the same whatever bytes follow: no answer depends on how the input
/// is cut.
pub fn parts_stay_the_same()
    ensures part { (opened : Bool) (place : ℕ) (bytes more : List ℕ) (item : Item) (after : Cursor)
        → front_at opened place bytes ≡ Ok (item, after)
        → front_at opened place (bytes ++ more) ≡ Ok (item, record after { rest = after.rest ++ more }) }
    ensures fault { (opened : Bool) (place : ℕ) (bytes more : List ℕ) (at : ℕ) (reason : LinkReason)
        → front_at opened place bytes ≡ Err (stops.Fault at reason)
        → front_at opened place (bytes ++ more) ≡ Err (stops.Fault at reason) }
{}
