//! Items (RFC 8949, section 3), as they stand in the values of a security block: definite lengths, shortest heads, no
//! tags, and no array or map inside eight others.

ghost use Rattle.std.specs.Prelude.{◌≡◌, ◌≤◌, ◌++◌, ℕ, nat_lt, if◌then◌else◌, List, length, take, drop, Ok, Err, IfOk};
ghost use Rattle.cbor_profile.specs.Item.{IsItem, most_levels, head_from, following_head, content_from, headed_from, each_from, item_from, read_item};
ghost use Rattle.cbor_profile.specs.ItemAnswer.{IfWholeItem};
ghost use Rattle.cbor_profile.specs.Step.{Stands};
ghost use Rattle.cbor_profile.specs.declared.item.ItemRead.TheVariants.{Whole};

use crate::head::{Head, HeadRead, head_at};

/// What reading an item from the left meets first.
#[derive(Clone, Copy, Debug, PartialEq, Eq)]
pub enum ItemRead {
    /// An item, in `len` bytes.
    Whole { len: usize },
    /// Bytes are missing.
    Short,
    /// A shorter form of a head would do.
    NotShortest,
    /// A tag, an indefinite length, a reserved form, or a value of major type 7 outside the first byte.
    Bad,
    /// An array or a map stands inside eight others.
    Deep,
}

/// Why there is no item.
#[derive(Clone, Copy)]
enum ItemFault {
    Short,
    NotShortest,
    Bad,
    Deep,
}

/// How many arrays and maps may stand inside one another.
const LEVELS: u8 = 8;

/// The head at the front, and the bytes after it.
#[tactic(auto, unfolding(crate::specs::Item::head_from))]
fn head(bytes: &[u8]) -> Result<(Head, &[u8]), ItemFault>
    ensures shorter { IfOk result (λ x. length x.1.now ≤ length bytes.now) }
    ensures exact { Stands (λ x. (x.0, x.1.now)) result (head_from bytes.now) }
{
    match head_at(bytes) {
        HeadRead::Whole { head, len } => Ok((head, &bytes[len..])),
        HeadRead::Short => Err(ItemFault::Short),
        HeadRead::NotShortest => Err(ItemFault::NotShortest),
        HeadRead::Bad => Err(ItemFault::Bad),
    }
}

/// What a string of this many bytes leaves.
fn skip(len: u64, bytes: &[u8]) -> Result<&[u8], ItemFault>
    ensures shorter { IfOk result (λ rest. length rest.now ≤ length bytes.now) }
    ensures exact { Stands (λ x. x.now) result
        (if nat_lt (length bytes.now) len then Err ItemFault.Short else Ok (drop len bytes.now)) }
{
    if (bytes.len() as u64) < len {
        return Err(ItemFault::Short);
    }
    Ok(&bytes[len as usize..])
}

/// What an item at the front leaves.
#[cycle(item)]
#[tactic(auto, unfolding(crate::specs::Item::head_from))]
fn item(levels: u8, bytes: &[u8]) -> Result<&[u8], ItemFault>
    ensures shorter { IfOk result (λ rest. length rest.now ≤ length bytes.now) }
    ensures exact { Stands (λ x. x.now) result (item_from levels bytes.now) }
{
    let (head, rest) = head(bytes)?;
    content(levels, head, rest)
}

/// What the content after a head leaves.
#[cycle(item)]
#[tactic(auto, unfolding(crate::specs::Item::content_from))]
fn content(levels: u8, head: Head, bytes: &[u8]) -> Result<&[u8], ItemFault>
    ensures shorter { IfOk result (λ rest. length rest.now ≤ length bytes.now) }
    ensures exact { Stands (λ x. x.now) result
        (content_from levels (following_head head.major) head.value bytes.now) }
{
    match head.major {
        2 | 3 => skip(head.value, bytes),
        4 | 5 if levels == 0 => Err(ItemFault::Deep),
        4 => items(levels - 1, head.value, bytes),
        5 => match items(levels - 1, head.value, bytes) {
            Ok(rest) => items(levels - 1, head.value, rest),
            Err(fault) => Err(fault),
        },
        _ => Ok(bytes),
    }
}

/// What `count` items one after the other leave.
#[cycle(item)]
fn items(levels: u8, count: u64, bytes: &[u8]) -> Result<&[u8], ItemFault>
    ensures shorter { IfOk result (λ rest. length rest.now ≤ length bytes.now) }
    ensures exact { Stands (λ x. x.now) result (each_from (item_from levels) count bytes.now) }
{
    let mut rest = bytes;
    for _ in 0..count {
        match item(levels, rest) {
            Ok(after) => rest = after,
            Err(fault) => return Err(fault),
        }
    }
    Ok(rest)
}

#[tactic(auto, unfolding(crate::specs::Item::read_item))]
fn read(bytes: &[u8]) -> ItemRead
    ensures { result ≡ read_item bytes.now }
{
    match item(LEVELS, bytes) {
        Ok(rest) => ItemRead::Whole {
            len: bytes.len() - rest.len(),
        },
        Err(ItemFault::Short) => ItemRead::Short,
        Err(ItemFault::NotShortest) => ItemRead::NotShortest,
        Err(ItemFault::Bad) => ItemRead::Bad,
        Err(ItemFault::Deep) => ItemRead::Deep,
    }
}

/// Reads the item at the front. Takes no memory.
pub fn item_at(bytes: &[u8]) -> ItemRead
    // What is read is an item.
    ensures whole { IfWholeItem result
        (λ len. (len ≤ length bytes.now) × IsItem most_levels (take len bytes.now)) }
    // An item is read, whatever follows it.
    ensures found { (item rest : List ℕ) → IsItem most_levels item → bytes.now ≡ item ++ rest
        → result ≡ Whole (length item) }
    // Which answer it is.
    ensures exact { result ≡ read_item bytes.now }
{
    read(bytes)
}
