//! The items of a fragment.

ghost use Rattle.std.specs.Prelude.{◌≡◌, ◌<◌, ◌≤◌, ◌^◌, ◌++◌, length, take, OnOk, OnErr};
ghost use Rattle.std.specs.Option.{ForSome};
ghost use Rattle.cbor_profile.specs.Feeds.{Feeds};
ghost use Rattle.bp_primary.specs.Fragment.{fragment_items, fragment_count};

use crate::primary::Piece;
use cbor_profile::{Bytes, Feed, NoMemory, feed_uint, put_uint, uint_size};

/// How many items a fragment adds.
pub(crate) fn fragment_count(fragment: Option<Piece>) -> u64
    ensures { result ≡ fragment_count fragment }
{
    match fragment {
        None => 0,
        Some(_) => 2,
    }
}

/// The offset and the total length of a fragment.
#[tactic(auto, unfolding(crate::specs::Fragment::fragment_items))]
pub(crate) fn feed_fragment<F: Feed>(into: &mut F, fragment: Option<Piece>)
    ensures stands { Feeds F.stands_for F.MOST into.old into.new (fragment_items fragment) }
    ensures fixed { F.fixed into.new ≡ F.fixed into.old }
{
    if let Some(piece) = fragment {
        feed_uint(into, piece.offset);
        feed_uint(into, piece.total);
    }
}

/// The offset and the total length of a fragment, or a part of them for want of memory.
#[tactic(auto, unfolding(crate::specs::Fragment::fragment_items))]
pub(crate) fn put_fragment(out: &mut Bytes, fragment: Option<Piece>) -> Result<(), NoMemory>
    ensures ok { OnOk result (out.new ≡ out.old ++ fragment_items fragment) }
    ensures err { OnErr result (take (length out.old) out.new ≡ out.old) }
{
    let Some(piece) = fragment else {
        return Ok(());
    };
    put_uint(out, piece.offset)?;
    put_uint(out, piece.total)
}

/// How many bytes a fragment's items have.
#[tactic(auto, unfolding(crate::specs::Fragment::fragment_items))]
pub(crate) fn fragment_size(fragment: Option<Piece>) -> u64
    ensures size { result ≡ length (fragment_items fragment) }
    ensures within { result ≤ 18 }
    ensures fits { ForSome fragment (λ piece. (piece.offset < 2 ^ 64) × (piece.total < 2 ^ 64)) }
{
    match fragment {
        None => 0,
        Some(piece) => uint_size(piece.offset) + uint_size(piece.total),
    }
}
