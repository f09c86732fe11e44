//! Feeding spellings to what takes bytes piece by piece (RFC 8949, sections 3.1 and 3.3). No call takes memory.

ghost use Rattle.std.specs.Prelude.{◌≡◌, ◌≤◌, ◌<◌, ◌^◌, length};
ghost use Rattle.cbor_profile.specs.Feeds.{Feeds};
ghost use Rattle.cbor_profile.specs.Head.{spelling, IsHead};
ghost use Rattle.cbor_profile.specs.Put.{uint, byte_string, text_string, array_head};

use crate::feed::Feed;
use crate::head::{Head, head_bytes};

fn feed_head<F: Feed>(into: &mut F, major: u8, value: u64)
    requires { IsHead (record { major = major; value = value }) }
    ensures stands { Feeds F.stands_for F.MOST into.old into.new (spelling (record { major = major; value = value })) }
    ensures fixed { F.fixed into.new ≡ F.fixed into.old }
{
    let head = head_bytes(Head { major, value });
    into.feed(head.as_slice());
}

/// An unsigned number.
#[tactic(auto, unfolding(crate::specs::Put::uint, crate::specs::Head::spelling))]
pub fn feed_uint<F: Feed>(into: &mut F, value: u64)
    ensures stands { Feeds F.stands_for F.MOST into.old into.new (uint value) }
    ensures fixed { F.fixed into.new ≡ F.fixed into.old }
{
    feed_head(into, 0, value);
}

/// The head of an array of `count` items.
#[tactic(auto, unfolding(crate::specs::Put::array_head, crate::specs::Head::spelling))]
pub fn feed_array<F: Feed>(into: &mut F, count: u64)
    ensures stands { Feeds F.stands_for F.MOST into.old into.new (array_head count) }
    ensures fixed { F.fixed into.new ≡ F.fixed into.old }
{
    feed_head(into, 4, count);
}

/// A byte string.
#[tactic(auto, unfolding(crate::specs::Put::byte_string, crate::specs::Head::spelling))]
pub fn feed_bytes<F: Feed>(into: &mut F, content: &[u8])
    ensures stands { Feeds F.stands_for F.MOST into.old into.new (byte_string content.now) }
    ensures fixed { F.fixed into.new ≡ F.fixed into.old }
    ensures short { length content.now < 2 ^ 63 }
{
    feed_head(into, 2, content.len() as u64);
    into.feed(content);
}

/// A text string. Whether the content is UTF-8 isn't looked at.
#[tactic(auto, unfolding(crate::specs::Put::text_string, crate::specs::Head::spelling))]
pub fn feed_text<F: Feed>(into: &mut F, content: &[u8])
    ensures stands { Feeds F.stands_for F.MOST into.old into.new (text_string content.now) }
    ensures fixed { F.fixed into.new ≡ F.fixed into.old }
{
    feed_head(into, 3, content.len() as u64);
    into.feed(content);
}

/// How many bytes the spelling of an unsigned number has.
#[tactic(auto, unfolding(crate::specs::Put::uint, crate::specs::Head::spelling))]
pub fn uint_size(value: u64) -> u64
    ensures size { result ≡ length (uint value) }
    ensures within { result ≤ 9 }
    ensures fits { value < 2 ^ 64 }
{
    head_bytes(Head { major: 0, value }).as_slice().len() as u64
}
