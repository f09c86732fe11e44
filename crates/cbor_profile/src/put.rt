//! Writing spellings at the end of a byte string (RFC 8949, sections 3.1 and 3.3). Each call appends the one spelling, or leaves
//! the byte string as it was for want of memory.

ghost use Rattle.std.specs.Prelude.{◌≡◌, ◌<◌, ◌^◌, ◌++◌, length, OnOk, OnErr};
ghost use Rattle.cbor_profile.specs.Head.{spelling, IsHead};
ghost use Rattle.cbor_profile.specs.Put.{uint, int, byte_string, text_string, array_head, truth};

use crate::bytes::Bytes;
use crate::head::{Head, head_bytes};
use crate::memory::NoMemory;

fn put_head(out: &mut Bytes, major: u8, value: u64) -> Result<(), NoMemory>
    requires { IsHead (record { major = major; value = value }) }
    ensures ok { OnOk result (out.new
        ≡ out.old ++ spelling (record { major = major; value = value })) }
    ensures err { OnErr result (out.new ≡ out.old) }
{
    let bytes = head_bytes(Head { major, value });
    out.extend(bytes.as_slice())
}

/// A string of this major type, with its content.
fn put_string(out: &mut Bytes, major: u8, content: &[u8]) -> Result<(), NoMemory>
    requires { major < 6 }
    ensures ok { OnOk result (out.new ≡ out.old
        ++ (spelling (record { major = major; value = length content.now }) ++ content.now)) }
    ensures err { OnErr result (out.new ≡ out.old) }
{
    let before = out.len();
    put_head(out, major, content.len() as u64)?;
    let added = out.extend(content);
    out.settle(before, added)
}

/// An unsigned number.
#[tactic(auto, unfolding(crate::specs::Put::uint, crate::specs::Head::spelling))]
pub fn put_uint(out: &mut Bytes, value: u64) -> Result<(), NoMemory>
    ensures ok { OnOk result (out.new ≡ out.old ++ uint value) }
    ensures err { OnErr result (out.new ≡ out.old) }
{
    put_head(out, 0, value)
}

/// A signed number.
#[tactic(auto, unfolding(crate::specs::Put::int, crate::specs::Head::spelling))]
pub fn put_int(out: &mut Bytes, value: i64) -> Result<(), NoMemory>
    ensures ok { OnOk result (out.new ≡ out.old ++ int value) }
    ensures err { OnErr result (out.new ≡ out.old) }
{
    if value < 0 {
        put_head(out, 1, (-1 - value) as u64)
    } else {
        put_head(out, 0, value as u64)
    }
}

/// A byte string.
#[tactic(auto, unfolding(crate::specs::Put::byte_string, crate::specs::Head::spelling))]
pub fn put_bytes(out: &mut Bytes, content: &[u8]) -> Result<(), NoMemory>
    ensures ok { OnOk result (out.new ≡ out.old ++ byte_string content.now) }
    ensures err { OnErr result (out.new ≡ out.old) }
{
    put_string(out, 2, content)
}

/// A text string. Whether the content is UTF-8 isn't looked at.
#[tactic(auto, unfolding(crate::specs::Put::text_string, crate::specs::Head::spelling))]
pub fn put_text(out: &mut Bytes, content: &[u8]) -> Result<(), NoMemory>
    ensures ok { OnOk result (out.new ≡ out.old ++ text_string content.now) }
    ensures err { OnErr result (out.new ≡ out.old) }
{
    put_string(out, 3, content)
}

/// The head of an array of `count` items.
#[tactic(auto, unfolding(crate::specs::Put::array_head, crate::specs::Head::spelling))]
pub fn put_array(out: &mut Bytes, count: u64) -> Result<(), NoMemory>
    ensures ok { OnOk result (out.new ≡ out.old ++ array_head count) }
    ensures err { OnErr result (out.new ≡ out.old) }
{
    put_head(out, 4, count)
}

/// `false` or `true`.
#[tactic(auto, unfolding(crate::specs::Put::truth, crate::specs::Head::spelling))]
pub fn put_bool(out: &mut Bytes, value: bool) -> Result<(), NoMemory>
    ensures ok { OnOk result (out.new ≡ out.old ++ truth value) }
    ensures err { OnErr result (out.new ≡ out.old) }
{
    put_head(out, 7, if value { 21 } else { 20 })
}
