//! The bodies of extension blocks (RFC 9171, section 4.4).

ghost use Rattle.std.specs.Prelude.{◌≡◌, ◌+◌, ◌<◌, ◌≤◌, ◌^◌, ◌++◌, ℕ, List, Some, Err, IfOk, IfSome, MatchResult, IsSomeAnd, OnOk, OnErr, length, take};
ghost use Rattle.cbor_profile.specs.Head.{head_spelling};
ghost use Rattle.cbor_profile.specs.Put.{uint};
ghost use Rattle.bp_eid.specs.EndpointId.{Fits, HasText, spelling};
ghost use Rattle.bp_eid.specs.declared.eid.Eid.{Eid};
ghost use Rattle.bp_blocks.specs.Bodies.{IsHops, hops};
ghost use Rattle.bp_blocks.specs.declared.bodies.Hops.{Hops};

use bp_eid::Eid;
use cbor_profile::{Bytes, HeadRead, NoMemory, head_at, put_array, put_uint};
use std::alloc::Global;
use std::error::Error;
use std::fmt;

/// Why a body isn't read as an endpoint id.
#[derive(Clone, Copy, Debug, PartialEq, Eq)]
pub enum BodyFault {
    /// It is no id, or an id and more.
    Unreadable,
    /// No memory was left.
    NoMemory,
}

impl fmt::Display for BodyFault {
    fn fmt<W: fmt::Write>(&self, f: &mut fmt::Formatter<W>) -> fmt::Result {
        match self {
            BodyFault::Unreadable => f.write_str("no endpoint id"),
            BodyFault::NoMemory => f.write_str("out of memory"),
        }
    }
}

impl Error for BodyFault {}

impl From<NoMemory> for BodyFault {
    ghost use Rattle.bp_blocks.specs.declared.bodies.BodyFault.{BodyFault};

    ghost from_gives = { λ _ fault. fault ≡ BodyFault.NoMemory };

    fn from(_error: NoMemory) -> BodyFault {
        BodyFault::NoMemory
    }
}

/// How many nodes a bundle may pass, and how many it has passed (section 4.4.3).
#[derive(Clone, Copy, Debug, PartialEq, Eq)]
pub struct Hops {
    /// 1 to 255.
    pub limit: u64,
    pub count: u64,
}

/// The id that the body of a previous node block is (section 4.4.1).
pub fn previous_node(alloc: Global, body: &[u8]) -> Result<Eid, BodyFault>
    ensures means { IfOk result (λ eid. (body.now ≡ spelling eid) × Fits eid) }
    ensures found { (eid : Eid) → Fits eid → body.now ≡ spelling eid
        → MatchResult result (λ found. found ≡ eid) (λ fault. fault ≡ BodyFault.NoMemory) }
    // Memory runs out only where the body is one id with a text, and nothing more.
    ensures memory { result ≡ Err BodyFault.NoMemory
        → (eid : Eid) × HasText eid × Fits eid × (body.now ≡ spelling eid) }
{
    match Eid::read_whole(alloc, body) {
        Ok(Some(eid)) => Ok(eid),
        Ok(None) => Err(BodyFault::Unreadable),
        Err(error) => Err(error.into()),
    }
}

/// The argument of a head of this major type at the front, and the bytes after it.
#[tactic(auto, unfolding(cbor_profile::specs::Head::spelling))]
fn argument_at(major: u8, bytes: &[u8]) -> Option<(u64, &[u8])>
    requires { major < 6 }
    ensures means { IfSome result (λ x. bytes.now ≡ head_spelling major x.0 ++ x.1.now) }
    ensures found { (n : ℕ) (rest : List ℕ) → n < 2 ^ 64 → bytes.now ≡ head_spelling major n ++ rest
        → IsSomeAnd result (λ x. (x.0 ≡ n) × (x.1.now ≡ rest)) }
{
    let HeadRead::Whole { head, len } = head_at(bytes) else {
        return None;
    };
    if head.major != major {
        return None;
    }
    Some((head.value, &bytes[len..]))
}

/// The age in milliseconds that the body of a bundle age block is (section 4.4.2), else None. Takes no memory.
#[tactic(auto, unfolding(cbor_profile::specs::Put::uint))]
pub fn age(body: &[u8]) -> Option<u64>
    ensures means { IfSome result (λ age. body.now ≡ uint age) }
    ensures found { (age : ℕ) → age < 2 ^ 64 → body.now ≡ uint age → result ≡ Some age }
{
    let (age, rest) = argument_at(0, body)?;
    rest.is_empty().then_some(age)
}

/// The limit and the count that the body of a hop count block is (section 4.4.3), else None. Takes no memory.
#[tactic(auto, unfolding(crate::specs::Bodies::hops, cbor_profile::specs::Put::uint, cbor_profile::specs::Put::array_head))]
pub fn hop_count(body: &[u8]) -> Option<Hops>
    ensures means { IfSome result (λ found. IsHops found × (body.now ≡ hops found)) }
    ensures found { (value : Hops) → IsHops value → body.now ≡ hops value → result ≡ Some value }
{
    let (items, rest) = argument_at(4, body)?;
    let (limit, rest) = argument_at(0, rest)?;
    let (count, rest) = argument_at(0, rest)?;
    let whole = items == 2 && rest.is_empty();
    (whole && 1 <= limit && limit <= 255).then_some(Hops { limit, count })
}

/// Appends an age in milliseconds, as the body of a bundle age block.
pub fn put_age(out: &mut Bytes, age: u64) -> Result<(), NoMemory>
    ensures ok { OnOk result (out.new ≡ out.old ++ uint age) }
    ensures err { OnErr result (out.new ≡ out.old) }
{
    put_uint(out, age)
}

/// Appends a limit and a count, as the body of a hop count block.
#[tactic(auto, unfolding(crate::specs::Bodies::hops))]
pub fn put_hops(out: &mut Bytes, value: Hops) -> Result<(), NoMemory>
    requires { IsHops value }
    ensures ok { OnOk result (out.new ≡ out.old ++ hops value) }
    ensures err { OnErr result (out.new ≡ out.old) }
{
    let before = out.len();
    let done = append_hops(out, value);
    out.settle(before, done)
}

#[tactic(auto, unfolding(crate::specs::Bodies::hops))]
fn append_hops(out: &mut Bytes, value: Hops) -> Result<(), NoMemory>
    ensures ok { OnOk result (out.new ≡ out.old ++ hops value) }
    ensures err { OnErr result (take (length out.old) out.new ≡ out.old) }
{
    put_array(out, 2)?;
    put_uint(out, value.limit)?;
    put_uint(out, value.count)
}
