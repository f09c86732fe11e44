//! Heads of CBOR items (RFC 8949, section 3), in the shortest form alone (section 4.2.1).

ghost use Rattle.std.specs.Prelude.{◌≡◌, ◌+◌, ◌<◌, ◌≤◌, ◌∷◌, ◌++◌, ℕ, List, length, take};
ghost use Rattle.cbor_profile.specs.Head.{spelling, IsHead, read_head, argument_found};
ghost use Rattle.cbor_profile.specs.HeadAnswer.{IfWhole};
ghost use Rattle.cbor_profile.specs.declared.head.Head.{Head};
ghost use Rattle.cbor_profile.specs.declared.head.HeadRead.TheVariants.{Whole};

use std::marker::Model;

/// A head: a major type, 0 to 7, and an argument.
#[derive(Clone, Copy, Debug, PartialEq, Eq)]
pub struct Head {
    pub major: u8,
    pub value: u64,
}

/// What reading a head from the left meets first.
#[derive(Clone, Copy, Debug, PartialEq, Eq)]
pub enum HeadRead {
    /// A head, in `len` bytes.
    Whole { head: Head, len: usize },
    /// No byte is there, or bytes of the argument are missing.
    Short,
    /// A shorter form would do.
    NotShortest,
    /// A tag, an indefinite length, a reserved form, or a value of major type 7 outside the first byte.
    Bad,
}

/// The argument that follows a first byte with these low five bits, the least one for which no shorter form would
/// do, and how many bytes the head has.
fn argument_after(low: u8, rest: &[u8]) -> Option<(u64, u64, usize)>
    requires { low < 28 }
    ensures { result ≡ argument_found low rest.now }
{
    match (low, rest) {
        (24, [a, ..]) => Some((u64::from(*a), 24, 2)),
        (25, [a, b, ..]) => Some((u64::from(u16::from_be_bytes([*a, *b])), 1 << 8, 3)),
        (26, [a, b, c, d, ..]) => Some((
            u64::from(u32::from_be_bytes([*a, *b, *c, *d])),
            1 << 16,
            5,
        )),
        (27, [a, b, c, d, e, f, g, h, ..]) => Some((
            u64::from_be_bytes([*a, *b, *c, *d, *e, *f, *g, *h]),
            1 << 32,
            9,
        )),
        (0..=23, _) => Some((u64::from(low), 0, 1)),
        _ => None,
    }
}

#[tactic(auto, unfolding(crate::specs::Head::read_head))]
fn read(bytes: &[u8]) -> HeadRead
    ensures { result ≡ read_head bytes.now }
{
    let [first, rest @ ..] = bytes else {
        return HeadRead::Short;
    };
    let major = first / 32;
    let low = first % 32;
    if major == 6 || low >= 28 || (major == 7 && low >= 24) {
        return HeadRead::Bad;
    }
    let Some((value, least, len)) = argument_after(low, rest) else {
        return HeadRead::Short;
    };
    if value < least {
        return HeadRead::NotShortest;
    }
    HeadRead::Whole {
        head: Head { major, value },
        len,
    }
}

/// Reads the head at the front. Takes no memory.
pub fn head_at(bytes: &[u8]) -> HeadRead
    // What is read is spelled so.
    ensures whole { IfWhole result (λ head len. (len ≤ length bytes.now)
        × (take len bytes.now ≡ spelling head) × IsHead head) }
    // What is spelled so is read, whatever follows it.
    ensures found { (head : Head) (rest : List ℕ) → IsHead head → bytes.now ≡ spelling head ++ rest
        → result ≡ Whole head (length (spelling head)) }
    // Which answer it is.
    ensures exact { result ≡ read_head bytes.now }
{
    read(bytes)
}

/// The bytes of a head: at most nine. A contract sees them as a list.
#[derive(Debug, Drop)]
pub struct HeadBytes {
    bytes: [u8; 9],
    len: usize,
}

impl Model for HeadBytes {
    ghost use Rattle.std.specs.Prelude.{◌≤◌, ℕ, List, take};

    ghost Value = { List ℕ };

    ghost view = { λ h. take h.len h.bytes };

    ghost invariant = { λ h. h.len ≤ 9 };
}

impl HeadBytes {
    /// A first byte, and the argument after it.
    fn of(first: u8, argument: &[u8]) -> HeadBytes
        requires { length argument.now ≤ 8 }
        ensures { result ≡ first ∷ argument.now }
    {
        let mut bytes = [first; 9];
        let len = argument.len() + 1;
        bytes[1..len].copy_from_slice(argument);
        HeadBytes { bytes, len }
    }

    /// All the bytes.
    pub fn as_slice(&self) -> &[u8]
        ensures { result.now ≡ self.now }
    {
        &self.bytes[..self.len]
    }
}

/// The one shortest spelling of a head. Takes no memory.
#[tactic(auto, unfolding(crate::specs::Head::spelling))]
pub fn head_bytes(head: Head) -> HeadBytes
    requires { IsHead head }
    ensures { result ≡ spelling head }
{
    let first = head.major * 32;
    match head.value {
        0..=0x17 => HeadBytes::of(first + head.value as u8, &[]),
        0x18..=0xff => HeadBytes::of(first + 24, &(head.value as u8).to_be_bytes()),
        0x100..=0xffff => HeadBytes::of(first + 25, &(head.value as u16).to_be_bytes()),
        0x1_0000..=0xffff_ffff => HeadBytes::of(first + 26, &(head.value as u32).to_be_bytes()),
        _ => HeadBytes::of(first + 27, &head.value.to_be_bytes()),
    }
}
