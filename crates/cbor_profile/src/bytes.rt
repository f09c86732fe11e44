//! Byte strings.

ghost use Rattle.std.specs.Prelude.{◌≡◌, ◌↔◌, ◌++◌, IsTrue, ℕ, [], List, length, take, OnOk, OnErr, IfOk};
ghost use Rattle.std.specs.Borrow.{Lends, Array, sem, u8 as byte};
ghost use Rattle.cbor_profile.specs.Overwritten.{overwritten};
ghost use Rattle.cbor_profile.specs.contracts.bytes.Bytes.{the_row};

use crate::memory::NoMemory;
use std::alloc::Global;
use std::marker::Model;

/// A byte string that grows. A contract sees it as the list of its bytes.
#[derive(Debug, Drop)]
pub struct Bytes {
    content: Vec<u8>,
}

impl Model for Bytes {
    ghost use Rattle.std.specs.Prelude.{ℕ, List};

    ghost Value = { List ℕ };

    ghost view = { λ b. b.content.items };
}

/// Two byte strings are equal exactly where they are the same list.
impl PartialEq for Bytes {
    ghost use Rattle.std.specs.Str.{bytes_eq};
    ghost use Rattle.std.specs.Cmp as Cmp;
    ghost use Rattle.std.specs.Cmp.Lexicographic.{nat_list_eq_equiv};

    ghost eq = { λ a b. bytes_eq a b };

    ghost laws = { Cmp.partial_equiv_from_equiv nat_list_eq_equiv };

    fn eq(&self, other: &Bytes) -> bool {
        self.as_slice() == other.as_slice()
    }
}

impl Eq for Bytes {
    ghost use Rattle.std.specs.Cmp.Lexicographic.{nat_list_eq_equiv};

    ghost laws = { nat_list_eq_equiv };
}

impl Bytes {
    /// Whether both are the same bytes. Takes no memory.
    pub fn is(&self, other: &Bytes) -> bool
        ensures { IsTrue result ↔ (self.now ≡ other.now) }
    {
        self == other
    }

    /// No bytes. Takes no memory.
    pub fn new(alloc: Global) -> Bytes
        ensures { result ≡ [] }
    {
        Bytes {
            content: Vec::new(alloc),
        }
    }

    /// These bytes. Takes no memory.
    pub fn of(content: Vec<u8>) -> Bytes
        ensures { result ≡ content.items }
    {
        Bytes { content }
    }

    /// The bytes as a vector. Takes no memory.
    pub fn into_vec(self) -> Vec<u8>
        ensures { result.items ≡ self }
    {
        self.content
    }

    /// All the bytes.
    pub fn as_slice(&self) -> &[u8]
        ensures { result.now ≡ self.now }
    {
        self.content.as_slice()
    }

    /// All the bytes, to be written in place. Their number stays.
    pub fn as_mut_slice(&mut self) -> &mut [u8]
        ensures* writes_back { sem 𝓛 (Lends the_row (Array byte 0) self.entry result (overwritten self.old)) }
        ensures value { result.now ≡ self.old }
    {
        self.content.as_mut_slice()
    }

    /// How many bytes there are.
    pub fn len(&self) -> usize
        ensures { result ≡ length self.now }
    {
        self.content.len()
    }

    /// Keeps the first `len` bytes, or all where there are fewer.
    pub fn truncate(&mut self, len: usize)
        ensures { self.new ≡ take len self.old }
    {
        self.content.truncate(len);
    }

    /// Asks for room for `more` bytes at once. The bytes stay as they are.
    pub fn reserve(&mut self, more: usize) -> Result<(), NoMemory>
        ensures { self.new ≡ self.old }
    {
        self.content.reserve(more)?;
        Ok(())
    }

    /// Appends the whole piece.
    pub fn extend(&mut self, piece: &[u8]) -> Result<(), NoMemory>
        ensures ok { OnOk result (self.new ≡ self.old ++ piece.now) }
        ensures err { OnErr result (self.new ≡ self.old) }
    {
        self.content.extend_from_slice(piece)?;
        Ok(())
    }

    /// Ends an appending that began at the length `before`: where memory ran out in its middle, what it appended is
    /// taken away again. So the bytes are as they were, or with the whole appended.
    pub fn settle(&mut self, before: usize, appended: Result<(), NoMemory>) -> Result<(), NoMemory>
        ensures same { result ≡ appended }
        ensures ok { OnOk result (self.new ≡ self.old) }
        ensures err { OnErr result (self.new ≡ take before self.old) }
    {
        if appended.is_err() {
            self.truncate(before);
        }
        appended
    }

    /// The same bytes again.
    pub fn copy(&self, alloc: Global) -> Result<Bytes, NoMemory>
        ensures { IfOk result (λ copy. copy ≡ self.now) }
    {
        Ok(Bytes {
            content: Vec::from_slice(alloc, self.content.as_slice())?,
        })
    }
}
