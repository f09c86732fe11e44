//! Canonical blocks (RFC 9171, section 4.3.2).

ghost use Rattle.std.specs.Prelude.{◌≡◌, ◌↔◌, IsTrue, ◌<◌, ◌≤◌, ◌+◌, ◌^◌, ◌++◌, ℕ, List, length, take, OnOk, OnErr, IfOk};
ghost use Rattle.std.specs.Option.{option_copied};
ghost use Rattle.bp_crc.specs.Check.{check_bytes};
ghost use Rattle.bp_crc.specs.Checking.{bytes_of};
ghost use Rattle.bp_crc.specs.Item.{zeros};
ghost use Rattle.cbor_profile.specs.Feeds.{Feeds};
ghost use Rattle.bp_blocks.specs.Blocks.{block_with};

use crate::counted::Counted;
use bp_crc::laws::what_is_fixed_names_the_kind;
use bp_crc::{CheckBytes, CheckKind, Checking};
use cbor_profile::{
    Bytes, Feed, NoMemory, feed_array, feed_bytes, feed_uint, put_array, put_bytes, put_uint,
};
use std::alloc::Global;

/// A canonical block (RFC 9171, section 4.3.2).
#[derive(Debug, PartialEq, Eq, Drop)]
pub struct Block {
    /// The block type code (section 9.1): 1 is the payload.
    pub kind: u64,
    /// The number by which other blocks name it (section 4.1): 1 is the payload.
    pub number: u64,
    /// The block processing control flags (section 4.2.4).
    pub flags: u64,
    /// The check that the block carries.
    pub crc: CheckKind,
    /// The block-type-specific data, without the head of its byte string.
    pub body: Bytes,
}

impl Block {
    ghost use Rattle.bp_blocks.specs.Spelling.{IsBlock, array_with, spelling};

    /// Feeds the array with these bytes as its check.
    #[tactic(auto, unfolding(crate::specs::Spelling::array_with))]
    fn feed_with<F: Feed>(&self, check: &[u8], into: &mut F)
        ensures stands { Feeds F.stands_for F.MOST into.old into.new (array_with self.now check.now) }
        ensures fixed { F.fixed into.new ≡ F.fixed into.old }
        ensures fits { IsBlock self.now }
    {
        feed_array(into, 5 + self.crc.count());
        feed_uint(into, self.kind);
        feed_uint(into, self.number);
        feed_uint(into, self.flags);
        feed_uint(into, self.crc.number());
        feed_bytes(into, self.body.as_slice());
        self.crc.feed(check, into);
    }

    /// The check over the array whose check bytes are zero.
    fn check(&self) -> CheckBytes
        ensures { bytes_of result
            ≡ check_bytes self.now.crc (array_with self.now (zeros self.now.crc)) }
    {
        what_is_fixed_names_the_kind();
        let mut checking = Checking::new(self.crc);
        self.feed_with(self.crc.zeros(), &mut checking);
        checking.finish()
    }

    /// Appends the array with these bytes as its check, or a part of it for want of memory.
    #[tactic(auto, unfolding(crate::specs::Spelling::array_with))]
    fn put_with(&self, check: &[u8], out: &mut Bytes) -> Result<(), NoMemory>
        ensures ok { OnOk result (out.new ≡ out.old ++ array_with self.now check.now) }
        ensures err { OnErr result (take (length out.old) out.new ≡ out.old) }
    {
        put_array(out, 5 + self.crc.count())?;
        put_uint(out, self.kind)?;
        put_uint(out, self.number)?;
        put_uint(out, self.flags)?;
        put_uint(out, self.crc.number())?;
        put_bytes(out, self.body.as_slice())?;
        self.crc.put(check, out)
    }

    /// Appends the spelling, or a part of it for want of memory.
    #[tactic(auto, unfolding(crate::specs::Spelling::spelling))]
    fn append(&self, out: &mut Bytes) -> Result<(), NoMemory>
        ensures ok { OnOk result (out.new ≡ out.old ++ spelling self.now) }
        ensures err { OnErr result (take (length out.old) out.new ≡ out.old) }
    {
        let check = self.check();
        self.put_with(check.as_slice(), out)
    }

    /// Appends the spelling, or leaves the bytes as they were for want of memory.
    pub fn put(&self, out: &mut Bytes) -> Result<(), NoMemory>
        ensures ok { OnOk result (out.new ≡ out.old ++ spelling self.now) }
        ensures err { OnErr result (out.new ≡ out.old) }
    {
        let before = out.len();
        let done = self.append(out);
        out.settle(before, done)
    }

    /// How many bytes the spelling has. Takes no memory.
    pub fn size(&self) -> u64
        ensures size { result ≡ length (spelling self.now) }
        ensures fits { IsBlock self.now }
    {
        let mut counted = Counted { bytes: 0 };
        self.feed_with(self.crc.zeros(), &mut counted);
        counted.bytes
    }

    /// Whether both are the same block, as `==` says. Takes no memory.
    pub fn is(&self, other: &Block) -> bool
        ensures { IsTrue result ↔ (self.now ≡ other.now) }
    {
        self == other
    }

    /// The same block again.
    pub fn copy(&self, alloc: Global) -> Result<Block, NoMemory>
        ensures { IfOk result (λ copy. copy ≡ self.now) }
    {
        Ok(Block {
            kind: self.kind,
            number: self.number,
            flags: self.flags,
            crc: self.crc,
            body: self.body.copy(alloc)?,
        })
    }
}

/// The canonical block with a number, if there is one. Takes no memory.
pub fn block_with(blocks: &[Block], number: u64) -> Option<&Block>
    ensures { option_copied result ≡ block_with blocks.now number }
{
    blocks.iter().find(|block| block.number == number)
}
