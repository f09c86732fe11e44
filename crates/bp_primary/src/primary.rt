//! Primary blocks.

ghost use Rattle.std.specs.Prelude.{◌≡◌, ◌+◌, ◌%◌, ◌^◌, ◌<◌, ◌≤◌, ◌↔◌, ◌++◌, length, take, is_some, IsSome, IsTrue, IfOk, OnOk, OnErr};
ghost use Rattle.bp_crc.specs.Check.{check_bytes};
ghost use Rattle.bp_crc.specs.Checking.{bytes_of};
ghost use Rattle.bp_crc.specs.Item.{zeros};
ghost use Rattle.cbor_profile.specs.Feeds.{Feeds};
ghost use Rattle.bp_primary.specs.Flags.{is_fragment};

use crate::fragment::{feed_fragment, fragment_size, put_fragment};
use bp_crc::laws::what_is_fixed_names_the_kind;
use bp_crc::{CheckBytes, CheckKind, Checking};
use bp_eid::Eid;
use cbor_profile::{Bytes, Feed, NoMemory, uint_size};
use std::alloc::Global;

/// Where the payload of a fragment stands in the whole payload, in bytes.
#[derive(Clone, Copy, Debug, PartialEq, Eq)]
pub struct Piece {
    /// How many bytes stand before it.
    pub offset: u64,
    /// How many bytes the whole payload has.
    pub total: u64,
}

/// A primary block (RFC 9171, section 4.3.1). It says where a fragment stands exactly where flag 0x1 is set.
#[derive(Debug, Drop)]
pub struct Primary {
    /// The bundle processing control flags (section 4.2.3).
    pub flags: u64,
    /// The check that the block carries.
    pub crc: CheckKind,
    pub destination: Eid,
    pub source: Eid,
    pub report_to: Eid,
    /// The creation time: milliseconds since the start of 2000, or 0 where it isn't known (section 4.2.7).
    pub created: u64,
    /// The sequence number of the creation timestamp.
    pub sequence: u64,
    /// How long the bundle is of use after its creation, in milliseconds.
    pub lifetime: u64,
    pub fragment: Option<Piece>,
    pub ghost fragmented: { is_some fragment ≡ is_fragment flags },
}

impl Primary {
    ghost use Rattle.bp_primary.specs.Spelling.{IsPrimary, array_with, spelling};

    /// Whether the three ids are the same.
    fn has_nodes_of(&self, other: &Primary) -> bool
        ensures { IsTrue result
            ↔ ((self.now.destination ≡ other.now.destination) × (self.now.source ≡ other.now.source)
            × (self.now.report_to ≡ other.now.report_to)) }
    {
        self.destination.is(&other.destination)
            && self.source.is(&other.source)
            && self.report_to.is(&other.report_to)
    }

    /// Whether the times are the same.
    fn has_times_of(&self, other: &Primary) -> bool
        ensures { IsTrue result
            ↔ ((self.now.created ≡ other.now.created) × (self.now.sequence ≡ other.now.sequence)
            × (self.now.lifetime ≡ other.now.lifetime)) }
    {
        self.created == other.created
            && self.sequence == other.sequence
            && self.lifetime == other.lifetime
    }

    /// Whether the flags, the kind of check and the place of a fragment are the same.
    fn has_front_of(&self, other: &Primary) -> bool
        ensures { IsTrue result
            ↔ ((self.now.flags ≡ other.now.flags) × (self.now.crc ≡ other.now.crc)
            × (self.now.fragment ≡ other.now.fragment)) }
    {
        self.flags == other.flags && self.crc == other.crc && self.fragment == other.fragment
    }

    /// Whether both are the same block. Takes no memory.
    pub fn is(&self, other: &Primary) -> bool
        ensures { IsTrue result ↔ (self.now ≡ other.now) }
    {
        self.has_front_of(other) && self.has_nodes_of(other) && self.has_times_of(other)
    }

    /// Whether the bundle is a fragment. Takes no memory.
    pub fn is_fragment(&self) -> bool
        ensures flag { IsTrue result ↔ (self.now.flags % 2 ≡ 1) }
        ensures piece { IsTrue result ↔ IsSome self.now.fragment }
    {
        self.fragment.is_some()
    }

    /// Feeds the array with these bytes as its check. Takes no memory.
    pub fn feed_with<F: Feed>(&self, check: &[u8], into: &mut F)
        ensures stands { Feeds F.stands_for F.MOST into.old into.new (array_with self.now check.now) }
        ensures fixed { F.fixed into.new ≡ F.fixed into.old }
    {
        self.feed_front(into);
        self.feed_nodes(into);
        self.feed_times(into);
        feed_fragment(into, self.fragment);
        self.crc.feed(check, into);
    }

    /// Appends the array with these bytes as its check, or a part of it for want of memory.
    #[tactic(auto, unfolding(crate::specs::Spelling::array_with))]
    fn put_with(&self, check: &[u8], out: &mut Bytes) -> Result<(), NoMemory>
        ensures ok { OnOk result (out.new ≡ out.old ++ array_with self.now check.now) }
        ensures err { OnErr result (take (length out.old) out.new ≡ out.old) }
    {
        self.put_front(out)?;
        self.put_nodes(out)?;
        self.put_times(out)?;
        put_fragment(out, self.fragment)?;
        self.crc.put(check, out)
    }

    /// How many bytes the spelling has. Takes no memory.
    pub fn size(&self) -> u64
        ensures size { result ≡ length (spelling self.now) }
        ensures within { result ≤ 3200 }
        ensures fits { IsPrimary self.now }
    {
        let nodes = self.destination.size() + self.source.size() + self.report_to.size();
        let times = uint_size(self.created) + uint_size(self.sequence) + uint_size(self.lifetime);
        let last = fragment_size(self.fragment) + self.crc.size();
        4 + uint_size(self.flags) + nodes + times + last
    }

    /// The check over the array whose check bytes are zero.
    fn check(&self) -> CheckBytes
        ensures { length (spelling self.now) < 2 ^ 64 → bytes_of result
            ≡ check_bytes self.now.crc (array_with self.now (zeros self.now.crc)) }
    {
        what_is_fixed_names_the_kind();
        let mut checking = Checking::new(self.crc);
        self.feed_with(self.crc.zeros(), &mut checking);
        checking.finish()
    }

    /// Feeds the spelling. Takes no memory.
    pub fn feed_into<F: Feed>(&self, into: &mut F)
        ensures stands { Feeds F.stands_for F.MOST into.old into.new (spelling self.now) }
        ensures fixed { F.fixed into.new ≡ F.fixed into.old }
    {
        // Read so that it is known to be a number of 64 bits.
        let _most = F::MOST;
        let check = self.check();
        self.feed_with(check.as_slice(), into);
    }

    /// Appends the spelling, or a part of it for want of memory.
    #[tactic(auto, unfolding(crate::specs::Spelling::spelling))]
    fn append(&self, out: &mut Bytes) -> Result<(), NoMemory>
        ensures ok { OnOk result (out.new ≡ out.old ++ spelling self.now) }
        ensures err { OnErr result (take (length out.old) out.new ≡ out.old) }
    {
        out.reserve(self.size() as usize)?;
        let check = self.check();
        self.put_with(check.as_slice(), out)
    }

    /// Appends the spelling, or leaves the bytes as they were for want of memory.
    pub fn put(&self, out: &mut Bytes) -> Result<(), NoMemory>
        ensures ok { OnOk result (out.new ≡ out.old ++ spelling self.now) }
        ensures err { OnErr result (out.new ≡ out.old) }
    {
        let before = out.len();
        let done = self.append(out);
        out.settle(before, done)
    }

    /// The same block again.
    pub fn copy(&self, alloc: Global) -> Result<Primary, NoMemory>
        ensures { IfOk result (λ copy. copy ≡ self.now) }
    {
        Ok(Primary {
            flags: self.flags,
            crc: self.crc,
            destination: self.destination.copy(alloc)?,
            source: self.source.copy(alloc)?,
            report_to: self.report_to.copy(alloc)?,
            created: self.created,
            sequence: self.sequence,
            lifetime: self.lifetime,
            fragment: self.fragment,
        })
    }
}
