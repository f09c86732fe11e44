//! The items of a primary block before those of a fragment, in three groups.

ghost use Rattle.std.specs.Prelude.{◌≡◌, ◌+◌, ◌++◌, length, take, OnOk, OnErr};
ghost use Rattle.cbor_profile.specs.Feeds.{Feeds};
ghost use Rattle.bp_crc.specs.Item.{check_count};
ghost use Rattle.bp_primary.specs.Fragment.{fragment_count};
ghost use Rattle.bp_primary.specs.Spelling.{front, nodes, times};

use crate::fragment::fragment_count;
use crate::primary::Primary;
use cbor_profile::{Bytes, Feed, NoMemory, feed_array, feed_uint, put_array, put_uint};

/// The version of the bundle protocol.
const VERSION: u64 = 7;

impl Primary {
    /// How many items the array has.
    fn count(&self) -> u64
        ensures { result ≡ 8 + fragment_count self.now.fragment + check_count self.now.crc }
    {
        8 + fragment_count(self.fragment) + self.crc.count()
    }

    /// Feeds the head of the array, the version, the flags and the check type.
    pub(crate) fn feed_front<F: Feed>(&self, into: &mut F)
        ensures stands { Feeds F.stands_for F.MOST into.old into.new (front self.now) }
        ensures fixed { F.fixed into.new ≡ F.fixed into.old }
    {
        feed_array(into, self.count());
        feed_uint(into, VERSION);
        feed_uint(into, self.flags);
        feed_uint(into, self.crc.number());
    }

    /// Appends the head of the array, the version, the flags and the check type, or a part for want of memory.
    #[tactic(auto, unfolding(crate::specs::Spelling::front))]
    pub(crate) fn put_front(&self, out: &mut Bytes) -> Result<(), NoMemory>
        ensures ok { OnOk result (out.new ≡ out.old ++ front self.now) }
        ensures err { OnErr result (take (length out.old) out.new ≡ out.old) }
    {
        put_array(out, self.count())?;
        put_uint(out, VERSION)?;
        put_uint(out, self.flags)?;
        put_uint(out, self.crc.number())
    }

    /// Feeds the ids of the destination, the source and the node to report to.
    pub(crate) fn feed_nodes<F: Feed>(&self, into: &mut F)
        ensures stands { Feeds F.stands_for F.MOST into.old into.new (nodes self.now) }
        ensures fixed { F.fixed into.new ≡ F.fixed into.old }
    {
        self.destination.feed_into(into);
        self.source.feed_into(into);
        self.report_to.feed_into(into);
    }

    /// Appends the ids of the destination, the source and the node to report to, or a part for want of memory.
    #[tactic(auto, unfolding(crate::specs::Spelling::nodes))]
    pub(crate) fn put_nodes(&self, out: &mut Bytes) -> Result<(), NoMemory>
        ensures ok { OnOk result (out.new ≡ out.old ++ nodes self.now) }
        ensures err { OnErr result (take (length out.old) out.new ≡ out.old) }
    {
        self.destination.put(out)?;
        self.source.put(out)?;
        self.report_to.put(out)
    }

    /// Feeds the creation timestamp and the lifetime.
    pub(crate) fn feed_times<F: Feed>(&self, into: &mut F)
        ensures stands { Feeds F.stands_for F.MOST into.old into.new (times self.now) }
        ensures fixed { F.fixed into.new ≡ F.fixed into.old }
    {
        feed_array(into, 2);
        feed_uint(into, self.created);
        feed_uint(into, self.sequence);
        feed_uint(into, self.lifetime);
    }

    /// Appends the creation timestamp and the lifetime, or a part for want of memory.
    #[tactic(auto, unfolding(crate::specs::Spelling::times))]
    pub(crate) fn put_times(&self, out: &mut Bytes) -> Result<(), NoMemory>
        ensures ok { OnOk result (out.new ≡ out.old ++ times self.now) }
        ensures err { OnErr result (take (length out.old) out.new ≡ out.old) }
    {
        put_array(out, 2)?;
        put_uint(out, self.created)?;
        put_uint(out, self.sequence)?;
        put_uint(out, self.lifetime)
    }
}
