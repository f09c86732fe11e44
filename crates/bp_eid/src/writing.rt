//! Writing endpoint ids.

ghost use Rattle.std.specs.Prelude.{◌≡◌, ◌+◌, ◌<◌, ◌≤◌, ◌^◌, ◌++◌, ℕ, List, length, take, OnOk, OnErr};
ghost use Rattle.cbor_profile.specs.Feeds.{Feeds};
ghost use Rattle.bp_eid.specs.EndpointId.{spelling, Fits};

use crate::eid::Eid;
use cbor_profile::{
    Bytes, Feed, NoMemory, feed_array, feed_text, feed_uint, put_array, put_text, put_uint,
    uint_size,
};

impl Eid {
    /// Appends the spelling, or for want of memory a part of it.
    #[tactic(auto, unfolding(crate::specs::EndpointId::spelling))]
    fn put_parts(&self, out: &mut Bytes) -> Result<(), NoMemory>
        ensures ok { OnOk result (out.new ≡ out.old ++ spelling self.now) }
        ensures err { OnErr result (take (length out.old) out.new ≡ out.old) }
    {
        put_array(out, 2)?;
        match self {
            Eid::Null => {
                put_uint(out, 1)?;
                put_uint(out, 0)
            }
            Eid::Dtn(text) => {
                put_uint(out, 1)?;
                put_text(out, text.bytes())
            }
            Eid::Ipn { node, service } => {
                put_uint(out, 2)?;
                put_array(out, 2)?;
                put_uint(out, *node)?;
                put_uint(out, *service)
            }
        }
    }

    /// Appends the one spelling (RFC 9171, section 4.2.5.1), or leaves the bytes as they were for want of memory.
    pub fn put(&self, out: &mut Bytes) -> Result<(), NoMemory>
        ensures ok { OnOk result (out.new ≡ out.old ++ spelling self.now) }
        ensures err { OnErr result (out.new ≡ out.old) }
    {
        let before = out.len();
        let put = self.put_parts(out);
        out.settle(before, put)
    }
}

impl Eid {
    /// Feeds the spelling. Takes no memory.
    pub fn feed_into<F: Feed>(&self, into: &mut F)
        ensures stands { Feeds F.stands_for F.MOST into.old into.new (spelling self.now) }
        ensures fixed { F.fixed into.new ≡ F.fixed into.old }
    {
        feed_array(into, 2);
        match self {
            Eid::Null => {
                feed_uint(into, 1);
                feed_uint(into, 0);
            }
            Eid::Dtn(text) => {
                feed_uint(into, 1);
                feed_text(into, text.bytes());
            }
            Eid::Ipn { node, service } => {
                feed_uint(into, 2);
                feed_array(into, 2);
                feed_uint(into, *node);
                feed_uint(into, *service);
            }
        }
    }

    /// How many bytes the spelling has. Takes no memory.
    pub fn size(&self) -> u64
        ensures size { result ≡ length (spelling self.now) }
        ensures within { result ≤ 1029 }
        ensures fits { Fits self.now }
    {
        match self {
            Eid::Null => 3,
            Eid::Dtn(text) => {
                let len = text.bytes().len() as u64;
                2 + uint_size(len) + len
            }
            Eid::Ipn { node, service } => 3 + uint_size(*node) + uint_size(*service),
        }
    }
}
