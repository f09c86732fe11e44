//! A check as the last item of a block's array (RFC 9171, sections 4.3.1 and 4.3.2).

ghost use Rattle.std.specs.Prelude.{◌≡◌, ◌≤◌, ◌++◌, length, OnOk, OnErr};
ghost use Rattle.cbor_profile.specs.Feeds.{Feeds};
ghost use Rattle.bp_crc.specs.Item.{check_of, check_type, check_count, check_item, zeros};

use crate::kind::CheckKind;
use cbor_profile::{Bytes, Feed, NoMemory, feed_bytes, put_bytes};

impl CheckKind {
    /// The kind of check with a number: each number from 2 on is that of CRC-32C.
    pub fn of_number(number: u64) -> CheckKind
        ensures { result ≡ check_of number }
    {
        match number {
            0 => CheckKind::None,
            1 => CheckKind::Crc16,
            _ => CheckKind::Crc32c,
        }
    }

    /// The check type as a number: 0, 1 or 2.
    pub fn number(self) -> u64
        ensures { result ≡ check_type self }
    {
        match self {
            CheckKind::None => 0,
            CheckKind::Crc16 => 1,
            CheckKind::Crc32c => 2,
        }
    }

    /// How many items the check is: 0 or 1.
    pub fn count(self) -> u64
        ensures { result ≡ check_count self }
    {
        match self {
            CheckKind::None => 0,
            CheckKind::Crc16 | CheckKind::Crc32c => 1,
        }
    }

    /// The bytes of the check, all of them zero, as they stand in the block while the check is computed.
    pub fn zeros(self) -> &'static [u8]
        ensures value { result.now ≡ zeros self }
        ensures few { length result.now ≤ 4 }
    {
        match self {
            CheckKind::None => &[],
            CheckKind::Crc16 => &[0; 2],
            CheckKind::Crc32c => &[0; 4],
        }
    }

    /// How many bytes the item has.
    #[tactic(auto, unfolding(cbor_profile::specs::Put::byte_string))]
    pub fn size(self) -> u64
        ensures size { result ≡ length (check_item self (zeros self)) }
        ensures within { result ≤ 5 }
    {
        match self {
            CheckKind::None => 0,
            CheckKind::Crc16 => 3,
            CheckKind::Crc32c => 5,
        }
    }

    /// Appends the item of a check with these bytes, or leaves the bytes as they were for want of memory.
    pub fn put(self, check: &[u8], out: &mut Bytes) -> Result<(), NoMemory>
        ensures ok { OnOk result (out.new ≡ out.old ++ check_item self check.now) }
        ensures err { OnErr result (out.new ≡ out.old) }
    {
        match self {
            CheckKind::None => Ok(()),
            CheckKind::Crc16 | CheckKind::Crc32c => put_bytes(out, check),
        }
    }

    /// Feeds the item of a check with these bytes. Takes no memory.
    pub fn feed<F: Feed>(self, check: &[u8], into: &mut F)
        ensures stands { Feeds F.stands_for F.MOST into.old into.new (check_item self check.now) }
        ensures fixed { F.fixed into.new ≡ F.fixed into.old }
    {
        match self {
            CheckKind::None => {}
            CheckKind::Crc16 | CheckKind::Crc32c => feed_bytes(into, check),
        }
    }
}
