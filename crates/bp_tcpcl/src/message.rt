//! Messages and items.

use cbor_profile::Bytes;

/// A message (RFC 9174, section 4.5). Flags and reasons are any byte, a node id and extensions any bytes.
#[derive(Debug, PartialEq, Eq, Drop)]
pub enum Message {
    /// SESS_INIT (section 4.6).
    Init {
        /// Seconds.
        keepalive: u16,
        /// The most bytes of a segment's data that the sender receives.
        segment_mru: u64,
        /// The most bytes of a transfer that the sender receives.
        transfer_mru: u64,
        node: Bytes,
        /// The extension items as they stand, unread.
        extensions: Bytes,
    },
    /// XFER_SEGMENT (section 5.2.2).
    Segment {
        /// 0x01 is END, 0x02 is START.
        flags: u8,
        transfer: u64,
        /// The extension items as they stand, unread; empty where START isn't set.
        extensions: Bytes,
        content: Bytes,
    },
    /// XFER_ACK (section 5.2.3).
    Ack {
        flags: u8,
        transfer: u64,
        /// How many bytes of the transfer are acknowledged.
        length: u64,
    },
    /// XFER_REFUSE (section 5.2.4).
    Refuse {
        reason: u8,
        transfer: u64,
    },
    /// KEEPALIVE (section 5.1.1).
    KeepAlive,
    /// SESS_TERM (section 6.1).
    Term {
        flags: u8,
        reason: u8,
    },
    /// MSG_REJECT (section 5.1.2).
    Reject {
        reason: u8,
        /// The first byte of the rejected message.
        header: u8,
    },
}

/// A part of a stream.
#[derive(Debug, PartialEq, Eq, Drop)]
pub enum Item {
    /// The contact header (RFC 9174, section 4.2).
    Contact { flags: u8 },
    /// A message.
    Message(Message),
}
