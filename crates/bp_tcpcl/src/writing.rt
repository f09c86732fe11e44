//! Writing messages.

ghost use Rattle.std.specs.Prelude.{◌≡◌, ◌<◌, ◌^◌, ◌↔◌, ◌++◌, IsTrue, length, take, OnOk, OnErr};
ghost use Rattle.std.specs.Int.{w8, w16, w32, w64};
ghost use Rattle.bp_tcpcl.specs.Numbers.{number};
ghost use Rattle.bp_tcpcl.specs.Spelling.{sized, is_start, extension_field, fields, kind, message_bytes, Fits, KeepsLimits};

use crate::EXTENSIONS_LIMIT;
use crate::message::Message;
use cbor_profile::{BUNDLE_LIMIT, Bytes, NoMemory};

/// A number of one byte.
#[tactic(auto, unfolding(crate::specs::Numbers::number))]
fn put_u8(out: &mut Bytes, value: u8) -> Result<(), NoMemory>
    ensures ok { OnOk result (out.new ≡ out.old ++ number w8 value) }
    ensures err { OnErr result (out.new ≡ out.old) }
{
    out.extend(&value.to_be_bytes())
}

/// A number of two bytes.
#[tactic(auto, unfolding(crate::specs::Numbers::number))]
fn put_u16(out: &mut Bytes, value: u16) -> Result<(), NoMemory>
    ensures ok { OnOk result (out.new ≡ out.old ++ number w16 value) }
    ensures err { OnErr result (out.new ≡ out.old) }
{
    out.extend(&value.to_be_bytes())
}

/// A number of four bytes.
#[tactic(auto, unfolding(crate::specs::Numbers::number))]
fn put_u32(out: &mut Bytes, value: u32) -> Result<(), NoMemory>
    ensures ok { OnOk result (out.new ≡ out.old ++ number w32 value) }
    ensures err { OnErr result (out.new ≡ out.old) }
{
    out.extend(&value.to_be_bytes())
}

/// A number of eight bytes.
#[tactic(auto, unfolding(crate::specs::Numbers::number))]
fn put_u64(out: &mut Bytes, value: u64) -> Result<(), NoMemory>
    ensures ok { OnOk result (out.new ≡ out.old ++ number w64 value) }
    ensures err { OnErr result (out.new ≡ out.old) }
{
    out.extend(&value.to_be_bytes())
}

/// Content behind its length of two bytes.
fn put_sized_by_u16(out: &mut Bytes, content: &[u8]) -> Result<(), NoMemory>
    requires { length content.now < 2 ^ 16 }
    ensures ok { OnOk result (out.new ≡ out.old ++ sized w16 content.now) }
    ensures err { OnErr result (out.new ≡ out.old) }
{
    let before = out.len();
    put_u16(out, content.len() as u16)?;
    let added = out.extend(content);
    out.settle(before, added)
}

/// Content behind its length of four bytes.
fn put_sized_by_u32(out: &mut Bytes, content: &[u8]) -> Result<(), NoMemory>
    requires { length content.now < 2 ^ 32 }
    ensures ok { OnOk result (out.new ≡ out.old ++ sized w32 content.now) }
    ensures err { OnErr result (out.new ≡ out.old) }
{
    let before = out.len();
    put_u32(out, content.len() as u32)?;
    let added = out.extend(content);
    out.settle(before, added)
}

/// Content behind its length of eight bytes.
fn put_sized_by_u64(out: &mut Bytes, content: &[u8]) -> Result<(), NoMemory>
    ensures ok { OnOk result (out.new ≡ out.old ++ sized w64 content.now) }
    ensures err { OnErr result (out.new ≡ out.old) }
{
    let before = out.len();
    put_u64(out, content.len() as u64)?;
    let added = out.extend(content);
    out.settle(before, added)
}

/// The extensions of a segment, which stand there with START alone.
fn put_extensions(out: &mut Bytes, start: bool, extensions: &[u8]) -> Result<(), NoMemory>
    requires { length extensions.now < 2 ^ 32 }
    ensures ok { OnOk result (out.new ≡ out.old ++ extension_field start extensions.now) }
    ensures err { OnErr result (out.new ≡ out.old) }
{
    if !start {
        return Ok(());
    }
    put_sized_by_u32(out, extensions)
}

impl Message {
    /// Whether the message may be written: a node id has at most 65,535 bytes, extensions have at most 65,536 and stand in
    /// no segment without START, and the content of a segment has at most as many bytes as a bundle. Takes no memory.
    pub fn keeps_limits(&self) -> bool
        ensures { IsTrue result ↔ KeepsLimits self.now }
    {
        match self {
            Message::Init {
                node,
                extensions,
                ..
            } => node.len() <= 65_535 && extensions.len() as u64 <= EXTENSIONS_LIMIT,
            Message::Segment {
                flags,
                extensions,
                content,
                ..
            } => {
                extensions.len() as u64 <= EXTENSIONS_LIMIT
                    && content.len() as u64 <= BUNDLE_LIMIT
                    && (*flags / 2 % 2 == 1 || extensions.len() == 0)
            }
            _ => true,
        }
    }

    /// The first byte.
    fn kind(&self) -> u8
        ensures { result ≡ kind self.now }
    {
        match self {
            Message::Segment { .. } => 1,
            Message::Ack { .. } => 2,
            Message::Refuse { .. } => 3,
            Message::KeepAlive => 4,
            Message::Term { .. } => 5,
            Message::Reject { .. } => 6,
            Message::Init { .. } => 7,
        }
    }

    /// Appends what follows the first byte, or for want of memory a part of it.
    #[tactic(auto, unfolding(crate::specs::Spelling::Fits))]
    fn put_parts(&self, out: &mut Bytes) -> Result<(), NoMemory>
        requires { KeepsLimits self.now }
        ensures ok { OnOk result (out.new ≡ out.old ++ fields self.now) }
        ensures fits { OnOk result (Fits self.now) }
        ensures err { OnErr result (take (length out.old) out.new ≡ out.old) }
    {
        match self {
            Message::Init {
                keepalive,
                segment_mru,
                transfer_mru,
                node,
                extensions,
            } => {
                put_u16(out, *keepalive)?;
                put_u64(out, *segment_mru)?;
                put_u64(out, *transfer_mru)?;
                put_sized_by_u16(out, node.as_slice())?;
                put_sized_by_u32(out, extensions.as_slice())
            }
            Message::Segment {
                flags,
                transfer,
                extensions,
                content,
            } => {
                put_u8(out, *flags)?;
                put_u64(out, *transfer)?;
                let start = *flags / 2 % 2 == 1;
                put_extensions(out, start, extensions.as_slice())?;
                put_sized_by_u64(out, content.as_slice())
            }
            Message::Ack {
                flags,
                transfer,
                length,
            } => {
                put_u8(out, *flags)?;
                put_u64(out, *transfer)?;
                put_u64(out, *length)
            }
            Message::Refuse { reason, transfer } => {
                put_u8(out, *reason)?;
                put_u64(out, *transfer)
            }
            Message::KeepAlive => Ok(()),
            Message::Term { flags, reason } => {
                put_u8(out, *flags)?;
                put_u8(out, *reason)
            }
            Message::Reject { reason, header } => {
                put_u8(out, *reason)?;
                put_u8(out, *header)
            }
        }
    }

    /// Appends what follows the first byte.
    fn put_fields(&self, out: &mut Bytes) -> Result<(), NoMemory>
        requires { KeepsLimits self.now }
        ensures ok { OnOk result (out.new ≡ out.old ++ fields self.now) }
        ensures fits { OnOk result (Fits self.now) }
        ensures err { OnErr result (out.new ≡ out.old) }
    {
        let before = out.len();
        let put = self.put_parts(out);
        out.settle(before, put)
    }

    /// Appends the message (RFC 9174, sections 4.6 to 6.1), or leaves the bytes as they were for want of memory.
    #[tactic(auto, unfolding(crate::specs::Spelling::message_bytes))]
    pub fn put(&self, out: &mut Bytes) -> Result<(), NoMemory>
        // `keeps_limits` tells it.
        requires { KeepsLimits self.now }
        ensures ok { OnOk result (out.new ≡ out.old ++ message_bytes self.now) }
        // So the message is read again.
        ensures fits { OnOk result (Fits self.now) }
        ensures err { OnErr result (out.new ≡ out.old) }
    {
        let before = out.len();
        put_u8(out, self.kind())?;
        let put = self.put_fields(out);
        out.settle(before, put)
    }
}
