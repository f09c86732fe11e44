//! Messages, from the fields of a row and in words.

use bp_tcpcl::{Item, Message};
use cbor_profile::Bytes;
use std::alloc::Global;
use worked_tables::{Fields, Told, Trouble, answer, hex, text};

pub fn told(alloc: Global, call: &str, row: &mut Fields) -> Told {
    match call {
        "message" => answer(written(alloc, row)),
        _ => Ok(None),
    }
}

/// A number of one byte.
fn byte(row: &mut Fields) -> Result<u8, Trouble> {
    row.word()?
        .parse::<u8>()
        .ok()
        .ok_or(Trouble::Row("a byte as a number"))
}

/// Bytes of a row.
fn bytes(alloc: Global, row: &mut Fields) -> Result<Bytes, Trouble> {
    Ok(Bytes::of(row.bytes(alloc)?))
}

/// `init KEEPALIVE SEGMENT_MRU TRANSFER_MRU NODE EXTENSIONS`
fn init(alloc: Global, row: &mut Fields) -> Result<Message, Trouble> {
    let keepalive = row.word()?.parse::<u16>().ok();
    let Some(keepalive) = keepalive else {
        return Err(Trouble::Row("a number of seconds"));
    };
    let segment_mru = row.number()?;
    let transfer_mru = row.number()?;
    let node = bytes(alloc, row)?;
    let extensions = bytes(alloc, row)?;
    Ok(Message::Init {
        keepalive,
        segment_mru,
        transfer_mru,
        node,
        extensions,
    })
}

/// `segment FLAGS TRANSFER EXTENSIONS CONTENT`
fn segment(alloc: Global, row: &mut Fields) -> Result<Message, Trouble> {
    let flags = byte(row)?;
    let transfer = row.number()?;
    let extensions = bytes(alloc, row)?;
    let content = bytes(alloc, row)?;
    Ok(Message::Segment {
        flags,
        transfer,
        extensions,
        content,
    })
}

/// `ack FLAGS TRANSFER LENGTH`
fn ack(row: &mut Fields) -> Result<Message, Trouble> {
    let flags = byte(row)?;
    let transfer = row.number()?;
    let length = row.number()?;
    Ok(Message::Ack {
        flags,
        transfer,
        length,
    })
}

/// `refuse REASON TRANSFER`
fn refuse(row: &mut Fields) -> Result<Message, Trouble> {
    let reason = byte(row)?;
    let transfer = row.number()?;
    Ok(Message::Refuse { reason, transfer })
}

/// A message by its name and its fields.
fn message(alloc: Global, row: &mut Fields) -> Result<Message, Trouble> {
    match row.word()? {
        "init" => init(alloc, row),
        "segment" => segment(alloc, row),
        "ack" => ack(row),
        "refuse" => refuse(row),
        "keepalive" => Ok(Message::KeepAlive),
        "term" => {
            let flags = byte(row)?;
            let reason = byte(row)?;
            Ok(Message::Term { flags, reason })
        }
        "reject" => {
            let reason = byte(row)?;
            let header = byte(row)?;
            Ok(Message::Reject { reason, header })
        }
        _ => Err(Trouble::Row("a message")),
    }
}

/// `message NAME FIELDS`: the message as it is written.
fn written(alloc: Global, row: &mut Fields) -> Result<String, Trouble> {
    let message = message(alloc, row)?;
    if !message.keeps_limits() {
        return text(alloc, "past a limit");
    }
    let mut out = Bytes::new(alloc);
    message.put(&mut out)?;
    hex(alloc, out.as_slice())
}

/// Bytes in words: those of at most 64, of others how many there are.
fn shown(alloc: Global, bytes: &Bytes) -> Result<String, Trouble> {
    let count = bytes.len();
    if count > 64 {
        return Ok(format!(in alloc; "{count}-bytes")?);
    }
    hex(alloc, bytes.as_slice())
}

/// A SESS_INIT in words.
fn told_init(
    alloc: Global,
    numbers: (u16, u64, u64),
    node: &Bytes,
    extensions: &Bytes,
) -> Result<String, Trouble> {
    let (keepalive, segment, transfer) = numbers;
    let node = shown(alloc, node)?;
    let extensions = shown(alloc, extensions)?;
    Ok(format!(in alloc; "init {keepalive} {segment} {transfer} {node} {extensions}")?)
}

/// A segment in words.
fn told_segment(
    alloc: Global,
    flags: u8,
    transfer: u64,
    extensions: &Bytes,
    content: &Bytes,
) -> Result<String, Trouble> {
    let extensions = shown(alloc, extensions)?;
    let content = shown(alloc, content)?;
    Ok(format!(in alloc; "segment {flags} {transfer} {extensions} {content}")?)
}

/// A message in words.
fn told_message(alloc: Global, message: &Message) -> Result<String, Trouble> {
    match message {
        Message::Init {
            keepalive,
            segment_mru,
            transfer_mru,
            node,
            extensions,
        } => told_init(
            alloc,
            (*keepalive, *segment_mru, *transfer_mru),
            node,
            extensions,
        ),
        Message::Segment {
            flags,
            transfer,
            extensions,
            content,
        } => told_segment(alloc, *flags, *transfer, extensions, content),
        Message::Ack {
            flags,
            transfer,
            length,
        } => Ok(format!(in alloc; "ack {flags} {transfer} {length}")?),
        Message::Refuse { reason, transfer } => {
            Ok(format!(in alloc; "refuse {reason} {transfer}")?)
        }
        Message::KeepAlive => text(alloc, "keepalive"),
        Message::Term { flags, reason } => Ok(format!(in alloc; "term {flags} {reason}")?),
        Message::Reject { reason, header } => Ok(format!(in alloc; "reject {reason} {header}")?),
    }
}

/// A part in words.
pub fn told_item(alloc: Global, item: &Item) -> Result<String, Trouble> {
    match item {
        Item::Contact { flags } => Ok(format!(in alloc; "contact {flags}")?),
        Item::Message(message) => told_message(alloc, message),
    }
}
