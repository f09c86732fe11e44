//! The runs of a row: one for each size of the pieces in which its input comes, or one for each value of what it varies.

use crate::due::{Due, due_of, is_as_due, read_fault, status_name, within_room};
use crate::row::{Row, numbers_of};
use crate::runs::{MOST, Made, ROOM, Setting, run_row};
use crate::told::difference_told;
use cbor_profile::{Bytes, put_bytes};
use std::alloc::Global;
use worked_tables::Trouble;

/// What the runs of a row come to: the first difference, what the last run wrote, and what all of them wrote, where it is
/// kept.
#[derive(Drop)]
pub struct Tried {
    pub difference: Option<String>,
    pub out: Vec<u8>,
    pub kept: Vec<u8>,
    is_kept: bool,
}

impl Tried {
    /// Before the first run.
    fn new(alloc: Global, is_kept: bool) -> Tried {
        Tried {
            difference: None,
            out: Vec::new(alloc),
            kept: Vec::new(alloc),
            is_kept,
        }
    }

    /// Takes a run. The first difference stays.
    fn take(&mut self, difference: Option<String>, made: &Made) -> Result<(), Trouble> {
        if self.difference.is_none() {
            self.difference = difference;
        }
        self.out.clear();
        self.out.extend_from_slice(made.out.as_slice())?;
        if self.is_kept {
            self.kept.extend_from_slice(made.out.as_slice())?;
        }
        Ok(())
    }
}

/// Pieces of any size, room for what the row says, and no further read that fails.
fn plain_setting(row: &Row) -> Result<Setting, Trouble> {
    Ok(Setting {
        most: MOST,
        room: row.number("room", ROOM)?,
        read: None,
    })
}

/// The sizes of the pieces.
fn pieces_of(alloc: Global, row: &Row) -> Result<Vec<u64>, Trouble> {
    let pieces = row.numbers(alloc, "pieces")?;
    if !pieces.is_empty() {
        return Ok(pieces);
    }
    let mut usual = Vec::new(alloc);
    usual.push(MOST as u64)?;
    Ok(usual)
}

/// Whether what is said of the ends and the size of a large output is so.
fn is_large_as_due(alloc: Global, row: &Row, made: &Made) -> Result<bool, Trouble> {
    let out = made.out.as_slice();
    let starts = match row.bytes(alloc, "starts")? {
        Some(front) => out.starts_with(front.as_slice()),
        None => true,
    };
    let ends = match row.bytes(alloc, "ends")? {
        Some(back) => out.ends_with(back.as_slice()),
        None => true,
    };
    let size = row.number("size", out.len())?;
    Ok(starts && ends && size == out.len())
}

/// Whether the status has the name that the row gives, where it gives one.
fn is_named_as_due(alloc: Global, row: &Row, made: &Made) -> Result<bool, Trouble> {
    let status = made.status;
    match status_name(row) {
        Some(name) => {
            let came = format!(in alloc; "{status:?}")?;
            Ok(came.as_str() == name)
        }
        None => Ok(true),
    }
}

/// Runs a row on an input, and takes what comes.
fn try_one(
    alloc: Global,
    row: &Row,
    input: &[u8],
    setting: Setting,
    number: usize,
    tried: &mut Tried,
) -> Result<(), Trouble> {
    let due = due_of(alloc, row, input, number)?;
    let made = run_row(alloc, row, input, setting)?;
    let same = is_as_due(&due, &made)
        && is_large_as_due(alloc, row, &made)?
        && is_named_as_due(alloc, row, &made)?;
    let difference = if same {
        None
    } else {
        Some(difference_told(alloc, row.name, setting, number, &due, &made)?)
    };
    tried.take(difference, &made)
}

/// Runs a row on an input in pieces of each size.
fn try_pieces(
    alloc: Global,
    row: &Row,
    input: &[u8],
    number: usize,
    tried: &mut Tried,
) -> Result<(), Trouble> {
    let setting = plain_setting(row)?;
    for most in &pieces_of(alloc, row)? {
        let most = *most as usize;
        try_one(
            alloc,
            row,
            input,
            Setting { most, ..setting },
            number,
            tried,
        )?;
    }
    Ok(())
}

/// The first bytes of the input alone, so many of them: from one number up to another.
fn try_cuts(
    alloc: Global,
    row: &Row,
    input: &[u8],
    span: (u64, u64),
    tried: &mut Tried,
) -> Result<(), Trouble> {
    for count in span.0..span.1 {
        let count = count as usize;
        let front = input.get(..count).ok_or(Trouble::Row("a cut"))?;
        try_pieces(alloc, row, front, count, tried)?;
    }
    Ok(())
}

/// The input with one byte changed by each of some masks.
fn try_masks(
    alloc: Global,
    row: &Row,
    input: &[u8],
    at: usize,
    masks: &[u64],
    tried: &mut Tried,
) -> Result<(), Trouble> {
    for mask in masks {
        let mut changed = Vec::from_slice(alloc, input)?;
        let byte = changed.get_mut(at).ok_or(Trouble::Row("a byte"))?;
        *byte ^= (*mask & 255) as u8;
        try_pieces(alloc, row, changed.as_slice(), at, tried)?;
    }
    Ok(())
}

/// The input with each byte of a span changed in turn.
fn try_bits(
    alloc: Global,
    row: &Row,
    input: &[u8],
    span: (u64, u64),
    masks: &[u64],
    tried: &mut Tried,
) -> Result<(), Trouble> {
    for at in span.0..span.1 {
        try_masks(alloc, row, input, at as usize, masks, tried)?;
    }
    Ok(())
}

/// So many bytes: those of a turn, over and over.
fn in_turn(alloc: Global, turn: &[u8], len: usize) -> Result<Vec<u8>, Trouble> {
    let mut body = Vec::new(alloc);
    for byte in turn.iter().cycle().take(len) {
        body.push(*byte)?;
    }
    Ok(body)
}

/// The input of a row that varies a body: the bytes `before`, a byte string of so many bytes, which are those of `body` in
/// turn, and the bytes `after`.
fn around_body(alloc: Global, row: &Row, len: usize) -> Result<Bytes, Trouble> {
    let mut input = Bytes::of(needed(alloc, row, "before")?);
    let turn = needed(alloc, row, "body")?;
    put_bytes(&mut input, in_turn(alloc, turn.as_slice(), len)?.as_slice())?;
    input.extend(needed(alloc, row, "after")?.as_slice())?;
    Ok(input)
}

fn needed(alloc: Global, row: &Row, word: &'static str) -> Result<Vec<u8>, Trouble> {
    row.bytes(alloc, word)?.ok_or(Trouble::Row(word))
}

/// Inputs with a body of each length from one number up to another.
fn try_bodies(
    alloc: Global,
    row: &Row,
    span: (u64, u64),
    tried: &mut Tried,
) -> Result<(), Trouble> {
    for len in span.0..span.1 {
        let len = len as usize;
        let input = around_body(alloc, row, len)?;
        try_pieces(alloc, row, input.as_slice(), len, tried)?;
    }
    Ok(())
}

/// The size of the pieces of a row that varies a read or the room.
fn one_size(alloc: Global, row: &Row) -> Result<usize, Trouble> {
    match pieces_of(alloc, row)?.first() {
        Some(most) => Ok(*most as usize),
        None => Ok(MOST),
    }
}

/// Runs in which one read fails, of each number of a span.
fn try_reads(
    alloc: Global,
    row: &Row,
    input: &[u8],
    span: (u64, u64),
    tried: &mut Tried,
) -> Result<(), Trouble> {
    let most = one_size(alloc, row)?;
    let setting = Setting {
        most,
        ..plain_setting(row)?
    };
    for read in span.0..span.1 {
        let failing = Setting {
            read: Some(read),
            ..setting
        };
        try_one(alloc, row, input, failing, read as usize, tried)?;
    }
    Ok(())
}

/// What a run is due where some reads before it were reached: the fault of its read as long as each failed, then what
/// the row is due.
fn try_reached(
    alloc: Global,
    row: &Row,
    input: &[u8],
    span: (u64, u64),
    tried: &mut Tried,
) -> Result<(), Trouble> {
    let fault = read_fault(alloc)?;
    let due = due_of(alloc, row, input, 0)?;
    let most = one_size(alloc, row)?;
    let setting = Setting {
        most,
        ..plain_setting(row)?
    };
    let mut reached = true;
    for read in span.0..span.1 {
        let failing = Setting {
            read: Some(read),
            ..setting
        };
        let made = run_row(alloc, row, input, failing)?;
        reached = reached && is_as_due(&fault, &made);
        let early = !reached && read == span.0;
        let late = reached && read.saturating_add(1) == span.1;
        let same = !early && !late && (reached || is_as_due(&due, &made));
        let difference = if same {
            None
        } else {
            Some(difference_told(alloc, row.name, failing, read as usize, &due, &made)?)
        };
        tried.take(difference, &made)?;
    }
    Ok(())
}

/// A run whose sinks have room for so many bytes.
fn try_room(
    alloc: Global,
    row: &Row,
    input: &[u8],
    setting: Setting,
    tried: &mut Tried,
) -> Result<(), Trouble> {
    let whole = due_of(alloc, row, input, 0)?;
    let due = within_room(alloc, whole, setting.room)?;
    let made = run_row(alloc, row, input, setting)?;
    let difference = if is_as_due(&due, &made) {
        None
    } else {
        Some(told_of_room(alloc, row, setting, &due, &made)?)
    };
    tried.take(difference, &made)
}

fn told_of_room(
    alloc: Global,
    row: &Row,
    setting: Setting,
    due: &Due,
    made: &Made,
) -> Result<String, Trouble> {
    difference_told(alloc, row.name, setting, setting.room, due, made)
}

/// Runs whose sinks have room for so many bytes: from one number up to another.
fn try_rooms(
    alloc: Global,
    row: &Row,
    input: &[u8],
    span: (u64, u64),
    tried: &mut Tried,
) -> Result<(), Trouble> {
    let most = one_size(alloc, row)?;
    for room in span.0..span.1 {
        let setting = Setting {
            most,
            room: room as usize,
            read: None,
        };
        try_room(alloc, row, input, setting, tried)?;
    }
    Ok(())
}

/// What a line `vary WHAT FIRST END ..` says: a word, a span, and what stands behind it.
#[derive(Drop)]
struct Varied<'a> {
    what: &'a str,
    span: (u64, u64),
    rest: Vec<u64>,
}

fn variation_of(alloc: Global, text: &str) -> Result<Varied<'_>, Trouble> {
    let (what, numbers) = text.split_once(' ').ok_or(Trouble::Row("a span"))?;
    let numbers = numbers_of(alloc, numbers)?;
    let (first, rest) = numbers.split_first().ok_or(Trouble::Row("a first number"))?;
    let (end, rest) = rest.split_first().ok_or(Trouble::Row("an end"))?;
    Ok(Varied {
        what,
        span: (*first, *end),
        rest: Vec::from_slice(alloc, rest)?,
    })
}

/// The runs of a row on its input.
pub fn try_row(alloc: Global, row: &Row, input: &[u8]) -> Result<Tried, Trouble> {
    let mut tried = Tried::new(alloc, row.field("keep").is_some());
    let Some(text) = row.field("vary") else {
        try_pieces(alloc, row, input, 0, &mut tried)?;
        return Ok(tried);
    };
    let varied = variation_of(alloc, text)?;
    let span = varied.span;
    match varied.what {
        "cuts" => try_cuts(alloc, row, input, span, &mut tried)?,
        "bits" => try_bits(alloc, row, input, span, varied.rest.as_slice(), &mut tried)?,
        "body" => try_bodies(alloc, row, span, &mut tried)?,
        "reads" => try_reads(alloc, row, input, span, &mut tried)?,
        "reached" => try_reached(alloc, row, input, span, &mut tried)?,
        "room" => try_rooms(alloc, row, input, span, &mut tried)?,
        _ => return Err(Trouble::Row("a word that says what varies")),
    }
    Ok(tried)
}
