//! A run over a source, a shelf and sinks in memory.

use crate::row::{Row, number_of};
use bp_outside::{MemoryShelf, MemorySink, MemorySource, NamedFile};
use bpsec_command::{Status, run};
use cbor_profile::{Bytes, List};
use std::alloc::Global;
use worked_tables::{Trouble, bytes_of};

/// How many bytes a sink has room for, where nothing else is said.
pub const ROOM: usize = 65_536;

/// How many bytes a read gives at most, where nothing else is said.
pub const MOST: usize = 4_096;

/// How the input comes, how many bytes each sink has room for, and a read that fails beside those of the row.
#[derive(Clone, Copy)]
pub struct Setting {
    pub most: usize,
    pub room: usize,
    pub read: Option<u64>,
}

/// What a run made.
#[derive(Drop)]
pub struct Made {
    pub status: Status,
    pub out: Bytes,
    pub report: Bytes,
}

/// The words of a row, between single blanks. `""` is the empty word.
fn words_of(alloc: Global, row: &Row) -> Result<Vec<String>, Trouble> {
    let mut all = Vec::new(alloc);
    let words = row.field("words").ok_or(Trouble::Row("words"))?;
    if words.is_empty() {
        return Ok(all);
    }
    for word in words.split(' ') {
        let word = if word == "\"\"" { "" } else { row.text(word)? };
        all.push(String::from_str(alloc, word)?)?;
    }
    Ok(all)
}

fn bytes_from(alloc: Global, bytes: &[u8]) -> Result<Bytes, Trouble> {
    Ok(Bytes::of(Vec::from_slice(alloc, bytes)?))
}

/// A text with blanks behind it, so many bytes in all.
fn filled(alloc: Global, text: &str, len: usize) -> Result<Vec<u8>, Trouble> {
    let mut bytes = Vec::from_slice(alloc, text.as_bytes())?;
    for _ in 0..len.saturating_sub(text.len()) {
        bytes.push(b' ')?;
    }
    Ok(bytes)
}

/// A name and what stands behind it: in a line `file NAME TEXT`, `hex NAME BYTES`, `filled NAME LENGTH TEXT`.
fn put_file(
    alloc: Global,
    row: &Row,
    line: &str,
    files: &mut Vec<NamedFile>,
) -> Result<(), Trouble> {
    let Some((form, rest)) = line.split_once(' ') else {
        return Ok(());
    };
    if form != "file" && form != "hex" && form != "filled" {
        return Ok(());
    }
    let (name, text) = rest.split_once(' ').ok_or(Trouble::Row("a file"))?;
    let bytes = if form == "file" {
        Vec::from_slice(alloc, named_or(row, text)?.as_bytes())?
    } else if form == "hex" {
        bytes_of(alloc, row.table, text)?
    } else {
        let (len, text) = text.split_once(' ').ok_or(Trouble::Row("a length"))?;
        filled(alloc, named_or(row, text)?, number_of(len)?)?
    };
    put_named(alloc, row, name, bytes, files)
}

/// What a text stands for: itself, or what `@NAME` names.
fn named_or<'a>(row: &Row<'a>, text: &'a str) -> Result<&'a str, Trouble> {
    row.text(text)
}

fn put_named(
    alloc: Global,
    row: &Row,
    name: &str,
    bytes: Vec<u8>,
    files: &mut Vec<NamedFile>,
) -> Result<(), Trouble> {
    let name = named_or(row, name)?;
    files.push(NamedFile {
        name: bytes_from(alloc, name.as_bytes())?,
        bytes: Bytes::of(bytes),
    })?;
    Ok(())
}

/// The text of the file of a name.
fn text_of<'a>(row: &Row<'a>, name: &str) -> Result<&'a str, Trouble> {
    for line in row.lines_with("file").lines() {
        if let Some(rest) = line.strip_prefix("file ") {
            if let Some((first, text)) = rest.split_once(' ') {
                if first == name {
                    return row.text(text);
                }
            }
        }
    }
    Err(Trouble::Row("a file to change"))
}

/// Puts the file that a line `of NAME` names, with the piece `new` in the place of the piece `old`.
fn put_changed(alloc: Global, row: &Row, files: &mut Vec<NamedFile>) -> Result<(), Trouble> {
    let Some(old) = row.field("old") else {
        return Ok(());
    };
    let new = row.field("new").ok_or(Trouble::Row("a new piece"))?;
    let name = row.field("of").ok_or(Trouble::Row("a name to change"))?;
    let text = text_of(row, name)?;
    let (before, after) = text.split_once(old).ok_or(Trouble::Row("an old piece"))?;
    let changed = format!(in alloc; "{before}{new}{after}")?;
    put_named(alloc, row, name, changed.into_bytes(), files)
}

/// The shelf: a changed file, the row's own files, the common ones. The first of a name counts.
fn shelf_of(alloc: Global, row: &Row) -> Result<MemoryShelf, Trouble> {
    let mut files = Vec::new(alloc);
    put_changed(alloc, row, &mut files)?;
    for line in row.own.lines() {
        put_file(alloc, row, line, &mut files)?;
    }
    for line in row.common.lines() {
        put_file(alloc, row, line, &mut files)?;
    }
    let failing = List::of(row.numbers(alloc, "failing-fetches")?);
    Ok(MemoryShelf::new(alloc, List::of(files), failing))
}

/// The input in pieces. At most 0 bytes are taken as 1.
fn source_of(
    alloc: Global,
    row: &Row,
    input: &[u8],
    setting: Setting,
) -> Result<MemorySource, Trouble> {
    let mut failing = row.numbers(alloc, "failing-reads")?;
    if let Some(read) = setting.read {
        failing.push(read)?;
    }
    let input = bytes_from(alloc, input)?;
    Ok(MemorySource::new(input, setting.most.max(1), List::of(failing)))
}

/// Runs a row on an input.
pub fn run_row(alloc: Global, row: &Row, input: &[u8], setting: Setting) -> Result<Made, Trouble> {
    let words = words_of(alloc, row)?;
    let mut source = source_of(alloc, row, input, setting)?;
    let mut shelf = shelf_of(alloc, row)?;
    let writes = List::of(row.numbers(alloc, "failing-writes")?);
    let reports = List::of(row.numbers(alloc, "failing-report-writes")?);
    let mut out = MemorySink::new(alloc, setting.room, writes)?;
    let mut report = MemorySink::new(alloc, setting.room, reports)?;
    let status = run(
        alloc,
        words.as_slice(),
        &mut source,
        &mut shelf,
        &mut out,
        &mut report,
    );
    Ok(Made {
        status,
        out: bytes_from(alloc, out.bytes())?,
        report: bytes_from(alloc, report.bytes())?,
    })
}
