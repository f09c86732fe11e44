//! Runs a table, row by row.

use crate::row::Row;
use crate::trials::{Tried, try_row};
use std::alloc::Global;
use worked_tables::{Ended, Trouble, bytes_of};

/// The words that begin the lines of a row, and of the lines that rows have in common.
const WORDS: [&str; 28] = [
    "after",
    "as-unhindered",
    "before",
    "body",
    "ends",
    "failing-fetches",
    "failing-reads",
    "failing-report-writes",
    "failing-writes",
    "file",
    "filled",
    "hex",
    "input",
    "keep",
    "new",
    "of",
    "old",
    "out",
    "pieces",
    "prints",
    "report",
    "room",
    "size",
    "starts",
    "status",
    "text",
    "vary",
    "words",
];

/// What lines are of.
#[derive(Clone, Copy)]
enum Lines {
    Rows,
    /// Names and remarks.
    Notes,
}

fn is_word(word: &str) -> bool {
    for known in &WORDS {
        if *known == word {
            return true;
        }
    }
    false
}

/// Whether a line may stand there.
fn may_stand(line: &str, lines: Lines) -> bool {
    match lines {
        Lines::Notes => line.is_empty() || line.starts_with("#") || line.starts_with("let "),
        Lines::Rows => match line.split_once(' ') {
            Some((word, _)) => is_word(word),
            None => line.is_empty() || is_word(line),
        },
    }
}

/// Whether each line of a text may stand there: a word that no row has would say nothing.
fn may_all_stand(text: &str, lines: Lines) -> bool {
    for line in text.lines() {
        if !may_stand(line, lines) {
            return false;
        }
    }
    true
}

/// What stands while a table runs: the lines that rows have in common, what was counted and told, what the row before
/// wrote, and what rows with a line `keep` wrote.
#[derive(Drop)]
struct Running<'a> {
    table: &'a str,
    common: &'a str,
    rows: u64,
    differing: u64,
    lines: String,
    last: Vec<u8>,
    kept: Vec<u8>,
}

/// The input of a row: bytes, between which `@last` is what the row before wrote, and `@kept` what was kept.
fn input_of(alloc: Global, row: &Row, last: &[u8], kept: &[u8]) -> Result<Vec<u8>, Trouble> {
    let mut input = Vec::new(alloc);
    let Some(text) = row.field("input") else {
        return Ok(input);
    };
    for part in text.split('+') {
        match part {
            "@last" => input.extend_from_slice(last)?,
            "@kept" => input.extend_from_slice(kept)?,
            _ => input.extend_from_slice(bytes_of(alloc, row.table, part)?.as_slice())?,
        }
    }
    Ok(input)
}

impl<'a> Running<'a> {
    fn new(alloc: Global, table: &'a str) -> Running<'a> {
        Running {
            table,
            common: "",
            rows: 0,
            differing: 0,
            lines: String::new(alloc),
            last: Vec::new(alloc),
            kept: Vec::new(alloc),
        }
    }

    /// Notes what a row came to.
    fn note(&mut self, tried: Tried) -> Result<(), Trouble> {
        let Tried {
            difference,
            out,
            kept,
            ..
        } = tried;
        self.kept.extend_from_slice(kept.as_slice())?;
        self.last = out;
        if let Some(difference) = difference {
            self.differing = self.differing.saturating_add(1);
            self.lines.push_str(difference.as_str())?;
        }
        Ok(())
    }

    /// Notes a row that can't be run.
    fn note_lacking(&mut self, alloc: Global, name: &str, lacking: &str) -> Result<(), Trouble> {
        self.differing = self.differing.saturating_add(1);
        let line = format!(in alloc; "no row: {name}: {lacking}\n")?;
        self.lines.push_str(line.as_str())?;
        Ok(())
    }

    /// Runs a row.
    fn run_row(&mut self, alloc: Global, name: &'a str, own: &'a str) -> Result<(), Trouble> {
        let row = Row {
            name,
            own,
            common: self.common,
            table: self.table,
        };
        self.rows = self.rows.saturating_add(1);
        if !may_all_stand(own, Lines::Rows) {
            return self.note_lacking(alloc, name, "lines that begin with the words of rows");
        }
        match tried(alloc, &row, self.last.as_slice(), self.kept.as_slice()) {
            Ok(tried) => self.note(tried),
            Err(Trouble::Row(lacking)) => self.note_lacking(alloc, name, lacking),
            Err(Trouble::NoMemory) => Err(Trouble::NoMemory),
        }
    }

    /// Takes a paragraph: common lines, a row, or names and remarks.
    fn take(&mut self, alloc: Global, paragraph: &'a str) -> Result<(), Trouble> {
        let (first, rest) = match paragraph.split_once('\n') {
            Some(parts) => parts,
            None => (paragraph, ""),
        };
        if let Some(name) = first.strip_prefix("case ") {
            return self.run_row(alloc, name, rest);
        }
        if first == "common" {
            self.common = rest;
            if !may_all_stand(rest, Lines::Rows) {
                return self.note_lacking(alloc, first, "lines that begin with the words of rows");
            }
            return Ok(());
        }
        if may_all_stand(paragraph, Lines::Notes) {
            return Ok(());
        }
        self.note_lacking(alloc, first, "a row, common lines, names or a remark")
    }
}

fn tried(alloc: Global, row: &Row, last: &[u8], kept: &[u8]) -> Result<Tried, Trouble> {
    let input = input_of(alloc, row, last, kept)?;
    try_row(alloc, row, input.as_slice())
}

/// Runs the rows of a table. An empty line stands between its paragraphs.
pub fn run(alloc: Global, name: &str, table: &str) -> Result<Ended, Trouble> {
    let mut running = Running::new(alloc, table);
    for paragraph in table.split("\n\n") {
        running.take(alloc, paragraph)?;
    }
    let rows = running.rows;
    let differing = running.differing;
    let mut lines = running.lines;
    let last = format!(in alloc; "{name}: {rows} rows, {differing} differ\n")?;
    lines.push_str(last.as_str())?;
    Ok(Ended { lines, differing })
}
