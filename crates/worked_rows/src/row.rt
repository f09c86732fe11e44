//! A row of a table.

use std::alloc::Global;
use worked_tables::{Trouble, bytes_of, named};

/// What stands in a line behind its first word, if this is it.
fn behind<'a>(line: &'a str, word: &str) -> Option<&'a str> {
    match line.strip_prefix(word) {
        Some("") => Some(""),
        Some(rest) => rest.strip_prefix(" "),
        None => None,
    }
}

/// What stands behind a word, in the first line that it begins.
fn first_in<'a>(lines: &'a str, word: &str) -> Option<&'a str> {
    for line in lines.lines() {
        if let Some(rest) = behind(line, word) {
            return Some(rest);
        }
    }
    None
}

/// A row: its own lines, the lines that it has in common with the rows about it, and its table, in which the names stand.
#[derive(Clone, Copy)]
pub struct Row<'a> {
    pub name: &'a str,
    pub own: &'a str,
    pub common: &'a str,
    pub table: &'a str,
}

impl<'a> Row<'a> {
    /// The lines in which a word is looked for: the row's own where one of them begins so, else the common ones.
    pub fn lines_with(&self, word: &str) -> &'a str {
        match first_in(self.own, word) {
            Some(_) => self.own,
            None => self.common,
        }
    }

    /// What stands behind a word.
    pub fn field(&self, word: &str) -> Option<&'a str> {
        first_in(self.lines_with(word), word)
    }

    /// What a text stands for: itself, or what `@NAME` names.
    pub fn text(&self, text: &'a str) -> Result<&'a str, Trouble> {
        match text.strip_prefix("@") {
            Some(name) => named(self.table, name).ok_or(Trouble::Row("a named text")),
            None => Ok(text),
        }
    }

    /// The bytes that stand behind a word.
    pub fn bytes(&self, alloc: Global, word: &str) -> Result<Option<Vec<u8>>, Trouble> {
        match self.field(word) {
            Some(text) => Ok(Some(bytes_of(alloc, self.table, text)?)),
            None => Ok(None),
        }
    }

    /// The number that stands behind a word, or another where the word doesn't stand.
    pub fn number(&self, word: &str, other: usize) -> Result<usize, Trouble> {
        match self.field(word) {
            Some(text) => number_of(text),
            None => Ok(other),
        }
    }

    /// The texts behind a word, a line for each. None where the word doesn't stand.
    pub fn lines(&self, alloc: Global, word: &str) -> Result<Option<String>, Trouble> {
        let mut all = String::new(alloc);
        let mut stands = false;
        for line in self.lines_with(word).lines() {
            if let Some(text) = behind(line, word) {
                stands = true;
                all.push_str(self.text(text)?)?;
                all.push_str("\n")?;
            }
        }
        Ok(if stands { Some(all) } else { None })
    }

    /// The numbers behind a word.
    pub fn numbers(&self, alloc: Global, word: &str) -> Result<Vec<u64>, Trouble> {
        match self.field(word) {
            Some(text) => numbers_of(alloc, text),
            None => Ok(Vec::new(alloc)),
        }
    }
}

/// A decimal number.
pub fn number_of(text: &str) -> Result<usize, Trouble> {
    text.parse::<usize>().ok().ok_or(Trouble::Row("a number"))
}

/// Decimal numbers between blanks.
pub fn numbers_of(alloc: Global, text: &str) -> Result<Vec<u64>, Trouble> {
    let mut all = Vec::new(alloc);
    for word in text.split(' ') {
        let number = word.parse::<u64>().ok().ok_or(Trouble::Row("numbers"))?;
        all.push(number)?;
    }
    Ok(all)
}
