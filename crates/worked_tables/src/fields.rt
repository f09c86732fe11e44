//! The fields of a row.

use crate::{Trouble, bytes_of};
use std::alloc::Global;

/// The text that a line `let NAME TEXT` of a table gives a name.
pub fn named<'a>(table: &'a str, name: &str) -> Option<&'a str> {
    for line in table.lines() {
        if let Some(given) = line.strip_prefix("let ") {
            if let Some((first, text)) = given.split_once(' ') {
                if first == name {
                    return Some(text);
                }
            }
        }
    }
    None
}

/// The fields of a row, one after the other, and the table in which its names stand.
#[derive(Clone, Copy)]
pub struct Fields<'a> {
    table: &'a str,
    rest: &'a str,
}

impl<'a> Fields<'a> {
    /// The fields of a text, between single blanks.
    pub fn new(table: &'a str, rest: &'a str) -> Fields<'a> {
        Fields { table, rest }
    }

    /// Whether no field is left.
    pub fn is_over(&self) -> bool {
        self.rest.is_empty()
    }

    /// The next field as it stands.
    pub fn word(&mut self) -> Result<&'a str, Trouble> {
        if self.rest.is_empty() {
            return Err(Trouble::Row("a field"));
        }
        match self.rest.split_once(' ') {
            Some((word, rest)) => {
                self.rest = rest;
                Ok(word)
            }
            None => {
                let word = self.rest;
                self.rest = "";
                Ok(word)
            }
        }
    }

    /// The next field as a text: itself, or what `@NAME` stands for.
    pub fn text(&mut self) -> Result<&'a str, Trouble> {
        let word = self.word()?;
        match word.strip_prefix("@") {
            Some(name) => named(self.table, name).ok_or(Trouble::Row("a named text")),
            None => Ok(word),
        }
    }

    /// The next field as bytes.
    pub fn bytes(&mut self, alloc: Global) -> Result<Vec<u8>, Trouble> {
        let word = self.word()?;
        bytes_of(alloc, self.table, word)
    }

    /// The next field as a number.
    pub fn number(&mut self) -> Result<u64, Trouble> {
        let word = self.word()?;
        word.parse::<u64>().ok().ok_or(Trouble::Row("a number"))
    }

    /// The next field as a number that may be below zero.
    pub fn signed(&mut self) -> Result<i64, Trouble> {
        let word = self.word()?;
        word.parse::<i64>()
            .ok()
            .ok_or(Trouble::Row("a signed number"))
    }

    /// The same fields, read in the same table, of another text.
    pub fn within(&self, rest: &'a str) -> Fields<'a> {
        Fields {
            table: self.table,
            rest,
        }
    }
}
