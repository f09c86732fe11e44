//! The tables that a program is told to run.

use crate::Trouble;
use bp_outside::{Shelf, Sink, write_all};
use cbor_profile::Bytes;
use std::alloc::Global;
use std::rt::Env;
use std::{env, io};

/// The most bytes that a table has.
const TABLE_LIMIT: u64 = 8_388_608;

/// What a table comes to.
#[derive(Drop)]
pub struct Ended {
    /// Its line, behind those of each row that differs.
    pub lines: String,
    pub differing: u64,
}

/// A program that runs tables.
pub trait Tables {
    /// Runs the rows of a table of this name.
    fn run(alloc: Global, name: &str, table: &str) -> Result<Ended, Trouble>;
}

/// The names of the tables: the words after the program's name.
pub fn names_of(rt: &(impl Env + AllocGlobal)) -> io::Result<Vec<String>> {
    let names: Vec<String> = env::args(rt)?.skip(1).collect(rt.alloc())?;
    Ok(names)
}

/// Runs the table of a name, and writes what comes of it. Whether no row differs.
pub fn run_named<T: Tables, K: Shelf, W: Sink>(
    alloc: Global,
    shelf: &mut K,
    name: &str,
    out: &mut W,
) -> bool {
    let mut bytes = Bytes::new(alloc);
    if shelf.fetch(name, TABLE_LIMIT, &mut bytes).is_err() {
        let _written = write_all(out, b"a table can't be read\n");
        return false;
    }
    let Ok(text) = std::str::from_utf8(bytes.as_slice()) else {
        let _written = write_all(out, b"a table is no text\n");
        return false;
    };
    match T::run(alloc, name, text) {
        Ok(ended) => {
            let written = write_all(out, ended.lines.as_bytes()).is_ok();
            written && ended.differing == 0
        }
        Err(_) => {
            let _written = write_all(out, b"out of memory\n");
            false
        }
    }
}

/// Runs the tables of these names, one after the other. Whether no row differs.
pub fn run_each<T: Tables, K: Shelf, W: Sink>(
    alloc: Global,
    shelf: &mut K,
    names: &[String],
    out: &mut W,
) -> bool {
    let mut same = true;
    for name in names {
        if !run_named::<T, K, W>(alloc, shelf, name.as_str(), out) {
            same = false;
        }
    }
    same
}
