//! Tables of single calls: each row names a call, gives its arguments and says what it answers.

use crate::{Ended, Fields, Trouble, named};
use std::alloc::Global;

/// What a call answers, or nothing where a program doesn't have it.
pub type Told = Result<Option<String>, Trouble>;

/// The calls of a program.
pub trait Calls {
    /// What the call of a name answers, with the fields of its row.
    fn told(alloc: Global, call: &str, row: &mut Fields) -> Told;
}

/// What a call answers, as a program tells it that has the call.
pub fn answer(text: Result<String, Trouble>) -> Told {
    match text {
        Ok(text) => Ok(Some(text)),
        Err(trouble) => Err(trouble),
    }
}

/// What a row comes to, as a text.
fn answered<C: Calls>(alloc: Global, table: &str, fields: &str) -> Result<String, Trouble> {
    let mut row = Fields::new(table, fields);
    let call = match row.word() {
        Ok(call) => call,
        Err(_) => return Ok(String::from_str(alloc, "no call")?),
    };
    match C::told(alloc, call, &mut row) {
        Ok(Some(text)) => {
            if row.is_over() {
                return Ok(text);
            }
            Ok(format!(in alloc; "{text}, with fields left")?)
        }
        Ok(None) => Ok(format!(in alloc; "no call {call}")?),
        Err(Trouble::NoMemory) => Err(Trouble::NoMemory),
        Err(Trouble::Row(lacking)) => Ok(format!(in alloc; "no call: {lacking}")?),
    }
}

/// What differs in a row: nothing, or a line of what it calls and a line of what came.
fn difference<C: Calls>(alloc: Global, table: &str, line: &str) -> Result<Option<String>, Trouble> {
    let Some((call, wanted)) = line.split_once(" = ") else {
        return Ok(Some(format!(in alloc; "no answer: {line}\n")?));
    };
    let wanted = match wanted.strip_prefix("@") {
        Some(name) => named(table, name).unwrap_or(wanted),
        None => wanted,
    };
    let came = answered::<C>(alloc, table, call)?;
    let came = came.as_str();
    if came == wanted {
        return Ok(None);
    }
    Ok(Some(format!(in alloc; "differs: {line}\n   came: {came}\n")?))
}

/// Whether a line is a row: neither empty, nor a remark, nor what a name stands for.
fn is_row(line: &str) -> bool {
    !line.is_empty() && !line.starts_with("#") && !line.starts_with("let ")
}

/// Runs the rows of a table of single calls.
pub fn run_calls<C: Calls>(alloc: Global, name: &str, table: &str) -> Result<Ended, Trouble> {
    let mut lines = String::new(alloc);
    let mut rows: u64 = 0;
    let mut differing: u64 = 0;
    for line in table.lines() {
        if is_row(line) {
            rows = rows.saturating_add(1);
            if let Some(text) = difference::<C>(alloc, table, line)? {
                differing = differing.saturating_add(1);
                lines.push_str(text.as_str())?;
            }
        }
    }
    let last = format!(in alloc; "{name}: {rows} rows, {differing} differ\n")?;
    lines.push_str(last.as_str())?;
    Ok(Ended { lines, differing })
}
