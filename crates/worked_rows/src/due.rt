//! What is due of a run.

use crate::row::{Row, number_of};
use crate::runs::{MOST, Made, ROOM, Setting, run_row};
use std::alloc::Global;
use worked_tables::{Trouble, bytes_of};

/// What is due of a run. An output or a report of which nothing is said may be any.
#[derive(Drop)]
pub struct Due {
    /// The number of the status.
    pub code: usize,
    pub out: Option<Vec<u8>>,
    pub report: Option<Vec<u8>>,
}

/// The number of the row's status.
fn code_of(row: &Row) -> Result<usize, Trouble> {
    let status = row.field("status").ok_or(Trouble::Row("a status"))?;
    match status.split_once(' ') {
        Some((code, _name)) => number_of(code),
        None => number_of(status),
    }
}

/// The name of the row's status, where it is given: how `Debug` writes it.
pub fn status_name<'a>(row: &Row<'a>) -> Option<&'a str> {
    match row.field("status") {
        Some(status) => match status.split_once(' ') {
            Some((_code, name)) => Some(name),
            None => None,
        },
        None => None,
    }
}

/// The output: bytes in a line `out`, or what is printed. Without either nothing is due; of `out any` all is, and `out
/// input` is the input.
fn out_of(alloc: Global, row: &Row, input: &[u8]) -> Result<Option<Vec<u8>>, Trouble> {
    match row.field("out") {
        Some("any") => Ok(None),
        Some("input") => Ok(Some(Vec::from_slice(alloc, input)?)),
        Some(text) => Ok(Some(bytes_of(alloc, row.table, text)?)),
        None => printed_of(alloc, row),
    }
}

/// The output as it is printed: lines that begin with `prints`, or a text with no end of a line behind `text`.
fn printed_of(alloc: Global, row: &Row) -> Result<Option<Vec<u8>>, Trouble> {
    if let Some(lines) = row.lines(alloc, "prints")? {
        return Ok(Some(lines.into_bytes()));
    }
    match row.field("text") {
        Some(text) => Ok(Some(Vec::from_slice(alloc, row.text(text)?.as_bytes())?)),
        None => Ok(Some(Vec::new(alloc))),
    }
}

/// The report: lines that begin with `report`, in which a stroke `#` stands for a number.
fn report_of(alloc: Global, row: &Row, number: usize) -> Result<Option<Vec<u8>>, Trouble> {
    if row.field("report") == Some("any") {
        return Ok(None);
    }
    let Some(lines) = row.lines(alloc, "report")? else {
        return Ok(Some(Vec::new(alloc)));
    };
    match lines.as_str().split_once('#') {
        Some((before, after)) => {
            let line = format!(in alloc; "{before}{number}{after}")?;
            Ok(Some(line.into_bytes()))
        }
        None => Ok(Some(lines.into_bytes())),
    }
}

/// What the row makes where nothing fails and there is room.
fn unhindered(alloc: Global, row: &Row, input: &[u8]) -> Result<Due, Trouble> {
    let steady = Setting {
        most: MOST,
        room: ROOM,
        read: None,
    };
    let made = run_row(alloc, row, input, steady)?;
    if made.status.code() as usize != code_of(row)? {
        return Err(Trouble::Row("the status of a run that nothing hinders"));
    }
    Ok(Due {
        code: code_of(row)?,
        out: Some(Vec::from_slice(alloc, made.out.as_slice())?),
        report: Some(Vec::from_slice(alloc, made.report.as_slice())?),
    })
}

/// What is due of a run on an input. The number is that of the trial.
pub fn due_of(alloc: Global, row: &Row, input: &[u8], number: usize) -> Result<Due, Trouble> {
    if row.field("as-unhindered").is_some() {
        return unhindered(alloc, row, input);
    }
    Ok(Due {
        code: code_of(row)?,
        out: out_of(alloc, row, input)?,
        report: report_of(alloc, row, number)?,
    })
}

/// The fault of reading the input.
pub fn read_fault(alloc: Global) -> Result<Due, Trouble> {
    Ok(Due {
        code: 7,
        out: Some(Vec::new(alloc)),
        report: Some(Vec::from_slice(alloc, b"fault read input\n")?),
    })
}

/// The first bytes of some.
fn front(alloc: Global, bytes: &[u8], count: usize) -> Result<Vec<u8>, Trouble> {
    let front = bytes.get(..count).ok_or(Trouble::Row("a front"))?;
    Ok(Vec::from_slice(alloc, front)?)
}

/// What is left of what is due where each sink has room for so many bytes: the output comes first, and is broken off.
pub fn within_room(alloc: Global, due: Due, room: usize) -> Result<Due, Trouble> {
    let (Some(out), Some(report)) = (due.out, due.report) else {
        return Err(Trouble::Row("an output and a report"));
    };
    if room < out.len() {
        return Ok(Due {
            code: 8,
            out: Some(front(alloc, out.as_slice(), room)?),
            report: Some(Vec::new(alloc)),
        });
    }
    if room < report.len() {
        let report = front(alloc, report.as_slice(), room)?;
        return Ok(Due {
            code: 8,
            out: Some(out),
            report: Some(report),
        });
    }
    Ok(Due {
        code: due.code,
        out: Some(out),
        report: Some(report),
    })
}

/// Whether bytes are those that are due, where some are.
fn is_due(due: &Option<Vec<u8>>, bytes: &[u8]) -> bool {
    match due {
        Some(due) => due.as_slice() == bytes,
        None => true,
    }
}

/// Whether a run made what is due.
pub fn is_as_due(due: &Due, made: &Made) -> bool {
    made.status.code() as usize == due.code
        && is_due(&due.out, made.out.as_slice())
        && is_due(&due.report, made.report.as_slice())
}
