//! How a difference is told.

use crate::due::Due;
use crate::runs::{Made, Setting};
use std::alloc::Global;
use worked_tables::Trouble;

/// The most bytes that are told of an output or a report.
const SHOWN: usize = 512;

fn bytes_told(alloc: Global, bytes: &[u8]) -> Result<String, Trouble> {
    let shown = bytes.get(..SHOWN).unwrap_or(bytes);
    let digits = hex::encode(alloc, shown)?;
    let len = bytes.len();
    Ok(format!(in alloc; "{len} bytes {digits}")?)
}

/// A text as it is, and other bytes in hexadecimal.
fn text_told(alloc: Global, bytes: &[u8]) -> Result<String, Trouble> {
    match std::str::from_utf8(bytes) {
        Ok(text) => Ok(String::from_str(alloc, text)?),
        Err(_) => bytes_told(alloc, bytes),
    }
}

fn out_told(alloc: Global, bytes: &Option<Vec<u8>>) -> Result<String, Trouble> {
    match bytes {
        Some(bytes) => bytes_told(alloc, bytes.as_slice()),
        None => Ok(String::from_str(alloc, "any")?),
    }
}

fn report_told(alloc: Global, bytes: &Option<Vec<u8>>) -> Result<String, Trouble> {
    match bytes {
        Some(bytes) => text_told(alloc, bytes.as_slice()),
        None => Ok(String::from_str(alloc, "any")?),
    }
}

/// A row that differs, with what was due and what came.
pub fn difference_told(
    alloc: Global,
    name: &str,
    setting: Setting,
    number: usize,
    due: &Due,
    made: &Made,
) -> Result<String, Trouble> {
    let most = setting.most;
    let code = due.code;
    let out = out_told(alloc, &due.out)?;
    let report = report_told(alloc, &due.report)?;
    let wanted = format!(in alloc; "  due: status {code}, output {out}, report {report}\n")?;
    let status = made.status;
    let out = bytes_told(alloc, made.out.as_slice())?;
    let report = text_told(alloc, made.report.as_slice())?;
    let came = format!(in alloc; "  came: status {status:?}, output {out}, report {report}\n")?;
    Ok(format!(in alloc; "differs: {name} (pieces of {most}, number {number})\n{wanted}{came}")?)
}
