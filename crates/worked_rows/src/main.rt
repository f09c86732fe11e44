//! Tables of whole runs: each row gives the words, files and input of a run and says its status, output and report. A
//! line a table tells how many rows it has, and how many of them differ.
#![tactic(auto)]

mod due;
mod row;
mod runs;
mod table;
mod told;
mod trials;

use bp_outside::{FolderShelf, OutputSink};
use std::alloc::Global;
use std::process::ExitCode;
use worked_tables::{Ended, Tables, Trouble, names_of, run_each};

/// The tables of this program.
struct Own;

impl Tables for Own {
    fn run(alloc: Global, name: &str, table: &str) -> Result<Ended, Trouble> {
        table::run(alloc, name, table)
    }
}

fn main(rt: HostRuntime) -> ExitCode {
    let mut out = OutputSink::new(rt.stdout());
    let Ok(names) = names_of(&rt) else {
        return ExitCode::from(2);
    };
    let alloc = rt.alloc();
    let mut shelf = FolderShelf::new(alloc, rt);
    let same = run_each::<Own, _, _>(alloc, &mut shelf, names.as_slice(), &mut out);
    ExitCode::from(if same { 0 } else { 1 })
}
