//! Tables of single calls of `bpsec_audit`.
//! A line a table tells how many rows it has, and how many of them differ.
#![tactic(auto)]

mod audits;

use bp_outside::{FolderShelf, OutputSink};
use std::alloc::Global;
use std::process::ExitCode;
use worked_tables::{Calls, Ended, Fields, Tables, Told, Trouble, names_of, run_calls, run_each};

/// The calls of this program.
struct Own;

impl Calls for Own {
    fn told(alloc: Global, call: &str, row: &mut Fields) -> Told {
        audits::told(alloc, call, row)
    }
}

impl Tables for Own {
    fn run(alloc: Global, name: &str, table: &str) -> Result<Ended, Trouble> {
        run_calls::<Own>(alloc, name, table)
    }
}

fn main(rt: HostRuntime) -> ExitCode {
    let mut out = OutputSink::new(rt.stdout());
    let Ok(names) = names_of(&rt) else {
        return ExitCode::from(2);
    };
    let alloc = rt.alloc();
    let mut shelf = FolderShelf::new(alloc, rt);
    let same = run_each::<Own, _, _>(alloc, &mut shelf, names.as_slice(), &mut out);
    ExitCode::from(if same { 0 } else { 1 })
}
