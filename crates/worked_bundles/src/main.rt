//! Tables of single calls of the crates of spellings, ids, blocks, bundles and fragments.
//! A line a table tells how many rows it has, and how many of them differ.
#![tactic(auto)]

mod blocks;
mod bundles;
mod checks;
mod edits;
mod fragments;
mod heads;
mod ids;

use bp_outside::{FolderShelf, OutputSink};
use std::alloc::Global;
use std::process::ExitCode;
use worked_tables::{Calls, Ended, Fields, Tables, Told, Trouble, names_of, run_calls, run_each};

fn after_bundles(alloc: Global, call: &str, row: &mut Fields) -> Told {
    match edits::told(alloc, call, row) {
        Ok(None) => fragments::told(alloc, call, row),
        told => told,
    }
}

fn after_blocks(alloc: Global, call: &str, row: &mut Fields) -> Told {
    match bundles::told(alloc, call, row) {
        Ok(None) => after_bundles(alloc, call, row),
        told => told,
    }
}

fn after_ids(alloc: Global, call: &str, row: &mut Fields) -> Told {
    match blocks::told(alloc, call, row) {
        Ok(None) => after_blocks(alloc, call, row),
        told => told,
    }
}

fn after_checks(alloc: Global, call: &str, row: &mut Fields) -> Told {
    match ids::told(alloc, call, row) {
        Ok(None) => after_ids(alloc, call, row),
        told => told,
    }
}

fn after_heads(alloc: Global, call: &str, row: &mut Fields) -> Told {
    match checks::told(alloc, call, row) {
        Ok(None) => after_checks(alloc, call, row),
        told => told,
    }
}

/// The calls of this program.
struct Own;

impl Calls for Own {
    fn told(alloc: Global, call: &str, row: &mut Fields) -> Told {
        match heads::told(alloc, call, row) {
            Ok(None) => after_heads(alloc, call, row),
            told => told,
        }
    }
}

impl Tables for Own {
    fn run(alloc: Global, name: &str, table: &str) -> Result<Ended, Trouble> {
        run_calls::<Own>(alloc, name, table)
    }
}

fn main(rt: HostRuntime) -> ExitCode {
    let mut out = OutputSink::new(rt.stdout());
    let Ok(names) = names_of(&rt) else {
        return ExitCode::from(2);
    };
    let alloc = rt.alloc();
    let mut shelf = FolderShelf::new(alloc, rt);
    let same = run_each::<Own, _, _>(alloc, &mut shelf, names.as_slice(), &mut out);
    ExitCode::from(if same { 0 } else { 1 })
}
