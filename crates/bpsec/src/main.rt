//! The program `bpsec`: standard input, the current folder, standard output and standard error round `run`.
#![tactic(auto)]

ghost use Rattle.std.specs.Prelude.{◌≡◌};
ghost use Rattle.std.specs.Process.{exit_status};
ghost use Rattle.bp_outside.specs.Outside.{Appended, Rose};
ghost use Rattle.bpsec_answer.specs.Lines.{memory_fault};
ghost use Rattle.bpsec_answer.specs.Statuses.{code_of};
ghost use Rattle.bpsec_answer.specs.declared.status.Status.TheVariants.{NoMemory, WriteFault};
ghost use Rattle.bpsec_answer.specs.declared.status.Writing.TheVariants.{Report};

use bp_outside::{FolderShelf, InputSource, OutputSink, Sink, write_all};
use bpsec_command::{Hindrance, Status, Writing, run};
use std::process::ExitCode;
use std::rt::Env;
use std::{env, io};

/// The words after the program's name.
fn words_of(rt: &(impl Env + AllocGlobal)) -> io::Result<Vec<String>> {
    let words: Vec<String> = env::args(rt)?.skip(1).collect(rt.alloc())?;
    Ok(words)
}

/// How the program ends where no memory was left for its words: the report gets its line.
fn end_without_words<R: Sink>(report: &mut R) -> Status
    ensures written { result ≡ NoMemory
        → Appended (R.written report.old) memory_fault.report (R.written report.new) }
    ensures fault { (result ≡ NoMemory → ⊥)
        → (result ≡ WriteFault Report) × Rose (R.faults report.old) (R.faults report.new) }
{
    match write_all(report, Hindrance::Memory.line().as_bytes()) {
        Ok(()) => Status::NoMemory,
        Err(_) => Status::WriteFault(Writing::Report),
    }
}

/// The process ends with the status's number.
fn exit_of(status: Status) -> ExitCode
    ensures { exit_status result ≡ code_of status }
{
    ExitCode::from(status.code())
}

fn main(rt: HostRuntime) -> ExitCode {
    let mut input = InputSource::new(rt.stdin());
    let mut out = OutputSink::new(rt.stdout());
    let mut report = OutputSink::new(rt.stderr());
    let words = match words_of(&rt) {
        Ok(words) => words,
        Err(error) if error.kind() == io::ErrorKind::OutOfMemory => {
            return exit_of(end_without_words(&mut report));
        }
        // A word that isn't UTF-8 is no word of the grammar.
        Err(_) => Vec::new(rt.alloc()),
    };
    let alloc = rt.alloc();
    let mut shelf = FolderShelf::new(alloc, rt);
    let status = run(
        alloc,
        words.as_slice(),
        &mut input,
        &mut shelf,
        &mut out,
        &mut report,
    );
    exit_of(status)
}
