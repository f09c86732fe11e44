//! What the program says of itself.

ghost use Rattle.std.specs.Prelude.{◌≡◌, ◌++◌, map, IfOk, OnOk};
ghost use Rattle.std.specs.List.{flat_map};
ghost use Rattle.bpsec_answer.specs.Lines.{line};
ghost use Rattle.bpsec_answer.specs.Riders.{NoFault, NoOutput};
ghost use Rattle.bpsec_command.specs.Said.{help, said, version};

use bpsec_answer::{Answer, Status};
use cbor_profile::{Bytes, NoMemory};
use std::alloc::Global;

/// Each line of the grammar, and what it is for.
const HELP: [&str; 30] = [
    "bpsec: bundle protocol security (RFC 9172, RFC 9173) over BPv7 bundles (RFC 9171)",
    "",
    "bpsec check < BUNDLE",
    "    whether the input is a bundle",
    "bpsec explain < BUNDLE",
    "    the bundle in lines",
    "bpsec build --text FILE > BUNDLE",
    "    the bundle of a text",
    "bpsec upgrade --policy FILE > FILE",
    "    an old policy as a new one",
    "bpsec secure --plan FILE --keys FILE < BUNDLE > BUNDLE",
    "    sign and encrypt its blocks by a plan",
    "bpsec fragment --size N < BUNDLE > BUNDLES",
    "    cut it, N bytes of payload each",
    "bpsec reassemble < BUNDLES > BUNDLE",
    "    join fragments",
    "bpsec node --policy FILE --keys FILE --order N < BUNDLE > BUNDLE",
    "    what a node makes of it",
    "bpsec status --policy FILE --keys FILE --order N --time N --sequence N < BUNDLE > BUNDLE",
    "    the status report of that",
    "bpsec audit --policy FILE --keys FILE",
    "    what a policy does that its owner may not have meant",
    "bpsec audit --plan FILE --keys FILE",
    "    what a plan does so",
    "bpsec --help",
    "    this text",
    "bpsec --version",
    "    the version",
    "",
    "Standard input and output hold bundles, standard error the report; the exit status tells how it ended.",
];

/// The name and the version.
const VERSION: [&str; 1] = ["bpsec 0.1.0"];

/// What `--help` says.
#[tactic(auto, unfolding(crate::specs::Said::help))]
pub(crate) fn help() -> [&'static str; 30]
    ensures { map (λ text. text.now) result ≡ help }
{
    HELP
}

/// What `--version` says.
#[tactic(auto, unfolding(crate::specs::Said::version))]
pub(crate) fn version() -> [&'static str; 1]
    ensures { map (λ text. text.now) result ≡ version }
{
    VERSION
}

/// Appends a line.
fn put_line(text: &str, out: &mut Bytes) -> Result<(), NoMemory>
    ensures { OnOk result (out.new ≡ out.old ++ line text.now) }
{
    out.extend(text.as_bytes())?;
    out.extend(b"\n")
}

/// Appends lines.
fn put_lines(lines: &[&str], out: &mut Bytes) -> Result<(), NoMemory>
    ensures { OnOk result (out.new ≡ out.old ++ flat_map line (map (λ text. text.now) lines.now)) }
{
    for text in lines {
        put_line(text, out)?;
    }
    Ok(())
}

/// The answer that is these lines.
pub(crate) fn said(alloc: Global, lines: &[&str]) -> Result<Answer, NoMemory>
    ensures is { IfOk result (λ answer. answer ≡ said (map (λ text. text.now) lines.now)) }
    ensures no_fault { NoFault result }
    ensures no_output { NoOutput result }
{
    let mut out = Bytes::new(alloc);
    put_lines(lines, &mut out)?;
    Ok(Answer {
        status: Status::Done,
        out,
        report: Bytes::new(alloc),
    })
}
