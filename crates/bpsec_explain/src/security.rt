//! The lines of security blocks.

ghost use Rattle.std.specs.Prelude.{◌≡◌, ◌++◌, codes, OnOk};
ghost use Rattle.std.specs.List.{flat_map, zip};
ghost use Rattle.bpsec_asb.specs.Reading.{read_body};
ghost use Rattle.bpsec_explain.specs.Texts.{service_name};
ghost use Rattle.bpsec_explain.specs.Covers.{covers, parameters_of};
ghost use Rattle.bpsec_explain.specs.Lines.{pair_line, covers_item, op_line, op_lines, asb_line, asb_lines, security_lines};

use crate::covers::covers;
use crate::text::{put_fault, put_hex, put_number, put_signed};
use bp_blocks::Block;
use bp_bundle::Bundle;
use bpsec_asb::{Asb, Pair, Service};
use cbor_profile::{Bytes, List, NoMemory, SpellError};
use std::alloc::Global;

#[tactic(auto, unfolding(crate::specs::Lines::pair_line))]
fn put_pair(alloc: Global, name: &str, pair: &Pair, out: &mut Bytes) -> Result<(), NoMemory>
    ensures { OnOk result (out.new ≡ out.old ++ pair_line name.now pair.now) }
{
    put_number(alloc, name, pair.id, out)?;
    out.extend(b" value=")?;
    put_hex(alloc, pair.value.as_slice(), out)?;
    out.extend(b"\n")
}

fn put_pairs(alloc: Global, name: &str, pairs: &[Pair], out: &mut Bytes) -> Result<(), NoMemory>
    ensures { OnOk result (out.new ≡ out.old ++ flat_map (pair_line name.now) pairs.now) }
{
    for pair in pairs {
        put_pair(alloc, name, pair, out)?;
    }
    Ok(())
}

fn service_name(service: Service) -> &'static str
    ensures { result.now ≡ service_name service }
{
    match service {
        Service::Bib => "bib",
        Service::Bcb => "bcb",
    }
}

fn put_covers(alloc: Global, told: &Option<(u64, Bytes)>, out: &mut Bytes) -> Result<(), NoMemory>
    ensures { OnOk result (out.new ≡ out.old ++ covers_item told.now) }
{
    match told {
        Some((flags, bytes)) => {
            put_number(alloc, " scope=", *flags, out)?;
            out.extend(b" covers=")?;
            put_hex(alloc, bytes.as_slice(), out)
        }
        None => out.extend(b" scope=- covers=-"),
    }
}

/// The block of the operations that are told.
#[derive(Clone, Copy)]
pub(crate) struct Source<'a> {
    pub(crate) bundle: &'a Bundle,
    pub(crate) service: Service,
    pub(crate) block: &'a Block,
}

/// The line of an operation.
#[tactic(auto, unfolding(crate::specs::Lines::op_line))]
fn put_op(
    alloc: Global,
    of: Source,
    asb: &Asb,
    target: u64,
    out: &mut Bytes,
) -> Result<(), NoMemory>
    ensures { OnOk result (out.new ≡ out.old
        ++ op_line of.entry.bundle.now of.entry.service of.entry.block.now asb.now target) }
{
    let told = covers(alloc, of.bundle, of.service, of.block, asb, target)?;
    out.extend(b"op ")?;
    out.extend(service_name(of.service).as_bytes())?;
    put_number(alloc, " target=", target, out)?;
    put_covers(alloc, &told, out)?;
    out.extend(b"\n")
}

/// The lines of the operations on these targets, each with its results.
fn put_ops(
    alloc: Global,
    of: Source,
    asb: &Asb,
    targets: &[u64],
    results: &[List<Pair>],
    out: &mut Bytes,
) -> Result<(), NoMemory>
    ensures { OnOk result (out.new
        ≡ out.old ++ flat_map (op_lines of.entry.bundle.now of.entry.service of.entry.block.now
        asb.now) (zip targets.now results.now)) }
{
    let [target, targets @ ..] = targets else {
        return Ok(());
    };
    let [found, results @ ..] = results else {
        return Ok(());
    };
    put_op(alloc, of, asb, *target, out)?;
    put_pairs(alloc, "result id=", found.items(), out)?;
    put_ops(alloc, of, asb, targets, results, out)
}

#[tactic(auto, unfolding(crate::specs::Lines::asb_line))]
fn put_asb_line(alloc: Global, asb: &Asb, out: &mut Bytes) -> Result<(), NoMemory>
    ensures { OnOk result (out.new ≡ out.old ++ asb_line asb.now) }
{
    put_signed(alloc, "asb context=", asb.context, out)?;
    put_number(alloc, " flags=", asb.flags, out)?;
    out.extend(b" source=")?;
    asb.source.put_text_form(out)?;
    out.extend(b"\n")
}

fn put_parameters(
    alloc: Global,
    parameters: &Option<List<Pair>>,
    out: &mut Bytes,
) -> Result<(), NoMemory>
    ensures { OnOk result (out.new ≡ out.old
        ++ flat_map (pair_line (codes "parameter id=")) (parameters_of parameters.now)) }
{
    match parameters {
        Some(parameters) => put_pairs(alloc, "parameter id=", parameters.items(), out),
        None => Ok(()),
    }
}

#[tactic(auto, unfolding(crate::specs::Lines::asb_lines))]
fn put_asb(alloc: Global, of: Source, asb: &Asb, out: &mut Bytes) -> Result<(), NoMemory>
    ensures { OnOk result (out.new ≡ out.old
        ++ asb_lines of.entry.bundle.now of.entry.service of.entry.block.now asb.now) }
{
    put_asb_line(alloc, asb, out)?;
    put_parameters(alloc, &asb.parameters, out)?;
    put_ops(
        alloc,
        of,
        asb,
        asb.targets.items(),
        asb.results.items(),
        out,
    )
}

/// The lines of a security block.
pub(crate) fn put_security(alloc: Global, of: Source, out: &mut Bytes) -> Result<(), NoMemory>
    ensures { OnOk result (out.new
        ≡ out.old ++ security_lines of.entry.bundle.now of.entry.service of.entry.block.now
        (read_body of.entry.block.now.body)) }
{
    match Asb::read(alloc, of.block.body.as_slice()) {
        Ok(asb) => put_asb(alloc, of, &asb, out),
        Err(SpellError::Fault(fault)) => put_fault(alloc, fault, out),
        Err(SpellError::NoMemory) => Err(NoMemory::again()),
    }
}
