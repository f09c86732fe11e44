//! Calls of `bpsec_asb`.

use bpsec_asb::{Asb, Pair, operations};
use cbor_profile::Bytes;
use std::alloc::Global;
use worked_tables::{Fields, Told, Trouble, answer, hex, spell_error, text};
use worked_values::{bundle_of, id_text};

pub fn told(alloc: Global, call: &str, row: &mut Fields) -> Told {
    match call {
        "asb" => answer(read(alloc, row)),
        "asb-drop" => answer(dropped(alloc, row)),
        "asb-place" => answer(place(alloc, row)),
        "known" => answer(known(alloc, row)),
        _ => Ok(None),
    }
}

/// Ids and values, `ID:VALUE` with commas between, or a dash where there are none.
fn put_pairs(alloc: Global, pairs: &[Pair], out: &mut String) -> Result<(), Trouble> {
    if pairs.is_empty() {
        out.push_str("-")?;
        return Ok(());
    }
    for (place, pair) in pairs.iter().enumerate() {
        if place > 0 {
            out.push_str(",")?;
        }
        let id = pair.id;
        let value = hex(alloc, pair.value.as_slice())?;
        let value = value.as_str();
        out.push_str(format!(in alloc; "{id}:{value}")?.as_str())?;
    }
    Ok(())
}

/// A security block in words.
fn asb_text(alloc: Global, asb: &Asb) -> Result<String, Trouble> {
    let context = asb.context;
    let flags = asb.flags;
    let source = id_text(alloc, &asb.source)?;
    let source = source.as_str();
    let targets = asb.targets.items();
    let mut out = format!(in alloc;
        "targets={targets:?} context={context} flags={flags} source={source}"
    )?;
    if let Some(parameters) = &asb.parameters {
        out.push_str(" parameters=")?;
        put_pairs(alloc, parameters.items(), &mut out)?;
    }
    for results in asb.results.items() {
        out.push_str(" results=")?;
        put_pairs(alloc, results.items(), &mut out)?;
    }
    Ok(out)
}

/// `asb BODY`: the security block in words, if a copy of it is written as it was read; or the first fault.
fn read(alloc: Global, row: &mut Fields) -> Result<String, Trouble> {
    let body = row.bytes(alloc)?;
    let asb = match Asb::read(alloc, &body) {
        Ok(asb) => asb.copy(alloc)?,
        Err(error) => return spell_error(alloc, error),
    };
    let mut out = Bytes::new(alloc);
    asb.put(&mut out)?;
    if out.as_slice() != body.as_slice() {
        return text(alloc, "written otherwise");
    }
    asb_text(alloc, &asb)
}

/// The security block of the next field.
fn asb_of(alloc: Global, row: &mut Fields) -> Result<Asb, Trouble> {
    let body = row.bytes(alloc)?;
    match Asb::read(alloc, &body) {
        Ok(asb) => Ok(asb),
        Err(_) => Err(Trouble::Row("a security block")),
    }
}

/// `asb-drop BODY INDEX`: the body without the operation of that index.
fn dropped(alloc: Global, row: &mut Fields) -> Result<String, Trouble> {
    let mut asb = asb_of(alloc, row)?;
    let index = row.number()? as usize;
    let count = asb.targets.items().len();
    if count < 2 || index >= count || asb.results.items().len() != count {
        return Err(Trouble::Row("one operation of several"));
    }
    asb.drop_operation(index);
    let mut out = Bytes::new(alloc);
    asb.put(&mut out)?;
    hex(alloc, out.as_slice())
}

/// `asb-place BODY TARGET`: the index of the operation on a target.
fn place(alloc: Global, row: &mut Fields) -> Result<String, Trouble> {
    let asb = asb_of(alloc, row)?;
    let place = asb.place_of(row.number()?);
    Ok(format!(in alloc; "{place:?}")?)
}

/// `known BUNDLE`: its known operations: service, block and target of each.
fn known(alloc: Global, row: &mut Fields) -> Result<String, Trouble> {
    let bundle = bundle_of(alloc, row)?;
    let _size = bundle.size();
    let ops = operations(alloc, bundle.blocks())?;
    let mut out = String::new(alloc);
    for op in ops.items() {
        if !out.is_empty() {
            out.push_str(", ")?;
        }
        let (service, block, target) = (op.service, op.block, op.target);
        out.push_str(format!(in alloc; "{service:?} {block} {target}")?.as_str())?;
    }
    Ok(out)
}
