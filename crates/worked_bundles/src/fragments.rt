//! Calls of `bp_fragments`.

use bp_fragments::{AddFault, Assembly, CutFault, FinishFault, fragment};
use std::alloc::Global;
use worked_tables::{Fields, Told, Trouble, answer};
use worked_values::{bundle_of, bundle_text};

pub fn told(alloc: Global, call: &str, row: &mut Fields) -> Told {
    match call {
        "cut" => answer(cut(alloc, row)),
        "join" => answer(joined(alloc, row)),
        _ => Ok(None),
    }
}

/// `cut BUNDLE SIZE`: its fragments of so many bytes of payload, or why it isn't cut.
fn cut(alloc: Global, row: &mut Fields) -> Result<String, Trouble> {
    let bundle = bundle_of(alloc, row)?;
    let size = row.number()?;
    let fragments = match fragment(alloc, &bundle, size) {
        Ok(fragments) => fragments,
        Err(CutFault::NoMemory) => return Err(Trouble::NoMemory),
        Err(fault) => return Ok(format!(in alloc; "{fault:?}")?),
    };
    let mut out = String::new(alloc);
    for piece in fragments.items() {
        if !out.is_empty() {
            out.push_str(" ")?;
        }
        out.push_str(bundle_text(alloc, piece)?.as_str())?;
    }
    Ok(out)
}

/// `join BUNDLES`: the bundle that these fragments make, added in this order, or what stands in the way.
fn joined(alloc: Global, row: &mut Fields) -> Result<String, Trouble> {
    let mut assembly = Assembly::new(alloc);
    for _ in 0..1000 {
        if row.is_over() {
            break;
        }
        match assembly.add(bundle_of(alloc, row)?) {
            Ok(()) => {}
            Err(AddFault::NoMemory) => return Err(Trouble::NoMemory),
            Err(fault) => return Ok(format!(in alloc; "not added: {fault:?}")?),
        }
    }
    match assembly.finish() {
        Ok(bundle) => bundle_text(alloc, &bundle),
        Err((_assembly, FinishFault::NoMemory)) => Err(Trouble::NoMemory),
        Err((_assembly, fault)) => Ok(format!(in alloc; "not joined: {fault:?}")?),
    }
}
