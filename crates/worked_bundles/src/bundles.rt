//! Calls of `bp_bundle` and `bpsec_explain`.

use crate::blocks::{block_of, primary_of};
use bp_bundle::{Bundle, Bundles, InputFault, read_one};
use bp_outside::SteadySource;
use bpsec_explain::explain;
use cbor_profile::{Bytes, List, SpellError};
use std::alloc::Global;
use worked_tables::{Fields, Told, Trouble, answer, lines, spell_error, text};
use worked_values::{bundle_of, bundle_text, read};

pub fn told(alloc: Global, call: &str, row: &mut Fields) -> Told {
    match call {
        "bundle" => answer(bundle(alloc, row)),
        "prefixes" => answer(prefixes(alloc, row)),
        "parts" => answer(parts(alloc, row)),
        "make" => answer(made(alloc, row)),
        "in-turn" => answer(in_turn(alloc, row)),
        "one" => answer(one(alloc, row)),
        "explain" => answer(explained(alloc, row)),
        _ => Ok(None),
    }
}

/// The size that a bundle tells.
pub fn size_of(bundle: &Bundle) -> u64 {
    bundle.size()
}

/// How many blocks it has behind its primary block.
pub fn count_of(bundle: &Bundle) -> usize {
    bundle.blocks().len()
}

/// The index of its block with this number.
fn place_of(bundle: &Bundle, number: u64) -> Option<usize> {
    bundle.index_of(number)
}

/// What these bytes are, read in pieces of this many: the bundle written again is them, or the first fault.
fn spelled(alloc: Global, bytes: &[u8], size: usize) -> Result<String, Trouble> {
    match read(alloc, bytes, size) {
        Ok(bundle) => {
            let mut out = Bytes::new(alloc);
            bundle.encode(&mut out)?;
            if out.as_slice() != bytes {
                return text(alloc, "written otherwise");
            }
            let size = size_of(&bundle);
            let blocks = count_of(&bundle);
            Ok(format!(in alloc; "bundle bytes={size} blocks={blocks}")?)
        }
        Err(error) => spell_error(alloc, error),
    }
}

/// The same, if it is so in pieces of one byte, of seven, and whole.
fn spelled_in_pieces(alloc: Global, bytes: &[u8]) -> Result<String, Trouble> {
    let whole = spelled(alloc, bytes, 100_000)?;
    let sevens = spelled(alloc, bytes, 7)?;
    let single = spelled(alloc, bytes, 1)?;
    if sevens.as_str() != whole.as_str() || single.as_str() != whole.as_str() {
        return text(alloc, "pieces change the answer");
    }
    Ok(whole)
}

/// `bundle BYTES`: its size and its blocks where it is written again as it was read; or the first fault.
fn bundle(alloc: Global, row: &mut Fields) -> Result<String, Trouble> {
    let bytes = row.bytes(alloc)?;
    spelled_in_pieces(alloc, &bytes)
}

/// `prefixes BYTES`: whether each proper front of the bytes is cut off at its end, and nowhere else at fault.
fn prefixes(alloc: Global, row: &mut Fields) -> Result<String, Trouble> {
    let bytes = row.bytes(alloc)?;
    for length in 0..bytes.len() {
        let answer = spelled_in_pieces(alloc, &bytes[..length])?;
        let wanted = format!(in alloc; "fault {length} Truncated")?;
        if answer.as_str() != wanted.as_str() {
            return Ok(format!(in alloc; "the front of {length} bytes is not")?);
        }
    }
    text(alloc, "each is cut off at its end")
}

/// `parts BUNDLE NUMBER`: the size of a copy, the index of the block with this number, and the lifetime.
fn parts(alloc: Global, row: &mut Fields) -> Result<String, Trouble> {
    let bundle = bundle_of(alloc, row)?.copy(alloc)?;
    let size = size_of(&bundle);
    let index = place_of(&bundle, row.number()?);
    let lifetime = bundle.primary().lifetime;
    Ok(format!(in alloc; "{size} {index:?} {lifetime}")?)
}

/// `make PRIMARY BLOCKS`: the bundle of a primary block and of blocks, taken apart and made again, or why it isn't one.
fn made(alloc: Global, row: &mut Fields) -> Result<String, Trouble> {
    let primary = primary_of(alloc, row)?;
    let mut blocks = Vec::new(alloc);
    for _ in 0..100 {
        if row.is_over() {
            break;
        }
        blocks.push(block_of(alloc, row)?)?;
    }
    match Bundle::of(primary, List::of(blocks)) {
        Ok(bundle) => made_again(alloc, bundle),
        Err(fault) => Ok(format!(in alloc; "{fault:?}")?),
    }
}

/// The bundle that the parts of a bundle make.
fn made_again(alloc: Global, bundle: Bundle) -> Result<String, Trouble> {
    let (primary, blocks) = bundle.into_parts();
    match Bundle::of(primary, blocks) {
        Ok(bundle) => bundle_text(alloc, &bundle),
        Err(_) => text(alloc, "its parts make no bundle"),
    }
}

fn input_fault(alloc: Global, fault: InputFault) -> Result<String, Trouble> {
    match fault {
        InputFault::Failed => text(alloc, "failed"),
        InputFault::NoMemory => Err(Trouble::NoMemory),
        InputFault::Fault(fault) => spell_error(alloc, SpellError::Fault(fault)),
    }
}

/// The bundles that these bytes hold, back to back, at most so many bytes a read: how many, and the fault that ends them. A
/// fault that was met is answered again.
fn counted(alloc: Global, bytes: &[u8], most: usize) -> Result<String, Trouble> {
    let mut copy = Bytes::new(alloc);
    copy.extend(bytes)?;
    let mut source = SteadySource::new(copy, most.max(1));
    let mut bundles = Bundles::new(alloc);
    for count in 0..4 {
        if bundles.taken() > 1 << 30 {
            break;
        }
        match bundles.next(&mut source) {
            Ok(Some(_bundle)) => {}
            Ok(None) => return Ok(format!(in alloc; "{count} the end")?),
            Err(fault) => {
                if bundles.taken() > 1 << 30 {
                    break;
                }
                if !matches!(bundles.next(&mut source), Err(again) if again == fault) {
                    return text(alloc, "a fault isn't answered again");
                }
                let fault = input_fault(alloc, fault)?;
                let fault = fault.as_str();
                return Ok(format!(in alloc; "{count} {fault}")?);
            }
        }
    }
    text(alloc, "more")
}

/// `in-turn BYTES`: how many bundles they hold back to back, and what ends them, read one byte, seven and all at a time.
fn in_turn(alloc: Global, row: &mut Fields) -> Result<String, Trouble> {
    let bytes = row.bytes(alloc)?;
    let whole = counted(alloc, &bytes, 100_000)?;
    let sevens = counted(alloc, &bytes, 7)?;
    let single = counted(alloc, &bytes, 1)?;
    if sevens.as_str() != whole.as_str() || single.as_str() != whole.as_str() {
        return text(alloc, "reads change the answer");
    }
    Ok(whole)
}

/// `one BYTES`: the size of the one bundle that an input of them holds, or what stands in its way.
fn one(alloc: Global, row: &mut Fields) -> Result<String, Trouble> {
    let bytes = row.bytes(alloc)?;
    let mut source = SteadySource::new(Bytes::of(bytes), 7);
    match read_one(alloc, &mut source) {
        Ok(bundle) => {
            let size = size_of(&bundle);
            Ok(format!(in alloc; "bundle bytes={size}")?)
        }
        Err(fault) => input_fault(alloc, fault),
    }
}

/// `explain BUNDLE`: its explanation, with strokes in place of the ends of lines.
fn explained(alloc: Global, row: &mut Fields) -> Result<String, Trouble> {
    let bundle = bundle_of(alloc, row)?;
    let mut out = Bytes::new(alloc);
    explain(alloc, &bundle, &mut out)?;
    lines(alloc, out.as_slice())
}
