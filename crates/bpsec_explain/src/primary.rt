//! The line of the primary block.

ghost use Rattle.std.specs.Prelude.{◌≡◌, ◌++◌, OnOk};
ghost use Rattle.bpsec_explain.specs.Lines.{nodes, times, piece, primary_line};

use crate::text::{put_flags, put_number};
use bp_primary::{Piece, Primary};
use cbor_profile::{Bytes, NoMemory};
use std::alloc::Global;

#[tactic(auto, unfolding(crate::specs::Lines::nodes))]
fn put_nodes(primary: &Primary, out: &mut Bytes) -> Result<(), NoMemory>
    ensures { OnOk result (out.new ≡ out.old ++ nodes primary.now) }
{
    out.extend(b" to=")?;
    primary.destination.put_text_form(out)?;
    out.extend(b" from=")?;
    primary.source.put_text_form(out)?;
    out.extend(b" report=")?;
    primary.report_to.put_text_form(out)
}

#[tactic(auto, unfolding(crate::specs::Lines::times))]
fn put_times(alloc: Global, primary: &Primary, out: &mut Bytes) -> Result<(), NoMemory>
    ensures { OnOk result (out.new ≡ out.old ++ times primary.now) }
{
    put_number(alloc, " created=", primary.created, out)?;
    put_number(alloc, " sequence=", primary.sequence, out)?;
    put_number(alloc, " lifetime=", primary.lifetime, out)
}

fn put_piece(alloc: Global, fragment: Option<Piece>, out: &mut Bytes) -> Result<(), NoMemory>
    ensures { OnOk result (out.new ≡ out.old ++ piece fragment) }
{
    match fragment {
        Some(piece) => {
            put_number(alloc, " offset=", piece.offset, out)?;
            put_number(alloc, " total=", piece.total, out)
        }
        None => Ok(()),
    }
}

/// The line of the primary block.
#[tactic(auto, unfolding(crate::specs::Lines::primary_line))]
pub(crate) fn put_primary(alloc: Global, primary: &Primary, out: &mut Bytes) -> Result<(), NoMemory>
    ensures { OnOk result (out.new ≡ out.old ++ primary_line primary.now) }
{
    out.extend(b"primary")?;
    put_flags(alloc, primary.flags, out)?;
    put_number(alloc, " check=", primary.crc.number(), out)?;
    put_nodes(primary, out)?;
    put_times(alloc, primary, out)?;
    put_piece(alloc, primary.fragment, out)?;
    out.extend(b"\n")
}
