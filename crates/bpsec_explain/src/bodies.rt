//! The lines of the bodies of extension blocks.

ghost use Rattle.std.specs.Prelude.{◌≡◌, ◌++◌, Ok, OnOk};
ghost use Rattle.cbor_profile.specs.Step.{Stands};
ghost use Rattle.bpsec_explain.specs.Bodies.{previous_node_line, age_line, hops_at, limits, hops_line};

use crate::text::put_number;
use bp_eid::reading::{number, pair};
use bp_eid::{Eid, Stop};
use cbor_profile::{Bytes, NoMemory, SpellError};
use std::alloc::Global;

/// The line of a previous node.
#[tactic(auto, unfolding(crate::specs::Bodies::previous_node_line))]
pub(crate) fn put_previous_node(alloc: Global, body: &[u8], out: &mut Bytes) -> Result<(), NoMemory>
    ensures { OnOk result (out.new ≡ out.old ++ previous_node_line body.now) }
{
    match Eid::read(alloc, body) {
        Ok(at) => {
            if at.len != body.len() {
                return out.extend(b"unreadable\n");
            }
            out.extend(b"previous-node ")?;
            at.eid.put_text_form(out)?;
            out.extend(b"\n")
        }
        Err(SpellError::Fault(_)) => out.extend(b"unreadable\n"),
        Err(SpellError::NoMemory) => Err(NoMemory::again()),
    }
}

/// The line of an age.
#[tactic(auto, unfolding(crate::specs::Bodies::age_line))]
pub(crate) fn put_age(alloc: Global, body: &[u8], out: &mut Bytes) -> Result<(), NoMemory>
    ensures { OnOk result (out.new ≡ out.old ++ age_line body.now) }
{
    match number(body) {
        Ok((age, [])) => {
            put_number(alloc, "age ", age, out)?;
            out.extend(b"\n")
        }
        Ok(_) => out.extend(b"unreadable\n"),
        Err(_) => out.extend(b"unreadable\n"),
    }
}

/// A limit and a count.
#[tactic(auto, unfolding(crate::specs::Bodies::hops_at))]
fn hops(bytes: &[u8]) -> Result<(u64, u64, &[u8]), Stop>
    ensures { Stands (λ x. (x.0, x.1, x.2.now)) result (hops_at bytes.now) }
{
    let rest = pair(bytes)?;
    let (limit, rest) = number(rest)?;
    let (count, rest) = number(rest)?;
    Ok((limit, count, rest))
}

fn put_limits(alloc: Global, limit: u64, count: u64, out: &mut Bytes) -> Result<(), NoMemory>
    ensures { OnOk result (out.new ≡ out.old ++ limits limit count) }
{
    put_number(alloc, "hops limit=", limit, out)?;
    put_number(alloc, " count=", count, out)?;
    out.extend(b"\n")
}

/// The line of a hop count.
#[tactic(auto, unfolding(crate::specs::Bodies::hops_line))]
pub(crate) fn put_hops(alloc: Global, body: &[u8], out: &mut Bytes) -> Result<(), NoMemory>
    ensures { OnOk result (out.new ≡ out.old ++ hops_line body.now) }
{
    match hops(body) {
        Ok((limit, count, [])) => {
            if limit < 1 || 255 < limit {
                return out.extend(b"unreadable\n");
            }
            put_limits(alloc, limit, count, out)
        }
        Ok(_) => out.extend(b"unreadable\n"),
        Err(_) => out.extend(b"unreadable\n"),
    }
}
