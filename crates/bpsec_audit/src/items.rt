//! What is told of the items of a plan.

ghost use Rattle.std.specs.Prelude.{◌≡◌, ◌++◌, [], OnOk};
ghost use Rattle.bpsec_audit.specs.Lines.{each_after};
ghost use Rattle.bpsec_audit.specs.Items.{lacks_primary, is_primary_alone, key_names_lines, integrity_lines, cipher_lines, lines_at, item_lines, is_key_named, cover_names, item_names};

use crate::line::{Finding, add_if};
use crate::rules::put_unknown;
use bpsec_plan::{Cover, Item};
use bpsec_policy::KeyRing;
use cbor_profile::{Bytes, List, NoMemory};
use std::alloc::Global;

/// Whether the scope lacks the primary block.
fn lacks_primary(cover: &Cover) -> bool
    ensures { result ≡ lacks_primary cover.now }
{
    cover.scope % 2 == 0
}

fn is_primary_alone(targets: &[u64]) -> bool
    ensures { result ≡ is_primary_alone targets.now }
{
    targets.len() == 1 && targets.iter().any(|target| *target == 0)
}

/// The lines of the keys that an item names and the ring lacks.
#[tactic(auto, unfolding(crate::specs::Items::key_names_lines))]
fn put_key_names(
    alloc: Global,
    ring: &KeyRing,
    index: &[u8],
    cover: &Cover,
    lines: &mut List<Bytes>,
) -> Result<(), NoMemory>
    ensures { OnOk result (lines.new ≡ lines.old ++ key_names_lines ring.now index.now cover.now) }
{
    let finding = Finding::UnknownKeyOfItem;
    let wrapping = cover.wrapped_with.as_ref();
    put_unknown(alloc, finding, ring, index, Some(&cover.key), lines)?;
    put_unknown(alloc, finding, ring, index, wrapping, lines)
}

#[tactic(auto, unfolding(crate::specs::Items::integrity_lines))]
fn put_integrity(
    alloc: Global,
    ring: &KeyRing,
    index: &[u8],
    cover: &Cover,
    lines: &mut List<Bytes>,
) -> Result<(), NoMemory>
    ensures { OnOk result (lines.new ≡ lines.old ++ integrity_lines ring.now index.now cover.now) }
{
    let is_unbound = lacks_primary(cover) && !is_primary_alone(cover.targets.items());
    add_if(alloc, is_unbound, Finding::UnboundItem, index, lines)?;
    put_key_names(alloc, ring, index, cover, lines)
}

#[tactic(auto, unfolding(crate::specs::Items::cipher_lines))]
fn put_cipher(
    alloc: Global,
    ring: &KeyRing,
    index: &[u8],
    cover: &Cover,
    iv: &[u8],
    lines: &mut List<Bytes>,
) -> Result<(), NoMemory>
    ensures { OnOk result (lines.new ≡ lines.old ++ cipher_lines ring.now index.now cover.now iv.now) }
{
    let is_shared = 1 < cover.targets.items().len();
    add_if(alloc, is_shared, Finding::SharedVector, index, lines)?;
    add_if(
        alloc,
        lacks_primary(cover),
        Finding::UnboundItem,
        index,
        lines,
    )?;
    add_if(alloc, iv.len() != 12, Finding::VectorLength, index, lines)?;
    put_key_names(alloc, ring, index, cover, lines)
}

/// What is told of an item with this index.
fn put_item(
    alloc: Global,
    ring: &KeyRing,
    index: &[u8],
    item: &Item,
    lines: &mut List<Bytes>,
) -> Result<(), NoMemory>
    ensures { OnOk result (lines.new ≡ lines.old ++ lines_at ring.now index.now item.now) }
{
    match item {
        Item::Bib(cover) => put_integrity(alloc, ring, index, cover, lines),
        Item::Bcb { cover, iv, .. } => put_cipher(alloc, ring, index, cover, iv.as_slice(), lines),
        Item::Split(_) => Ok(()),
    }
}

/// What is told of each item.
pub(crate) fn put_items(
    alloc: Global,
    ring: &KeyRing,
    items: &[Item],
    lines: &mut List<Bytes>,
) -> Result<(), NoMemory>
    ensures { OnOk result (lines.new
        ≡ lines.old ++ each_after (item_lines ring.now) [] items.now) }
{
    for (at, item) in items.iter().enumerate() {
        let index = format!(in alloc; "{at}")?;
        put_item(alloc, ring, index.as_bytes(), item, lines)?;
    }
    Ok(())
}

pub(crate) fn is_key_named(key: &Option<Bytes>, name: &[u8]) -> bool
    ensures { result ≡ is_key_named key.now name.now }
{
    match key {
        Some(key) => key.as_slice() == name,
        None => false,
    }
}

fn cover_names(cover: &Cover, name: &[u8]) -> bool
    ensures { result ≡ cover_names cover.now name.now }
{
    cover.key.as_slice() == name || is_key_named(&cover.wrapped_with, name)
}

/// Whether the item names the key.
pub(crate) fn item_names(name: &[u8], item: &Item) -> bool
    ensures { result ≡ item_names name.now item.now }
{
    match item {
        Item::Bib(cover) => cover_names(cover, name),
        Item::Bcb { cover, .. } => cover_names(cover, name),
        Item::Split(_) => false,
    }
}
