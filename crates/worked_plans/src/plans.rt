//! Calls of `bp_build`, `bpsec_plan` and `bpsec_secure`.

use bp_build::bundle_from_json;
use bp_bundle::Bundle;
use bp_text::TextError;
use bpsec_context::laws::the_default_suite_is_rfc_9173;
use bpsec_plan::{Cover, Item, Plan, Split};
use bpsec_policy::KeyRing;
use bpsec_secure::{PlanFault, PlanReason, secure};
use cbor_profile::Bytes;
use std::alloc::Global;
use std::fmt::Debug;
use worked_readers::{ring_of, shown, text_error, text_of};
use worked_tables::{Fields, Told, Trouble, answer, hex, text};
use worked_values::{bundle_of, bundle_text, id_text, suite};

pub fn told(alloc: Global, call: &str, row: &mut Fields) -> Told {
    match call {
        "build" => answer(built(alloc, row)),
        "plan" => answer(plan(alloc, row)),
        "plan-with" => answer(plan_with(alloc, row)),
        "plan-many" => answer(plan_many(alloc, row)),
        "secure" => answer(secured(alloc, row)),
        _ => Ok(None),
    }
}

/// The bundle of a text.
fn bundle_of_text(alloc: Global, text: &str) -> Result<Bundle, TextError> {
    bundle_from_json(alloc, text.as_bytes())
}

/// `build TEXT`: the bundle of a text, or the fault of the text.
fn built(alloc: Global, row: &mut Fields) -> Result<String, Trouble> {
    match bundle_of_text(alloc, row.text()?) {
        Ok(bundle) => bundle_text(alloc, &bundle),
        Err(error) => text_error(alloc, error),
    }
}

/// The plan of these items.
fn plan_of(alloc: Global, items: &str) -> Result<Result<Plan, TextError>, Trouble> {
    let text = text_of(alloc, &["{\"version\":1,\"items\":[", items, "]}"])?;
    Ok(Plan::from_json(alloc, text.as_str().as_bytes()))
}

/// Adds a value behind its name.
fn put_shown<T: Debug>(
    alloc: Global,
    name: &str,
    value: &T,
    out: &mut String,
) -> Result<(), Trouble> {
    out.push_str(name)?;
    out.push_str(shown(alloc, value)?.as_str())?;
    Ok(())
}

/// Adds bytes in hexadecimal behind their name.
fn put_hex(alloc: Global, name: &str, bytes: &[u8], out: &mut String) -> Result<(), Trouble> {
    out.push_str(name)?;
    out.push_str(hex(alloc, bytes)?.as_str())?;
    Ok(())
}

/// Adds the name of the key that wraps, where there is one.
fn put_wrapped(alloc: Global, name: &Option<Bytes>, out: &mut String) -> Result<(), Trouble> {
    match name {
        Some(name) => put_hex(alloc, " wrapped=", name.as_slice(), out),
        None => {
            out.push_str(" wrapped=none")?;
            Ok(())
        }
    }
}

/// Adds what a block that is to be added is, and which blocks it covers.
fn put_block(alloc: Global, cover: &Cover, out: &mut String) -> Result<(), Trouble> {
    put_shown(alloc, "block=", &cover.block, out)?;
    put_shown(alloc, " flags=", &cover.flags, out)?;
    put_shown(alloc, " check=", &cover.crc, out)?;
    put_shown(alloc, " targets=", &cover.targets.items(), out)
}

/// Adds what a block that is to be added covers, and how.
fn put_cover(alloc: Global, cover: &Cover, out: &mut String) -> Result<(), Trouble> {
    put_block(alloc, cover, out)?;
    out.push_str(" source=")?;
    out.push_str(id_text(alloc, &cover.source)?.as_str())?;
    put_hex(alloc, " key=", cover.key.as_slice(), out)?;
    put_wrapped(alloc, &cover.wrapped_with, out)?;
    put_shown(alloc, " variant=", &cover.variant, out)?;
    put_shown(alloc, " scope=", &cover.scope, out)
}

/// Adds a split.
fn put_split(alloc: Global, split: &Split, out: &mut String) -> Result<(), Trouble> {
    put_shown(alloc, "split block=", &split.block, out)?;
    put_shown(alloc, " flags=", &split.flags, out)?;
    put_shown(alloc, " check=", &split.crc, out)?;
    put_shown(alloc, " from=", &split.from, out)?;
    put_shown(alloc, " targets=", &split.targets.items(), out)
}

/// Adds a confidentiality block that is to be added.
fn put_sealed(
    alloc: Global,
    cover: &Cover,
    iv: &Bytes,
    shared_iv: bool,
    tag_in_body: bool,
    out: &mut String,
) -> Result<(), Trouble> {
    out.push_str("bcb ")?;
    put_cover(alloc, cover, out)?;
    put_hex(alloc, " iv=", iv.as_slice(), out)?;
    put_shown(alloc, " shared=", &shared_iv, out)?;
    put_shown(alloc, " joined=", &tag_in_body, out)
}

/// Adds an item in words.
fn put_item(alloc: Global, item: &Item, out: &mut String) -> Result<(), Trouble> {
    match item {
        Item::Bib(cover) => {
            out.push_str("bib ")?;
            put_cover(alloc, cover, out)
        }
        Item::Bcb {
            cover,
            iv,
            shared_iv,
            tag_in_body,
        } => put_sealed(alloc, cover, iv, *shared_iv, *tag_in_body, out),
        Item::Split(split) => put_split(alloc, split, out),
    }
}

/// The items of a plan in words, or the fault of its text.
fn items_text(alloc: Global, items: &str) -> Result<String, Trouble> {
    let plan = match plan_of(alloc, items)? {
        Ok(plan) => plan,
        Err(error) => return text_error(alloc, error),
    };
    let mut out = String::new(alloc);
    for item in plan.items() {
        if !out.is_empty() {
            out.push_str("; ")?;
        }
        put_item(alloc, item, &mut out)?;
    }
    Ok(out)
}

/// `plan ITEMS`: the items in words, or the fault of the text. A dash stands for no items.
fn plan(alloc: Global, row: &mut Fields) -> Result<String, Trouble> {
    let items = row.text()?;
    items_text(alloc, if items == "-" { "" } else { items })
}

/// `plan-with ITEM OLD NEW`: the same with one piece of the item in place of another.
fn plan_with(alloc: Global, row: &mut Fields) -> Result<String, Trouble> {
    let item = row.text()?;
    let old = row.word()?;
    let new = row.word()?;
    let Some((before, after)) = item.split_once(old) else {
        return Err(Trouble::Row("the piece"));
    };
    let items = text_of(alloc, &[before, new, after])?;
    items_text(alloc, items.as_str())
}

/// `plan-many ITEM COUNT`: how many items a plan of so many has, or the fault of its text.
fn plan_many(alloc: Global, row: &mut Fields) -> Result<String, Trouble> {
    let item = row.text()?;
    let count = row.number()?;
    let mut items = String::new(alloc);
    for i in 0..count {
        if i > 0 {
            items.push_str(",")?;
        }
        items.push_str(item)?;
    }
    match plan_of(alloc, items.as_str())? {
        Ok(plan) => {
            let count = plan.items().len();
            let count = shown(alloc, &count)?;
            text_of(alloc, &[count.as_str(), " items"])
        }
        Err(error) => text_error(alloc, error),
    }
}

/// The bundle with the security blocks of a plan.
fn applied(
    alloc: Global,
    bundle: &Bundle,
    plan: &Plan,
    ring: &KeyRing,
) -> Result<Bundle, PlanFault> {
    the_default_suite_is_rfc_9173();
    secure(alloc, bundle, plan, ring, &suite())
}

/// Why a plan isn't applied, and the index of its item, if it is about one.
fn refused(alloc: Global, reason: &PlanReason, at: Option<u64>) -> Result<String, Trouble> {
    let reason = shown(alloc, reason)?;
    match at {
        Some(at) => {
            let at = shown(alloc, &at)?;
            text_of(alloc, &["refused ", reason.as_str(), " at ", at.as_str()])
        }
        None => text_of(alloc, &["refused ", reason.as_str()]),
    }
}

/// `secure BUNDLE ITEMS RING`: the bundle with the security blocks of a plan, or why the plan isn't applied.
fn secured(alloc: Global, row: &mut Fields) -> Result<String, Trouble> {
    let bundle = bundle_of(alloc, row)?;
    let Ok(plan) = plan_of(alloc, row.text()?)? else {
        return Err(Trouble::Row("a plan"));
    };
    let ring = ring_of(alloc, row)?;
    match applied(alloc, &bundle, &plan, &ring) {
        Ok(bundle) => bundle_text(alloc, &bundle),
        Err(PlanFault::NoMemory) => Err(Trouble::NoMemory),
        Err(PlanFault::Refused { reason, at }) => refused(alloc, &reason, at),
    }
}
