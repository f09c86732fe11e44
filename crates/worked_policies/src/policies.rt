//! Calls of `bpsec_policy`.

use bpsec_asb::Service;
use bpsec_policy::{KeyRing, Policy, TargetKind};
use cbor_profile::Bytes;
use std::alloc::Global;
use worked_readers::{policy_of, ring_of, shown, text_error, text_of};
use worked_tables::{Fields, Told, Trouble, answer, hex, text};
use worked_values::{eid, id_text};

pub fn told(alloc: Global, call: &str, row: &mut Fields) -> Told {
    match call {
        "policy" => answer(read(alloc, row)),
        "lists" => answer(lists(alloc, row)),
        "rule" => answer(rule(alloc, row)),
        "policy-text" => answer(written(alloc, row)),
        "ring" => answer(ring(alloc, row)),
        "key" => answer(key(alloc, row)),
        _ => Ok(None),
    }
}

/// A policy in words, or the fault of its text.
fn policy_text(alloc: Global, given: &str) -> Result<String, Trouble> {
    let policy = match Policy::from_json(alloc, given.as_bytes()) {
        Ok(policy) => policy,
        Err(error) => return text_error(alloc, error),
    };
    let node = id_text(alloc, policy.node())?;
    let node = node.as_str();
    let broken = policy.broken();
    let required = policy.requirements().len();
    let broken = shown(alloc, &broken)?;
    let required = shown(alloc, &required)?;
    text_of(
        alloc,
        &[
            "node=",
            node,
            " broken=",
            broken.as_str(),
            " required=",
            required.as_str(),
        ],
    )
}

/// `policy TEXT`: the policy in words, or the fault of its text.
fn read(alloc: Global, row: &mut Fields) -> Result<String, Trouble> {
    policy_text(alloc, row.text()?)
}

/// A list of entries: a text, a dash for none, or `COUNT*ENTRY` for so many with names of their own.
fn entries(alloc: Global, given: &str) -> Result<String, Trouble> {
    if given == "-" {
        return Ok(String::new(alloc));
    }
    let Some((count, entry)) = given.split_once('*') else {
        return text(alloc, given);
    };
    let count = count.parse::<u64>().ok().ok_or(Trouble::Row("a count"))?;
    let mut out = String::new(alloc);
    for i in 0..count {
        if i > 0 {
            out.push_str(",")?;
        }
        let i = shown(alloc, &i)?;
        out.push_str(text_of(alloc, &["{\"name\":\"n", i.as_str(), "\",", entry, "}"])?.as_str())?;
    }
    Ok(out)
}

/// `lists VERSION RULES REQUIRED`: the policy with these rules and requirements in words, or the fault of its text.
fn lists(alloc: Global, row: &mut Fields) -> Result<String, Trouble> {
    let version = row.number()?;
    let rules = entries(alloc, row.text()?)?;
    let rules = rules.as_str();
    let required = entries(alloc, row.text()?)?;
    let required = required.as_str();
    let version = shown(alloc, &version)?;
    let given = text_of(
        alloc,
        &[
            "{\"version\":",
            version.as_str(),
            ",\"node\":\"ipn:9.1\",\"broken\":\"keep\",\"default\":{\"role\":\"none\",\"failed\":\"keep\",\"misset\":\"keep\"},\"rules\":[",
            rules,
            "],\"required\":[",
            required,
            "]}",
        ],
    )?;
    policy_text(alloc, given.as_str())
}

fn service_of(row: &mut Fields) -> Result<Service, Trouble> {
    match row.word()? {
        "bib" => Ok(Service::Bib),
        "bcb" => Ok(Service::Bcb),
        _ => Err(Trouble::Row("a service")),
    }
}

/// The kind of a target: `primary`, `none`, or the number of a block type.
fn kind_of(row: &mut Fields) -> Result<Option<TargetKind>, Trouble> {
    match row.word()? {
        "primary" => Ok(Some(TargetKind::Primary)),
        "none" => Ok(None),
        word => match word.parse::<u64>() {
            Ok(number) => Ok(Some(TargetKind::Kind(number))),
            Err(_) => Err(Trouble::Row("a kind of target")),
        },
    }
}

/// `rule POLICY SERVICE SOURCE CONTEXT TARGET DESTINATION`: the name of the rule, and the role by it.
fn rule(alloc: Global, row: &mut Fields) -> Result<String, Trouble> {
    let policy = policy_of(alloc, row)?;
    let service = service_of(row)?;
    let source = eid(alloc, row)?;
    let context = row.signed()?;
    let target = kind_of(row)?;
    let destination = eid(alloc, row)?;
    let rule = policy.rule_for(service, &source, context, target);
    let role = policy.role_at(rule, service, &destination);
    let Ok(name) = std::str::from_utf8(rule.name.as_slice()) else {
        return text(alloc, "no text");
    };
    let role = shown(alloc, &role)?;
    text_of(alloc, &[name, " ", role.as_str()])
}

/// `policy-text POLICY`: its text.
fn written(alloc: Global, row: &mut Fields) -> Result<String, Trouble> {
    let policy = policy_of(alloc, row)?;
    let mut out = Bytes::new(alloc);
    policy.put_text(alloc, &mut out)?;
    match std::str::from_utf8(out.as_slice()) {
        Ok(form) => text(alloc, form),
        Err(_) => text(alloc, "no text"),
    }
}

/// `ring TEXT`: how many keys it has, or its fault.
fn ring(alloc: Global, row: &mut Fields) -> Result<String, Trouble> {
    match KeyRing::from_json(alloc, row.text()?.as_bytes()) {
        Ok(ring) => {
            let count = ring.keys().len();
            let count = shown(alloc, &count)?;
            text_of(alloc, &[count.as_str(), " keys"])
        }
        Err(error) => text_error(alloc, error),
    }
}

/// `key RING NAME`: the key of that name.
fn key(alloc: Global, row: &mut Fields) -> Result<String, Trouble> {
    let ring = ring_of(alloc, row)?;
    match ring.key(row.word()?.as_bytes()) {
        Some(key) => hex(alloc, key),
        None => text(alloc, "none"),
    }
}
