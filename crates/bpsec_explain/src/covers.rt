//! What an operation covers beside its target.

ghost use Rattle.std.specs.Prelude.{◌≡◌, ◌==◌, ◌++◌, pos, Some, None, filter, find, IfOk};
ghost use Rattle.std.specs.Option.{option_to_list};
ghost use Rattle.std.specs.Option.{option_copied};
ghost use Rattle.bp_eid.specs.Reading.{number_at};
ghost use Rattle.bpsec_scope.specs.Target.{PrimaryBlock, Sealed};
ghost use Rattle.bpsec_scope.specs.Covered.{scoped, front};
ghost use Rattle.bpsec_explain.specs.Covers.{whole_number, scope_of, scope_id, context_of, scope, may_target, header_of, covers};

use bp_blocks::{Block, block_with};
use bp_bundle::Bundle;
use bp_eid::reading::number;
use bp_primary::Primary;
use bpsec_asb::{Asb, Pair, Service};
use bpsec_scope::{Covered, Header, TargetOf, aad, ippt};
use cbor_profile::{Bytes, Gather, NoMemory};
use std::alloc::Global;

/// The number that a value is, and nothing more.
fn whole_number(value: &[u8]) -> Option<u64>
    ensures { result ≡ whole_number (number_at value.now) }
{
    match number(value) {
        Ok((n, [])) => Some(n),
        Ok(_) => None,
        Err(_) => None,
    }
}

/// The scope that the pairs of this id give, with one that was found before.
fn scope_after(id: u64, found: Option<&Pair>, pairs: &[Pair]) -> Option<u64>
    ensures { result ≡ scope_of (option_to_list (option_copied found.entry)
        ++ filter (λ p. p.id == id) pairs.now) }
{
    let [pair, rest @ ..] = pairs else {
        return match found {
            Some(pair) => whole_number(pair.value.as_slice()),
            None => Some(7),
        };
    };
    if pair.id != id {
        return scope_after(id, found, rest);
    }
    if found.is_some() {
        return None;
    }
    scope_after(id, Some(pair), rest)
}

fn context_of(service: Service) -> i64
    ensures { result ≡ pos (context_of service) }
{
    match service {
        Service::Bib => 1,
        Service::Bcb => 2,
    }
}

fn scope_id(service: Service) -> u64
    ensures { result ≡ scope_id service }
{
    match service {
        Service::Bib => 3,
        Service::Bcb => 4,
    }
}

/// The scope of the operations of a security block.
fn scope(service: Service, asb: &Asb) -> Option<u64>
    ensures { result ≡ scope service asb.now }
{
    if asb.context != context_of(service) {
        return None;
    }
    match &asb.parameters {
        Some(parameters) => scope_after(scope_id(service), None, parameters.items()),
        None => Some(7),
    }
}

fn may_target(service: Service, kind: u64) -> bool
    ensures { result ≡ may_target service kind }
{
    match service {
        Service::Bib => kind != 11 && kind != 12,
        Service::Bcb => kind != 12,
    }
}

fn header_of(block: &Block) -> Header
    ensures { result ≡ header_of block.now }
{
    Header {
        kind: block.kind,
        number: block.number,
        flags: block.flags,
    }
}

/// What is covered beside a canonical block.
#[tactic(auto, unfolding(bpsec_scope::specs::Covered::aad))]
fn beside(
    alloc: Global,
    primary: &Primary,
    target: Header,
    security: Header,
    flags: u64,
) -> Result<Bytes, NoMemory>
    ensures { IfOk result (λ bytes. bytes ≡ front (scoped
        (record {
          target = Sealed;
          primary = primary.now;
          target_header = Some target;
          security_header = security;
        }) flags)) }
{
    let covered = Covered {
        target: TargetOf::Sealed,
        primary,
        target_header: Some(target),
        security_header: security,
    };
    let mut gather = Gather::new(alloc);
    aad(&covered, flags, &mut gather);
    gather.finish()
}

/// What is covered beside the primary block: the covered bytes without the block at their end.
#[tactic(auto, unfolding(bpsec_scope::specs::Covered::ippt, bpsec_scope::specs::Covered::scoped))]
fn beside_primary(
    alloc: Global,
    primary: &Primary,
    security: Header,
    flags: u64,
) -> Result<Bytes, NoMemory>
    ensures { IfOk result (λ bytes. bytes ≡ front (scoped
        (record {
          target = PrimaryBlock;
          primary = primary.now;
          target_header = None;
          security_header = security;
        }) flags)) }
{
    let covered = Covered {
        target: TargetOf::Primary,
        primary,
        target_header: None,
        security_header: security,
    };
    let mut gather = Gather::new(alloc);
    ippt(&covered, flags, &mut gather);
    let mut bytes = gather.finish()?;
    let behind = primary.size() as usize;
    bytes.truncate(bytes.len().saturating_sub(behind));
    Ok(bytes)
}

/// The scope flags of an operation and what it covers beside its target, where both can be told.
#[tactic(auto, unfolding(crate::specs::Covers::covers))]
pub(crate) fn covers(
    alloc: Global,
    bundle: &Bundle,
    service: Service,
    block: &Block,
    asb: &Asb,
    target: u64,
) -> Result<Option<(u64, Bytes)>, NoMemory>
    ensures { IfOk result (λ told. told ≡ covers bundle.now service block.now asb.now target) }
{
    let Some(flags) = scope(service, asb) else {
        return Ok(None);
    };
    if target == 0 {
        return match service {
            Service::Bib => {
                let bytes = beside_primary(alloc, bundle.primary(), header_of(block), flags)?;
                Ok(Some((flags % 8, bytes)))
            }
            Service::Bcb => Ok(None),
        };
    }
    let Some(there) = block_with(bundle.blocks(), target) else {
        return Ok(None);
    };
    if !may_target(service, there.kind) {
        return Ok(None);
    }
    let bytes = beside(
        alloc,
        bundle.primary(),
        header_of(there),
        header_of(block),
        flags,
    )?;
    Ok(Some((flags % 8, bytes)))
}
