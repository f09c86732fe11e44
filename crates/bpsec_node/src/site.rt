//! Blocks and targets, and what a judgement says.

ghost use Rattle.std.specs.Prelude.{◌≡◌, false, Some, None};
ghost use Rattle.std.specs.Option.{option_copied};
ghost use Rattle.bpsec_asb.specs.declared.operation.Service.TheVariants.{Bib, Bcb};
ghost use Rattle.bpsec_node.specs.Site.{block_at, kind_at, parameters_of, results_of, header_of, is_narrow, unless_narrow};
ghost use Rattle.bpsec_node.specs.Verdict.{is_forbidden, verdict_of};

use crate::event::Verdict;
use bp_blocks::Block;
use bp_primary::Primary;
use bpsec_asb::{Asb, OpId, Pair, Service};
use bpsec_context::{Judgement, MissetReason, Suite};
use bpsec_policy::{Policy, Role, Rule, TargetKind};
use bpsec_scope::{Covered, Header, TargetOf};
use cbor_profile::{Bytes, NoMemory};
use std::alloc::Global;

/// The canonical block with a number.
pub(crate) fn find_block(blocks: &[Block], number: u64) -> Option<&Block>
    ensures { option_copied result ≡ block_at blocks.now number }
{
    blocks.iter().find(|block| block.number == number)
}

/// The kind of the block with a number.
pub(crate) fn kind_of(number: u64, block: Option<&Block>) -> Option<TargetKind>
    ensures { result ≡ kind_at number (option_copied block.entry) }
{
    if number == 0 {
        return Some(TargetKind::Primary);
    }
    match block {
        Some(block) => Some(TargetKind::Kind(block.kind)),
        None => None,
    }
}

/// The header of a block.
pub(crate) fn header(block: &Block) -> Header
    ensures { result ≡ header_of block.now }
{
    Header {
        kind: block.kind,
        number: block.number,
        flags: block.flags,
    }
}

/// The parameters of a security block.
pub(crate) fn parameters(asb: &Asb) -> &[Pair]
    ensures { result.now ≡ parameters_of asb.now }
{
    match &asb.parameters {
        Some(parameters) => parameters.items(),
        None => &[],
    }
}

/// The results of a security block for a target.
pub(crate) fn results(asb: &Asb, target: u64) -> &[Pair]
    ensures { result.now ≡ results_of asb.now target }
{
    match asb.place_of(target) {
        Some(place) => match asb.results.items().get(place) {
            Some(results) => results.items(),
            None => &[],
        },
        None => &[],
    }
}

/// Whether a scope lacks a bit of the least scope.
pub(crate) fn is_narrow(least: Option<u64>, scope: u64) -> bool
    ensures { result ≡ is_narrow least scope }
{
    match least {
        Some(least) => least & scope != least,
        None => false,
    }
}

/// Whether the service doesn't apply to such a target.
pub(crate) fn is_forbidden(service: Service, kind: TargetKind) -> bool
    ensures { result ≡ is_forbidden service kind }
{
    match (service, kind) {
        (Service::Bib, TargetKind::Primary) => false,
        (Service::Bib, TargetKind::Kind(kind)) => kind == 11 || kind == 12,
        (Service::Bcb, TargetKind::Primary) => true,
        (Service::Bcb, TargetKind::Kind(kind)) => kind == 12,
    }
}

/// The judgement, unless the scope is too narrow.
pub(crate) fn unless_narrow(narrow: bool, judgement: Judgement) -> Judgement
    ensures { result ≡ unless_narrow narrow judgement }
{
    match judgement {
        Judgement::Misset(reason) => Judgement::Misset(reason),
        judged if narrow => {
            let _ = judged;
            Judgement::Misset(MissetReason::NarrowScope)
        }
        judged => judged,
    }
}

/// The verdict of a judgement.
pub(crate) fn verdict_of(judgement: Judgement) -> Verdict
    ensures { result ≡ verdict_of judgement }
{
    match judgement {
        Judgement::Right => Verdict::Passed,
        Judgement::Wrong => Verdict::Failed,
        Judgement::Misset(reason) => Verdict::Misset(reason),
    }
}
