//! The reasons that speak of sets of targets: splits, and how operations go together.

ghost use Rattle.std.specs.Prelude.{◌≡◌, ◌&&◌, not, IfOk};
ghost use Rattle.std.specs.Option.{option_copied};
ghost use Rattle.std.specs.List.{list_any, list_all};
ghost use Rattle.bpsec_facts.specs.Items.{is_in};
ghost use Rattle.bpsec_facts.specs.View.{facts};
ghost use Rattle.bpsec_facts.specs.Refusal.{is_part, cannot_split, splits_badly, bad_split, shares_none, no_shared_target, overlaps, partial_overlap, leaves_plain, bib_left_plain, has_bad_flags, bad_flags};

use crate::bibs::{ResultBib, ShownBib, left_of, shown_at};
use crate::case::Case;
use crate::items::{is_cipher, is_in, targets_of};
use bpsec_plan::{Item, Split};
use cbor_profile::NoMemory;
use std::alloc::Global;

/// Whether some of these numbers are listed.
fn has_some(numbers: &[u64], some: &[u64]) -> bool
    ensures { result ≡ list_any (is_in numbers.now) some.now }
{
    some.iter().any(|number| is_in(numbers, *number))
}

/// Whether all of these numbers are listed.
fn has_all(numbers: &[u64], all: &[u64]) -> bool
    ensures { result ≡ list_all (is_in numbers.now) all.now }
{
    all.iter().all(|number| is_in(numbers, *number))
}

/// Whether the targets are some of those that are left, and not all.
fn is_part(targets: &[u64], left: &[u64]) -> bool
    ensures { result ≡ is_part targets.now left.now }
{
    has_all(left, targets) && !has_all(targets, left)
}

fn shares_none(targets: &[u64], bib: &ResultBib) -> bool
    ensures { result ≡ shares_none targets.now bib.now }
{
    is_in(targets, bib.number) && !has_some(targets, bib.targets.items())
}

fn some_shares_none(targets: &[u64], bibs: &[ResultBib]) -> bool
    ensures { result ≡ list_any (shares_none targets.now) bibs.now }
{
    bibs.iter().any(|bib| shares_none(targets, bib))
}

#[tactic(auto, unfolding(crate::specs::Refusal::no_shared_target))]
pub(crate) fn no_shared_target(case: &Case, item: &Item) -> bool
    ensures { result ≡ no_shared_target (facts case.now) item.now }
{
    is_cipher(item) && some_shares_none(targets_of(item), case.bibs)
}

fn overlaps(targets: &[u64], bib: &ResultBib) -> bool
    ensures { result ≡ overlaps targets.now bib.now }
{
    has_some(targets, bib.targets.items()) && !has_all(targets, bib.targets.items())
}

fn some_overlaps(targets: &[u64], bibs: &[ResultBib]) -> bool
    ensures { result ≡ list_any (overlaps targets.now) bibs.now }
{
    bibs.iter().any(|bib| overlaps(targets, bib))
}

#[tactic(auto, unfolding(crate::specs::Refusal::partial_overlap))]
pub(crate) fn partial_overlap(case: &Case, item: &Item) -> bool
    ensures { result ≡ partial_overlap (facts case.now) item.now }
{
    is_cipher(item) && some_overlaps(targets_of(item), case.bibs)
}

fn leaves_plain(targets: &[u64], bib: &ResultBib) -> bool
    ensures { result ≡ leaves_plain targets.now bib.now }
{
    has_all(targets, bib.targets.items()) && !is_in(targets, bib.number)
}

fn some_leaves_plain(targets: &[u64], bibs: &[ResultBib]) -> bool
    ensures { result ≡ list_any (leaves_plain targets.now) bibs.now }
{
    bibs.iter().any(|bib| leaves_plain(targets, bib))
}

#[tactic(auto, unfolding(crate::specs::Refusal::bib_left_plain))]
pub(crate) fn bib_left_plain(case: &Case, item: &Item) -> bool
    ensures { result ≡ bib_left_plain (facts case.now) item.now }
{
    is_cipher(item) && some_leaves_plain(targets_of(item), case.bibs)
}

fn has_bad_flags(flags: u64, targets: &[u64]) -> bool
    ensures { result ≡ has_bad_flags flags targets.now }
{
    flags & 0x10 == 0x10 || (is_in(targets, 1) && flags & 0x1 != 0x1)
}

#[tactic(auto, unfolding(crate::specs::Refusal::bad_flags))]
pub(crate) fn bad_flags(item: &Item) -> bool
    ensures { result ≡ bad_flags item.now }
{
    match item {
        Item::Bcb { cover, .. } => has_bad_flags(cover.flags, cover.targets.items()),
        Item::Bib(_) | Item::Split(_) => false,
    }
}

/// Whether these targets can't be split off those that are left.
fn is_bad_part(divisible: bool, targets: &[u64], left: &[u64]) -> bool
    ensures { result ≡ not (divisible && is_part targets.now left.now) }
{
    !(divisible && is_part(targets, left))
}

/// Whether a split of a block that is there can't be done.
#[tactic(auto, unfolding(crate::specs::Refusal::cannot_split))]
fn cannot_split(
    alloc: Global,
    before: &[Item],
    split: &Split,
    bib: &ShownBib,
) -> Result<bool, NoMemory>
    ensures { IfOk result (λ bad. bad ≡ cannot_split before.now split.now bib.now) }
{
    let left = left_of(alloc, before, split.from, bib.asb.targets.items())?;
    let bad = is_bad_part(bib.divisible, split.targets.items(), left.items());
    Ok(bad)
}

/// Whether a split of this block can't be done.
fn splits_badly(
    alloc: Global,
    before: &[Item],
    split: &Split,
    bib: Option<&ShownBib>,
) -> Result<bool, NoMemory>
    ensures { IfOk result (λ bad. bad
        ≡ splits_badly before.now split.now (option_copied bib.entry)) }
{
    match bib {
        Some(bib) => cannot_split(alloc, before, split, bib),
        None => Ok(true),
    }
}

/// Whether a split can't be done.
pub(crate) fn bad_split(
    alloc: Global,
    case: &Case,
    before: &[Item],
    item: &Item,
) -> Result<bool, NoMemory>
    ensures { IfOk result (λ bad. bad ≡ bad_split (facts case.now) before.now item.now) }
{
    match item {
        Item::Bib(_) | Item::Bcb { .. } => Ok(false),
        Item::Split(split) => {
            splits_badly(alloc, before, split, shown_at(case.shown, split.from))
        }
    }
}
