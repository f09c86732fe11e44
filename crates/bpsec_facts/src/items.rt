//! What the items of a plan say.

ghost use Rattle.std.specs.Prelude.{◌≡◌, ◌==◌};
ghost use Rattle.bpsec_facts.specs.Items.{block_number, block_kind, block_flags, block_check, targets_of, is_cipher, service_of, same, is_in, is_target};

use bp_crc::CheckKind;
use bpsec_asb::Service;
use bpsec_plan::Item;

/// The number of the new block.
pub(crate) fn block_number(item: &Item) -> u64
    ensures { result ≡ block_number item.now }
{
    match item {
        Item::Bib(cover) => cover.block,
        Item::Bcb { cover, .. } => cover.block,
        Item::Split(split) => split.block,
    }
}

/// Its type.
pub(crate) fn block_kind(item: &Item) -> u64
    ensures { result ≡ block_kind item.now }
{
    match item {
        Item::Bib(_) | Item::Split(_) => 11,
        Item::Bcb { .. } => 12,
    }
}

/// Its flags.
pub(crate) fn block_flags(item: &Item) -> u64
    ensures { result ≡ block_flags item.now }
{
    match item {
        Item::Bib(cover) => cover.flags,
        Item::Bcb { cover, .. } => cover.flags,
        Item::Split(split) => split.flags,
    }
}

/// Its check.
pub(crate) fn block_check(item: &Item) -> CheckKind
    ensures { result ≡ block_check item.now }
{
    match item {
        Item::Bib(cover) => cover.crc,
        Item::Bcb { cover, .. } => cover.crc,
        Item::Split(split) => split.crc,
    }
}

/// The targets of the operations that it makes.
pub fn targets_of(item: &Item) -> &[u64]
    ensures { result.now ≡ targets_of item.now }
{
    match item {
        Item::Bib(cover) => cover.targets.items(),
        Item::Bcb { cover, .. } => cover.targets.items(),
        Item::Split(_) => &[],
    }
}

/// Whether it makes operations of confidentiality.
pub fn is_cipher(item: &Item) -> bool
    ensures { result ≡ is_cipher item.now }
{
    matches!(item, Item::Bcb { .. })
}

/// The service of the operations that it makes.
pub(crate) fn service_of(item: &Item) -> Service
    ensures { result ≡ service_of item.now }
{
    match item {
        Item::Bib(_) | Item::Split(_) => Service::Bib,
        Item::Bcb { .. } => Service::Bcb,
    }
}

/// Whether both are one service.
pub(crate) fn same(a: Service, b: Service) -> bool
    ensures { result ≡ same a b }
{
    match a {
        Service::Bib => matches!(b, Service::Bib),
        Service::Bcb => matches!(b, Service::Bcb),
    }
}

/// Whether a number is listed.
pub fn is_in(numbers: &[u64], number: u64) -> bool
    ensures { result ≡ is_in numbers.now number }
{
    numbers.iter().any(|listed| *listed == number)
}

/// Whether an operation of some item has this target.
pub(crate) fn is_target(items: &[Item], number: u64) -> bool
    ensures { result ≡ is_target items.now number }
{
    items.iter().any(|item| is_in(targets_of(item), number))
}
