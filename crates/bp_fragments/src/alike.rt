//! Whether blocks are the same.

ghost use Rattle.std.specs.Prelude.{◌≡◌};
ghost use Rattle.std.specs.List.{list_all, zip};
ghost use Rattle.bp_crc.specs.Item.{check_type};
ghost use Rattle.bp_fragments.specs.Agreement.{same_id, same_ids, same_times, same_primary, same_header, same_block, same_blocks};
ghost use Rattle.bp_fragments.specs.Fragment.{piece_of};

use bp_blocks::Block;
use bp_crc::CheckKind;
use bp_eid::Eid;
use bp_primary::{Piece, Primary};

fn same_id(a: &Eid, b: &Eid) -> bool
    ensures { result ≡ same_id a.now b.now }
{
    match (a, b) {
        (Eid::Null, Eid::Null) => true,
        (Eid::Dtn(text), Eid::Dtn(other)) => text.bytes() == other.bytes(),
        (
            Eid::Ipn { node, service },
            Eid::Ipn {
                node: other,
                service: others,
            },
        ) => node == other && service == others,
        _ => false,
    }
}

/// The check type as a number (RFC 9171, section 4.2.1).
fn check_type(kind: CheckKind) -> u8
    ensures { result ≡ check_type kind }
{
    match kind {
        CheckKind::None => 0,
        CheckKind::Crc16 => 1,
        CheckKind::Crc32c => 2,
    }
}

/// Where a fragment's payload begins, and how many bytes the whole has.
pub(crate) fn piece_of(primary: &Primary) -> Piece
    ensures { result ≡ piece_of primary.now }
{
    primary.fragment.unwrap_or(Piece {
        offset: 0,
        total: 0,
    })
}

fn same_ids(a: &Primary, b: &Primary) -> bool
    ensures { result ≡ same_ids a.now b.now }
{
    same_id(&a.destination, &b.destination)
        && same_id(&a.source, &b.source)
        && same_id(&a.report_to, &b.report_to)
}

fn same_times(a: &Primary, b: &Primary) -> bool
    ensures { result ≡ same_times a.now b.now }
{
    a.created == b.created && a.sequence == b.sequence && a.lifetime == b.lifetime
}

/// Whether the primary blocks are equal but for the offset.
pub(crate) fn same_primary(a: &Primary, b: &Primary) -> bool
    ensures { result ≡ same_primary a.now b.now }
{
    a.flags == b.flags
        && check_type(a.crc) == check_type(b.crc)
        && same_ids(a, b)
        && same_times(a, b)
        && piece_of(a).total == piece_of(b).total
}

fn same_header(a: &Block, b: &Block) -> bool
    ensures { result ≡ same_header a.now b.now }
{
    a.kind == b.kind
        && a.number == b.number
        && a.flags == b.flags
        && check_type(a.crc) == check_type(b.crc)
}

fn same_block(a: &Block, b: &Block) -> bool
    ensures { result ≡ same_block a.now b.now }
{
    same_header(a, b) && a.body.as_slice() == b.body.as_slice()
}

/// Whether each block is the same as the other beside it.
fn all_same(a: &[Block], b: &[Block]) -> bool
    ensures { result ≡ list_all (λ pair. same_block pair.0 pair.1) (zip a.now b.now) }
{
    a.iter().zip(b.iter()).all(|(x, y)| same_block(x, y))
}

/// Whether the blocks are the same, one after another.
pub(crate) fn same_blocks(a: &[Block], b: &[Block]) -> bool
    ensures { result ≡ same_blocks a.now b.now }
{
    a.len() == b.len() && all_same(a, b)
}
