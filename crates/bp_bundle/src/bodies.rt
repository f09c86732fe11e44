//! The body of a block, which comes piece by piece, and the check over it.

ghost use Rattle.std.specs.Prelude.{◌≡◌, ◌+◌, ◌<◌, ◌≤◌, ◌++◌, ◌∷◌, [], length, IfOk};
ghost use Rattle.cbor_profile.specs.Feeds.{Feeds};
ghost use Rattle.cbor_profile.specs.Head.{head_spelling};
ghost use Rattle.cbor_profile.specs.declared.TheConstants.{BUNDLE_LIMIT};
ghost use Rattle.bp_bundle.specs.HeaderText.{header_text};
ghost use Rattle.bp_crc.specs.Checking.{StandsFor, kind_of};
ghost use Rattle.bp_bundle.specs.FirstFault.{block_of};

use crate::header::Header;
use crate::stage::{Begun, Closing, Open};
use bp_blocks::Block;
use bp_crc::Checking;
use bp_crc::laws::what_is_fixed_names_the_kind;
use cbor_profile::{Bytes, Feed, Head, List, NoMemory, feed_array, feed_uint, head_bytes};
use std::alloc::Global;

/// Feeds the head of a byte string with so many bytes.
#[tactic(auto, unfolding(cbor_profile::specs::Head::spelling))]
fn feed_string_head<F: Feed>(len: u64, into: &mut F)
    ensures stands { Feeds F.stands_for F.MOST into.old into.new (head_spelling 2 len) }
    ensures fixed { F.fixed into.new ≡ F.fixed into.old }
{
    let head = head_bytes(Head {
        major: 2,
        value: len,
    });
    into.feed(head.as_slice());
}

/// Feeds what stands before the content of the body.
#[tactic(auto, unfolding(crate::specs::HeaderText::header_text))]
fn feed_header<F: Feed>(header: Header, into: &mut F)
    ensures stands { Feeds F.stands_for F.MOST into.old into.new (header_text header) }
    ensures fixed { F.fixed into.new ≡ F.fixed into.old }
{
    feed_array(into, 5 + header.crc.count());
    feed_uint(into, header.kind);
    feed_uint(into, header.number);
    feed_uint(into, header.flags);
    feed_uint(into, header.crc.number());
    feed_string_head(header.len, into);
}

/// The check over a header.
fn begin_check(header: Header) -> Checking
    ensures kind { kind_of result ≡ header.crc }
    ensures stands { StandsFor result (header_text header) }
{
    what_is_fixed_names_the_kind();
    let mut checking = Checking::new(header.crc);
    feed_header(header, &mut checking);
    checking
}

/// A block of whose body nothing has come.
pub(crate) fn opened(alloc: Global, begun: Begun, header: Header) -> Open
    requires room { length begun.blocks < 64 }
    requires small { header.len < BUNDLE_LIMIT }
    ensures begun { result.begun ≡ begun }
    ensures header { result.header ≡ header }
    ensures body { result.body ≡ [] }
{
    Open {
        begun,
        header,
        body: Bytes::new(alloc),
        checking: begin_check(header),
    }
}

/// Takes one more piece of the body.
pub(crate) fn absorbed(opened: Open, piece: &[u8]) -> Result<Open, NoMemory>
    requires { length opened.body + length piece.now ≤ opened.header.len }
    ensures begun { IfOk result (λ next. next.begun ≡ opened.begun) }
    ensures header { IfOk result (λ next. next.header ≡ opened.header) }
    ensures body { IfOk result (λ next. next.body ≡ opened.body ++ piece.now) }
{
    what_is_fixed_names_the_kind();
    let Open {
        begun,
        header,
        mut body,
        mut checking,
    } = opened;
    body.extend(piece)?;
    checking.feed(piece);
    Ok(Open {
        begun,
        header,
        body,
        checking,
    })
}

/// A block whose body is whole, with the check that it wants.
pub(crate) fn closed(opened: Open) -> Closing
    requires { length opened.body ≡ opened.header.len }
    ensures begun { result.begun ≡ opened.begun }
    ensures block { result.block ≡ block_of opened.header opened.body }
{
    what_is_fixed_names_the_kind();
    let Open {
        begun,
        header,
        body,
        mut checking,
    } = opened;
    header.crc.feed(header.crc.zeros(), &mut checking);
    Closing {
        begun,
        block: Block {
            kind: header.kind,
            number: header.number,
            flags: header.flags,
            crc: header.crc,
            body,
        },
        check: checking.finish(),
    }
}

/// The blocks with this one.
pub(crate) fn pushed(closing: Closing) -> Result<Begun, NoMemory>
    ensures primary { IfOk result (λ next. next.primary ≡ closing.begun.primary) }
    ensures blocks { IfOk result (λ next. next.blocks ≡ closing.begun.blocks ++ closing.block ∷ []) }
{
    let Closing {
        begun: Begun {
            primary,
            mut blocks,
        },
        block,
        check: _check,
    } = closing;
    blocks.append(block)?;
    Ok(Begun { primary, blocks })
}
