//! The states of the streaming decoder.

ghost use Rattle.std.specs.Prelude.{◌≡◌, ◌<◌, ◌≤◌, ◌++◌, length};
ghost use Rattle.cbor_profile.specs.declared.TheConstants.{BUNDLE_LIMIT};
ghost use Rattle.bp_bundle.specs.HeaderText.{header_text};
ghost use Rattle.bp_crc.specs.Checking.{StandsFor, StandsFor-prop, bytes_of, kind_of};
ghost use Rattle.bp_bundle.specs.FirstFault.{block_check};

use crate::at::At;
use crate::header::Header;
use bp_blocks::Block;
use bp_crc::{CheckBytes, Checking};
use bp_primary::Primary;
use cbor_profile::{Bytes, List, SpellError};

/// The primary block, and the blocks that were read so far.
#[derive(Debug, Drop)]
pub(crate) struct Begun {
    pub(crate) primary: Primary,
    pub(crate) blocks: List<Block>,
    pub(crate) ghost few: { length blocks ≤ 64 },
}

/// A block in whose body the reader stands.
#[derive(Debug, Drop)]
pub(crate) struct Open {
    pub(crate) begun: Begun,
    pub(crate) header: Header,
    /// What has come of the body.
    pub(crate) body: Bytes,
    /// The check over the header and the body so far.
    pub(crate) checking: Checking,
    pub(crate) ghost room: { length begun.blocks < 64 },
    pub(crate) ghost small: { header.len < BUNDLE_LIMIT },
    pub(crate) ghost within: { length body ≤ header.len },
    pub(crate) ghost kind: { kind_of checking ≡ header.crc },
    pub(crate) ghost stands: { StandsFor checking (header_text header ++ body) } by { StandsFor-prop checking (header_text header ++ body) },
}

/// A block whose body is whole.
#[derive(Debug, Drop)]
pub(crate) struct Closing {
    pub(crate) begun: Begun,
    pub(crate) block: Block,
    pub(crate) check: CheckBytes,
    pub(crate) ghost room: { length begun.blocks < 64 },
    pub(crate) ghost checks: { bytes_of check ≡ block_check block },
}

/// Where the reader stands in a bundle.
#[derive(Debug, Drop)]
pub(crate) enum Stage {
    /// Before the end of the primary block.
    Front,
    /// In the header of a block, or before it.
    Header(Begun),
    /// In the body of a block.
    Body(Open),
    /// After the body of a block.
    Tail(Closing),
    /// After the end.
    Done(Begun),
}

/// What all steps over some bytes came to.
#[derive(Drop)]
pub(crate) enum Outcome<'a> {
    /// More bytes are wanted than are here.
    Wait(Stage, At<'a>),
    /// The bundle has ended here.
    End(Begun, At<'a>),
    /// Reading stops for good.
    Stop(SpellError),
}

/// What a step came to.
#[derive(Drop)]
pub(crate) enum Step<'a> {
    /// There is more to read here.
    On(Stage, At<'a>),
    /// It was the last over these bytes.
    Last(Outcome<'a>),
}
