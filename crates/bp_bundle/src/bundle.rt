//! Bundles.

ghost use Rattle.std.specs.Prelude.{◌≡◌, ◌==◌, ◌+◌, ◌<◌, ◌≤◌, ◌↔◌, ◌++◌, None, Some, length, take, remove, insert, slice_index_or, IsOk, IsErr, IfOk, IfErr, OnOk, OnErr, MatchResult};
ghost use Rattle.std.specs.List.{HoldsAt, position, flat_map};
ghost use Rattle.bp_blocks.specs.Spelling as canonical;
ghost use Rattle.bp_bundle.specs.Shape.{payload};
ghost use Rattle.bp_bundle.specs.Spelling.{IsBundle, spelling};
ghost use Rattle.bp_bundle.specs.Faults.{shape_fault};
ghost use Rattle.bp_bundle.specs.Edits.{HasNumber, with_crc, with_body};
ghost use Rattle.bp_bundle.specs.InsertAnswer.{IsFaultOf};

use crate::edits::{InsertFault, exchange_body, exchange_crc, insert_block};
use crate::shape::{ShapeFault, bundle_size, spelled_size};
use bp_blocks::Block;
use bp_crc::CheckKind;
use bp_primary::Primary;
use cbor_profile::{BUNDLE_LIMIT, Bytes, List, NoMemory};
use std::alloc::Global;
use std::marker::Model;

/// A bundle: a primary block and canonical blocks (RFC 9171, section 4.1). A contract sees it as these.
#[derive(Debug, Drop)]
pub struct Bundle {
    primary: Primary,
    blocks: List<Block>,
    size: u64,
}

impl Model for Bundle {
    ghost use Rattle.std.specs.Prelude.{◌≡◌, length};
    ghost use Rattle.bp_bundle.specs.Shape.{Contents};
    ghost use Rattle.bp_bundle.specs.Spelling.{IsBundle, spelling};

    ghost Value = { Contents };

    ghost view = { λ b. record { primary = b.primary; blocks = b.blocks } };

    ghost invariant = { λ b. IsBundle (record { primary = b.primary; blocks = b.blocks })
        × (b.size ≡ length (spelling (record { primary = b.primary; blocks = b.blocks }))) };
}

impl Bundle {
    /// The bundle of these blocks. Takes no memory. A refusal hands nothing back.
    pub fn of(primary: Primary, blocks: List<Block>) -> Result<Bundle, ShapeFault>
        ensures ok { IfOk result (λ bundle. bundle ≡ record { primary = primary; blocks = blocks }) }
        // Which fault it is, or none.
        ensures exact { MatchResult result (λ _. shape_fault (record { primary = primary; blocks = blocks }) ≡ None)
            (λ fault. shape_fault (record { primary = primary; blocks = blocks }) ≡ Some fault) }
        ensures shape { IfOk result IsBundle }
        // A bundle isn't refused.
        ensures found { IsBundle (record { primary = primary; blocks = blocks }) → IsOk result }
    {
        match bundle_size(&primary, blocks.items()) {
            Ok(size) => Ok(Bundle {
                primary,
                blocks,
                size,
            }),
            Err(fault) => Err(fault),
        }
    }

    /// The primary block. Takes no memory.
    pub fn primary(&self) -> &Primary
        ensures { result.now ≡ self.now.primary }
    {
        &self.primary
    }

    /// The canonical blocks in their order. Takes no memory.
    pub fn blocks(&self) -> &[Block]
        ensures blocks { result.now ≡ self.now.blocks }
        ensures shape { IsBundle self.now }
    {
        self.blocks.items()
    }

    /// The payload: the body of the last block. Takes no memory.
    pub fn payload(&self) -> &[u8]
        ensures payload { result.now ≡ payload self.now }
        ensures shape { IsBundle self.now }
    {
        match self.blocks.items().last() {
            Some(block) => block.body.as_slice(),
            None => &[],
        }
    }

    /// How many bytes the spelling has. It is kept, and not computed again.
    pub fn size(&self) -> u64
        ensures size { result ≡ length (spelling self.now) }
        ensures shape { IsBundle self.now }
    {
        self.size
    }

    /// Where the block with this number stands, if there is one. Takes no memory.
    pub fn index_of(&self, number: u64) -> Option<usize>
        ensures { result ≡ position (λ block. block.number == number) self.now.blocks }
    {
        self.blocks()
            .iter()
            .position(|block| block.number == number)
    }

    /// Appends the spelling, or a part of it for want of memory.
    #[tactic(auto, unfolding(crate::specs::Spelling::spelling))]
    fn append(&self, out: &mut Bytes) -> Result<(), NoMemory>
        ensures ok { OnOk result (out.new ≡ out.old ++ spelling self.now) }
        ensures err { OnErr result (take (length out.old) out.new ≡ out.old) }
    {
        out.reserve(self.size() as usize)?;
        out.extend(&[BEGIN])?;
        self.primary().put(out)?;
        put_blocks(self.blocks(), out)?;
        out.extend(&[END])
    }

    /// Appends the spelling, or leaves the bytes as they were for want of memory. It asks for the exact room first.
    pub fn encode(&self, out: &mut Bytes) -> Result<(), NoMemory>
        ensures ok { OnOk result (out.new ≡ out.old ++ spelling self.now) }
        ensures err { OnErr result (out.new ≡ out.old) }
    {
        let before = out.len();
        let done = self.append(out);
        if done.is_err() {
            out.truncate(before);
        }
        done
    }

    /// Takes the block at an index out, and hands it back. The payload block stays. Takes no memory.
    pub fn remove(&mut self, index: usize) -> Block
        requires { index + 1 < length self.old.blocks }
        ensures item { result ≡ slice_index_or self.old.blocks index result }
        ensures rest { self.new ≡ record self.old { blocks = remove self.old.blocks index } }
    {
        let block = self.blocks.remove(index);
        self.size = spelled_size(&self.primary, self.blocks.items());
        block
    }

    /// Gives the block with this number this check: 0 is the primary block. Takes no memory.
    pub fn set_crc(&mut self, number: u64, crc: CheckKind)
        requires there { HasNumber number self.old }
        requires room { length (spelling (with_crc number crc self.old)) ≤ BUNDLE_LIMIT }
        ensures { self.new ≡ with_crc number crc self.old }
    {
        exchange_crc(&mut self.primary, &mut self.blocks, number, crc);
        self.size = spelled_size(&self.primary, self.blocks.items());
    }

    /// Gives the block at an index this body, and hands the old one back. An `Err` hands the new one back, and changes
    /// nothing: the spelling would have more bytes than the bundle limit. Takes no memory.
    pub fn replace_body(&mut self, index: usize, body: Bytes) -> Result<Bytes, Bytes>
        requires { index < length self.old.blocks }
        ensures ok { OnOk result (self.new ≡ with_body index body self.old) }
        ensures old { IfOk result (λ old. HoldsAt (λ block. old ≡ block.body) self.old.blocks index) }
        ensures err { OnErr result (self.new ≡ self.old) }
        ensures back { IfErr result (λ back. back ≡ body) }
        ensures exact { IsErr result ↔ (BUNDLE_LIMIT < length (spelling (with_body index body self.old))) }
    {
        let old = exchange_body(&mut self.blocks, index, body);
        let size = spelled_size(&self.primary, self.blocks.items());
        if size > BUNDLE_LIMIT {
            return Err(exchange_body(&mut self.blocks, index, old));
        }
        self.size = size;
        Ok(old)
    }

    /// Puts a block before the one at an index. Both errors drop the block, and change nothing.
    pub fn insert(&mut self, index: usize, block: Block) -> Result<(), InsertFault>
        requires { index < length self.old.blocks }
        ensures ok { OnOk result (self.new ≡ record self.old { blocks = insert self.old.blocks index block }) }
        ensures err { OnErr result (self.new ≡ self.old) }
        // Which fault it is, or none. Memory may run out in each case.
        ensures exact { MatchResult result (λ _. shape_fault (record self.old { blocks = insert self.old.blocks index block }) ≡ None)
            (λ fault. IsFaultOf fault (shape_fault (record self.old { blocks = insert self.old.blocks index block }))) }
    {
        match insert_block(&self.primary, &mut self.blocks, index, block) {
            Ok(size) => {
                self.size = size;
                Ok(())
            }
            Err(fault) => Err(fault),
        }
    }

    /// Its primary block and its canonical blocks. Takes no memory.
    pub fn into_parts(self) -> (Primary, List<Block>)
        ensures parts { self ≡ record { primary = result.0; blocks = result.1 } }
        ensures shape { IsBundle self }
    {
        let Bundle {
            primary,
            blocks,
            size: _size,
        } = self;
        (primary, blocks)
    }

    /// The same bundle again.
    pub fn copy(&self, alloc: Global) -> Result<Bundle, NoMemory>
        ensures { IfOk result (λ copy. copy ≡ self.now) }
    {
        Ok(Bundle {
            primary: self.primary.copy(alloc)?,
            blocks: copy_blocks(alloc, self.blocks.items())?,
            size: self.size,
        })
    }
}

/// The byte before the primary block, and the one after the payload block.
pub(crate) const BEGIN: u8 = 0x9f;

pub(crate) const END: u8 = 0xff;

/// Appends the spellings of blocks, or a part of them for want of memory.
fn put_blocks(blocks: &[Block], out: &mut Bytes) -> Result<(), NoMemory>
    ensures ok { OnOk result (out.new ≡ out.old ++ flat_map canonical.spelling blocks.now) }
    ensures err { OnErr result (take (length out.old) out.new ≡ out.old) }
{
    for block in blocks {
        block.put(out)?;
    }
    Ok(())
}

fn copy_blocks(alloc: Global, blocks: &[Block]) -> Result<List<Block>, NoMemory>
    ensures { IfOk result (λ copy. copy ≡ blocks.now) }
{
    let mut copies = List::new(alloc);
    for block in blocks {
        copies.append(block.copy(alloc)?)?;
    }
    Ok(copies)
}
