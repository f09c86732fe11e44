//! Step 5: bodies are sealed in place.

ghost use Rattle.std.specs.Prelude.{◌≡◌, ◌≤◌, ◌^◌, ◌++◌, ◌∷◌, [], pos, map, take, find, length, IfOk, IfSome, OnOk, IsTrue, All};
ghost use Rattle.std.specs.Option.{option_copied};
ghost use Rattle.bpsec_scope.specs.View.{parts_of};
ghost use Rattle.bpsec_scope.specs.Target.{target_of, is_sealed};
ghost use Rattle.bpsec_context.specs.Confidentiality as confidentiality;
ghost use Rattle.bpsec_facts.specs.View.{facts};
ghost use Rattle.bpsec_secure.specs.Parameters.{cipher_parameters};
ghost use Rattle.bpsec_facts.specs.Left.{AreShort};
ghost use Rattle.bpsec_secure.specs.Usable.{Ciphers, IsUsable};
ghost use Rattle.bpsec_facts.specs.Left.{primary_left, block_left};
ghost use Rattle.bpsec_secure.specs.Secured.{sealed_parts, protected, with_tag, body_sealed, body_tag, seals, sealed, tag_over, plain_block, kept};
ghost use Rattle.bpsec_secure.specs.Tags.{tag_of_block, AreTags};

use crate::parameters::{cipher_parameters, outer_key};
use bp_blocks::Block;
use bp_primary::Primary;
use bpsec_asb::Pair;
use bpsec_context::Suite;
use bpsec_context::laws::{byte_strings_are_read_as_spelled, numbers_are_read_as_spelled};
use bpsec_facts::{Case, header_of, is_cipher, is_in, new_header, targets_of};
use bpsec_plan::{Cover, Item};
use bpsec_policy::KeyRing;
use bpsec_scope::{Covered, Header, TargetOf};
use cbor_profile::{Bytes, List, NoMemory};
use key_wrap::laws::{unwrapping_undoes_wrapping, wrapped_keys_have_eight_bytes_more};
use std::alloc::Global;

/// The tag over a block's body, or no bytes where it isn't sealed.
#[derive(Debug, Drop)]
pub(crate) struct Tag {
    /// The number of the block.
    pub(crate) number: u64,
    pub(crate) tag: Bytes,
}

/// What the additional data of a sealed block covers.
fn sealed_covered(primary: &Primary, header: Header, target: Header) -> Covered<'_>
    ensures parts { parts_of result ≡ sealed_parts primary.now header target }
    ensures sealed { IsTrue (is_sealed (target_of result.target)) }
{
    Covered {
        target: TargetOf::Sealed,
        primary,
        target_header: Some(target),
        security_header: header,
    }
}

/// Seals a body in place, with its tag at the front of `tag`, and answers the tag's length.
fn seal<S: Suite>(
    ring: &KeyRing,
    suite: &S,
    cover: &Cover,
    vector: &[u8],
    parameters: &[Pair],
    covered: &Covered,
    body: &mut Bytes,
    tag: &mut [u8; 64],
) -> usize
    requires suite { S.sealed (pos 2) ≡ confidentiality.sealed }
    requires parameters { parameters.now ≡ cipher_parameters ring.now cover.now vector.now }
    requires usable { Ciphers ring.now cover.now vector.now }
    requires sealed { IsTrue (is_sealed (target_of covered.now.target)) }
    requires body { length body.old ≤ 2 ^ 32 }
    ensures len { result ≤ 64 }
    ensures made { protected ring.now cover.now vector.now (parts_of covered.now) body.old
        ≡ record { ciphertext = body.new; tag = take result tag.new } }
{
    numbers_are_read_as_spelled();
    byte_strings_are_read_as_spelled();
    unwrapping_undoes_wrapping();
    wrapped_keys_have_eight_bytes_more();
    let key = outer_key(ring, cover);
    match suite.seal(2, key, parameters, covered, body, tag) {
        Ok(len) => len,
        Err(_) => unreachable!(),
    }
}

/// Appends the tag where it stands in the body.
fn append_tag(body: &mut Bytes, tag_in_body: bool, tag: &[u8]) -> Result<(), NoMemory>
    ensures { OnOk result (body.new
        ≡ with_tag tag_in_body (record { ciphertext = body.old; tag = tag.now })) }
{
    if tag_in_body {
        body.extend(tag)
    } else {
        Ok(())
    }
}

/// Seals a body by a bcb item, and answers its tag.
fn seal_by<S: Suite>(
    alloc: Global,
    case: &Case,
    suite: &S,
    primary: &Primary,
    item: &Item,
    target: Header,
    body: &mut Bytes,
) -> Result<Bytes, NoMemory>
    requires suite { S.sealed (pos 2) ≡ confidentiality.sealed }
    requires primary { primary.now ≡ primary_left (facts case.now) }
    requires usable { IsUsable case.now.ring.now item.now }
    requires body { length body.old ≤ 2 ^ 32 }
    ensures body { OnOk result (body.new ≡ body_sealed (facts case.now) item.now target body.old) }
    ensures tag { IfOk result (λ tag. tag ≡ body_tag (facts case.now) item.now target body.old) }
{
    match item {
        Item::Bcb {
            cover,
            iv,
            tag_in_body,
            ..
        } => {
            let covered = sealed_covered(primary, new_header(item), target);
            let vector = iv.as_slice();
            let parameters = cipher_parameters(alloc, case.ring, cover, vector)?;
            let mut room = [0; 64];
            let len = seal(
                case.ring,
                suite,
                cover,
                vector,
                parameters.items(),
                &covered,
                body,
                &mut room,
            );
            let tag = &room[..len];
            append_tag(body, *tag_in_body, tag)?;
            Ok(Bytes::of(Vec::from_slice(alloc, tag)?))
        }
        Item::Bib(_) | Item::Split(_) => Ok(Bytes::new(alloc)),
    }
}

/// The item that seals the block of this number.
fn sealing_item(items: &[Item], number: u64) -> Option<&Item>
    ensures { option_copied result ≡ find (seals number) items.now }
{
    items.iter().find(|item| seals(number, item))
}

fn seals(number: u64, item: &Item) -> bool
    ensures { result ≡ seals number item.now }
{
    is_cipher(item) && is_in(targets_of(item), number)
}

/// The same, one that can seal.
fn usable_item<'a>(case: &Case<'a>, number: u64) -> Option<&'a Item>
    requires { All (IsUsable case.now.ring.now) case.now.items.now }
    ensures value { option_copied result ≡ find (seals number) case.now.items.now }
    ensures usable { IfSome (option_copied result) (IsUsable case.now.ring.now) }
{
    sealing_item(case.items, number)
}

/// Seals a block, where an item seals it, and answers its tag.
#[tactic(auto, unfolding(crate::specs::Secured::sealed, crate::specs::Secured::tag_over))]
fn seal_block<S: Suite>(
    alloc: Global,
    case: &Case,
    suite: &S,
    primary: &Primary,
    block: &mut Block,
) -> Result<Bytes, NoMemory>
    requires suite { S.sealed (pos 2) ≡ confidentiality.sealed }
    requires primary { primary.now ≡ primary_left (facts case.now) }
    requires usable { All (IsUsable case.now.ring.now) case.now.items.now }
    requires body { length block.old.body ≤ 2 ^ 32 }
    ensures block { OnOk result (block.new ≡ sealed (facts case.now) block.old) }
    ensures tag { IfOk result (λ tag. tag ≡ tag_over (facts case.now) block.old) }
{
    match usable_item(case, block.number) {
        Some(item) => {
            let target = header_of(block);
            seal_by(alloc, case, suite, primary, item, target, &mut block.body)
        }
        None => Ok(Bytes::new(alloc)),
    }
}

/// Seals a block, where an item seals it, and appends its entry.
fn seal_next<S: Suite>(
    alloc: Global,
    case: &Case,
    suite: &S,
    primary: &Primary,
    block: &mut Block,
    tags: &mut List<Tag>,
) -> Result<(), NoMemory>
    requires suite { S.sealed (pos 2) ≡ confidentiality.sealed }
    requires primary { primary.now ≡ primary_left (facts case.now) }
    requires usable { All (IsUsable case.now.ring.now) case.now.items.now }
    requires body { length block.old.body ≤ 2 ^ 32 }
    ensures block { OnOk result (block.new ≡ sealed (facts case.now) block.old) }
    ensures tag { OnOk result (tags.new
        ≡ tags.old ++ tag_of_block (facts case.now) block.old ∷ []) }
{
    let number = block.number;
    let tag = seal_block(alloc, case, suite, primary, block)?;
    tags.append(Tag { number, tag })
}

/// Seals the blocks that items seal, and appends an entry for each block.
pub(crate) fn seal_blocks<S: Suite>(
    alloc: Global,
    case: &Case,
    suite: &S,
    primary: &Primary,
    blocks: &mut List<Block>,
    tags: &mut List<Tag>,
) -> Result<(), NoMemory>
    requires suite { S.sealed (pos 2) ≡ confidentiality.sealed }
    requires primary { primary.now ≡ primary_left (facts case.now) }
    requires usable { All (IsUsable case.now.ring.now) case.now.items.now }
    requires bodies { AreShort blocks.old }
    ensures blocks { OnOk result (blocks.new ≡ map (sealed (facts case.now)) blocks.old) }
    ensures tags { OnOk result (tags.new
        ≡ tags.old ++ map (tag_of_block (facts case.now)) blocks.old) }
{
    for block in blocks.items_mut() {
        seal_next(alloc, case, suite, primary, block, tags)?;
    }
    Ok(())
}

/// Seals the blocks of the bundle and the new ones, and answers the tags over all of them.
pub(crate) fn seal_all<S: Suite>(
    alloc: Global,
    case: &Case,
    suite: &S,
    primary: &Primary,
    old: &mut List<Block>,
    new: &mut List<Block>,
) -> Result<List<Tag>, NoMemory>
    requires suite { S.sealed (pos 2) ≡ confidentiality.sealed }
    requires primary { primary.now ≡ primary_left (facts case.now) }
    requires usable { All (IsUsable case.now.ring.now) case.now.items.now }
    requires old { old.old ≡ map (block_left (facts case.now)) case.now.blocks.now }
    requires new { new.old ≡ map (plain_block (facts case.now)) case.now.items.now }
    requires old_bodies { AreShort old.old }
    requires new_bodies { AreShort new.old }
    ensures old { OnOk result (old.new ≡ map (kept (facts case.now)) case.now.blocks.now) }
    ensures new { OnOk result (new.new
        ≡ map (sealed (facts case.now)) (map (plain_block (facts case.now)) case.now.items.now)) }
    ensures tags { IfOk result (AreTags (facts case.now)) }
{
    let mut tags = List::new(alloc);
    seal_blocks(alloc, case, suite, primary, old, &mut tags)?;
    seal_blocks(alloc, case, suite, primary, new, &mut tags)?;
    Ok(tags)
}
