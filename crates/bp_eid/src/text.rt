//! The text of endpoint ids.

ghost use Rattle.std.specs.Prelude.{◌≡◌, ◌≢◌, ◌++◌, ◌↔◌, IsTrue, ℕ, List, length, take, IfOk, IfSome, IfNone, Some, OnOk, OnErr, MatchOption};
ghost use Rattle.std.specs.Fmt.{decimal};
ghost use Rattle.bp_eid.specs.EndpointId.{text_form, Fits};
ghost use Rattle.bp_eid.specs.TextAnswer.{IsPadded, IsNumberOf, AreNumbersOf, IsIdOf, IsIdText};
ghost use Rattle.bp_eid.specs.declared.eid.Eid.{Eid};

use crate::dtn_text::{DtnText, is_dtn_text};
use crate::eid::Eid;
use cbor_profile::{Bytes, NoMemory};
use std::alloc::Global;

/// Appends the decimal digits of a number, or for want of memory the first of them.
fn put_decimal(out: &mut Bytes, number: u64) -> Result<(), NoMemory>
    ensures ok { OnOk result (out.new ≡ out.old ++ decimal number) }
    ensures err { OnErr result (take (length out.old) out.new ≡ out.old) }
{
    if number < 10 {
        return out.extend(&[b'0' + number as u8]);
    }
    put_decimal(out, number / 10)?;
    out.extend(&[b'0' + (number % 10) as u8])
}

/// Whether a sign stands at the front, or a zero before more.
fn is_padded(digits: &[u8]) -> bool
    ensures { IsTrue result ↔ IsPadded digits.now }
{
    let [first, rest @ ..] = digits else {
        return false;
    };
    *first == b'+' || (*first == b'0' && !rest.is_empty())
}

/// The number of 64 bits whose decimal digits these are, without leading zeros, if there is one. Takes no memory.
pub fn number_of(digits: &str) -> Option<u64>
    ensures { IsNumberOf digits.now result }
{
    if is_padded(digits.as_bytes()) {
        return None;
    }
    digits.parse().ok()
}

/// The node number and the service number in the text of an id of the scheme ipn, after `ipn:`.
fn numbers_of(part: &str) -> Option<(u64, u64)>
    ensures { AreNumbersOf part.now result }
{
    let (node, service) = part.split_once('.')?;
    match (number_of(node), number_of(service)) {
        (Some(node), Some(service)) => Some((node, service)),
        _ => None,
    }
}

/// What follows these bytes at the front.
fn after<'a>(text: &'a str, front: &str) -> Option<&'a str>
    ensures { MatchOption result ((rest : List ℕ) → text.now ≢ front.now ++ rest)
        (λ rest. text.now ≡ front.now ++ rest.now) }
{
    text.strip_prefix(front)
}

/// The id whose text this is.
fn parse(alloc: Global, text: &str) -> Result<Option<Eid>, NoMemory>
    ensures means { IfOk result (IsIdOf text.now) }
    ensures memory { OnErr result (IsIdText text.now) }
{
    if text == "dtn:none" {
        return Ok(Some(Eid::Null));
    }
    if let Some(part) = after(text, "dtn:") {
        let part = part.as_bytes();
        if !is_dtn_text(part) {
            return Ok(None);
        }
        return Ok(Some(Eid::Dtn(DtnText::copied(alloc, part)?)));
    }
    let Some(part) = after(text, "ipn:") else {
        return Ok(None);
    };
    match numbers_of(part) {
        Some((node, service)) => Ok(Some(Eid::Ipn { node, service })),
        None => Ok(None),
    }
}

impl Eid {
    /// The id whose text this is, or none where it is the text of no id.
    pub fn parse_text(alloc: Global, text: &str) -> Result<Option<Eid>, NoMemory>
        // What is found has this text.
        ensures some { IfOk result
            (λ found. IfSome found (λ eid. Fits eid × (text.now ≡ text_form eid))) }
        ensures none { IfOk result
            (λ found. IfNone found ((eid : Eid) → Fits eid → text.now ≡ text_form eid → ⊥)) }
        // Every text is found, unless memory runs out, and it runs out only at the text of an id of the scheme dtn.
        ensures found { (eid : Eid) → Fits eid → text.now ≡ text_form eid
            → IfOk result (λ found. found ≡ Some eid) }
        ensures memory { OnErr result (IsIdText text.now) }
    {
        parse(alloc, text)
    }

    /// Appends the text, or for want of memory a part of it.
    #[tactic(auto, unfolding(crate::specs::EndpointId::text_form))]
    fn put_text_parts(&self, out: &mut Bytes) -> Result<(), NoMemory>
        ensures ok { OnOk result (out.new ≡ out.old ++ text_form self.now) }
        ensures err { OnErr result (take (length out.old) out.new ≡ out.old) }
    {
        match self {
            Eid::Null => out.extend(b"dtn:none"),
            Eid::Dtn(text) => {
                out.extend(b"dtn:")?;
                out.extend(text.bytes())
            }
            Eid::Ipn { node, service } => {
                out.extend(b"ipn:")?;
                put_decimal(out, *node)?;
                out.extend(b".")?;
                put_decimal(out, *service)
            }
        }
    }

    /// Appends the text, or leaves the bytes as they were for want of memory.
    pub fn put_text_form(&self, out: &mut Bytes) -> Result<(), NoMemory>
        ensures ok { OnOk result (out.new ≡ out.old ++ text_form self.now) }
        ensures err { OnErr result (out.new ≡ out.old) }
    {
        let before = out.len();
        let put = self.put_text_parts(out);
        out.settle(before, put)
    }
}
