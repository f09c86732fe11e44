//! Texts of the dtn scheme (RFC 9171, section 4.2.5.1.1).

ghost use Rattle.std.specs.Prelude.{◌≡◌, ◌==◌, ◌↔◌, not, IsOk, IfOk, IfErr};
ghost use Rattle.std.specs.List.{list_all, list_any, before_first};
ghost use Rattle.bp_eid.specs.DtnText.{IsDtnText, is_dtn_text, node_name, is_visible, slash};

use cbor_profile::{Bytes, NoMemory};
use std::alloc::Global;
use std::marker::Model;

/// The most bytes that the text of a dtn id has.
pub const TEXT_LIMIT: usize = 1_024;

/// What follows `dtn:` in the text of an id that isn't the null id. A contract sees it as the list of its bytes.
#[derive(Debug, Drop)]
pub struct DtnText {
    content: Bytes,
}

impl Model for DtnText {
    ghost use Rattle.std.specs.Prelude.{ℕ, List};
    ghost use Rattle.bp_eid.specs.DtnText.{IsDtnText};

    ghost Value = { List ℕ };

    ghost view = { λ t. t.content };

    ghost invariant = { λ t. IsDtnText t.content };
}

/// Two texts are equal exactly where they are the same bytes.
impl PartialEq for DtnText {
    ghost use Rattle.std.specs.Str.{bytes_eq};
    ghost use Rattle.std.specs.Cmp as Cmp;
    ghost use Rattle.std.specs.Cmp.Lexicographic.{nat_list_eq_equiv};

    ghost eq = { λ a b. bytes_eq a b };

    ghost laws = { Cmp.partial_equiv_from_equiv nat_list_eq_equiv };

    fn eq(&self, other: &DtnText) -> bool {
        self.content == other.content
    }
}

impl Eq for DtnText {
    ghost use Rattle.std.specs.Cmp.Lexicographic.{nat_list_eq_equiv};

    ghost laws = { nat_list_eq_equiv };
}

/// Whether every byte is a visible character.
fn all_visible(text: &[u8]) -> bool
    ensures { result ≡ list_all is_visible text.now }
{
    text.iter().all(|b| 0x21 <= *b && *b <= 0x7e)
}

/// Whether some byte isn't a slash.
fn any_other_than_slash(text: &[u8]) -> bool
    ensures { result ≡ list_any (λ b. not (b == slash)) text.now }
{
    text.iter().any(|b| *b != b'/')
}

/// What stands before the first slash, or all where there is none.
fn before_slash(text: &[u8]) -> &[u8]
    ensures { result.now ≡ before_first (λ b. b == slash) text.now }
{
    match text.iter().position(|b| *b == b'/') {
        Some(end) => &text[..end],
        None => text,
    }
}

/// Whether the bytes are the text of a dtn id.
#[tactic(auto, unfolding(crate::specs::DtnText::is_dtn_text))]
pub(crate) fn is_dtn_text(text: &[u8]) -> bool
    ensures { result ≡ is_dtn_text text.now }
{
    text.len() <= TEXT_LIMIT
        && all_visible(text)
        && text.starts_with(b"//")
        && any_other_than_slash(&text[2..])
}

impl DtnText {
    /// The bytes as the text of a dtn id. Where they aren't one, they are handed back. Takes no memory.
    pub fn of(content: Bytes) -> Result<DtnText, Bytes>
        ensures takes { IsOk result ↔ IsDtnText content }
        ensures same { IfOk result (λ text. text ≡ content) }
        ensures back { IfErr result (λ back. back ≡ content) }
    {
        if is_dtn_text(content.as_slice()) {
            Ok(DtnText { content })
        } else {
            Err(content)
        }
    }

    /// A copy of bytes that are the text of a dtn id.
    pub(crate) fn copied(alloc: Global, text: &[u8]) -> Result<DtnText, NoMemory>
        requires { IsDtnText text.now }
        ensures { IfOk result (λ copy. copy ≡ text.now) }
    {
        let content = Bytes::of(Vec::from_slice(alloc, text)?);
        Ok(DtnText { content })
    }

    /// All the bytes.
    pub fn bytes(&self) -> &[u8]
        ensures value { result.now ≡ self.now }
        ensures rule { IsDtnText self.now }
    {
        self.content.as_slice()
    }

    /// The same text again.
    pub fn copy(&self, alloc: Global) -> Result<DtnText, NoMemory>
        ensures same { IfOk result (λ copy. copy ≡ self.now) }
        ensures rule { IsDtnText self.now }
    {
        Ok(DtnText {
            content: self.content.copy(alloc)?,
        })
    }

    /// The name of the node: what stands after the two slashes up to the next one, or the end. It may be empty.
    #[tactic(auto, unfolding(crate::specs::DtnText::is_dtn_text))]
    pub fn node_name(&self) -> &[u8]
        ensures { result.now ≡ node_name self.now }
    {
        before_slash(&self.bytes()[2..])
    }
}
