//! Values of parameters and results.

ghost use Rattle.std.specs.Prelude.{◌≡◌};
ghost use Rattle.std.specs.Option.{option_copied};
ghost use Rattle.bpsec_context.specs.Values.{number_of, content_of};

use cbor_profile::{HeadRead, head_at};

/// The number that the value spells, if it spells one and no more.
#[tactic(auto, unfolding(crate::specs::Values::number_of))]
pub(crate) fn number_of(value: &[u8]) -> Option<u64>
    ensures { result ≡ number_of value.now }
{
    match head_at(value) {
        HeadRead::Whole { head, len } if head.major == 0 && len == value.len() => Some(head.value),
        _ => None,
    }
}

/// The content of the byte string that the value spells, if it spells one and no more.
#[tactic(auto, unfolding(crate::specs::Values::content_of))]
pub(crate) fn content_of(value: &[u8]) -> Option<&[u8]>
    ensures { option_copied result ≡ content_of value.now }
{
    let HeadRead::Whole { head, len } = head_at(value) else {
        return None;
    };
    let content = &value[len..];
    if head.major == 2 && head.value == content.len() as u64 {
        Some(content)
    } else {
        None
    }
}
