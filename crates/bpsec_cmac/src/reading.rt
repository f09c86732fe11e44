//! What parameters and results say.

ghost use Rattle.std.specs.Prelude.{◌≡◌, nat_lt, count_by, find};
ghost use Rattle.std.specs.Option.{option_copied};
ghost use Rattle.bpsec_context.specs.Pairs.{has_id, value_at, value_of};
ghost use Rattle.bpsec_context.specs.Values.{number_of, content_of};
ghost use Rattle.bpsec_cmac.specs.Found.{Finds};
ghost use Rattle.bpsec_cmac.specs.Integrity.{flags_read, result_given};

use bpsec_asb::Pair;
use cbor_profile::{HeadRead, head_at};

/// How an id stands in a list.
#[derive(Clone, Copy)]
pub(crate) enum Found<'a> {
    Absent,
    Once(&'a [u8]),
    Twice,
}

/// Whether two pairs have this id.
fn is_repeated(pairs: &[Pair], id: u64) -> bool
    ensures { result ≡ nat_lt 1 (count_by (has_id id) pairs.now) }
{
    pairs.iter().filter(|pair| pair.id == id).count() > 1
}

/// The first pair with this id.
fn first(pairs: &[Pair], id: u64) -> Option<&Pair>
    ensures { option_copied result ≡ find (has_id id) pairs.now }
{
    pairs.iter().find(|pair| pair.id == id)
}

/// How the id stands in a list, with its value.
#[tactic(auto, unfolding(bpsec_context::specs::Pairs::value_at))]
pub(crate) fn look_up(pairs: &[Pair], id: u64) -> Found<'_>
    ensures { Finds result (value_at id pairs.now) }
{
    if is_repeated(pairs, id) {
        return Found::Twice;
    }
    match first(pairs, id) {
        None => Found::Absent,
        Some(pair) => Found::Once(pair.value.as_slice()),
    }
}

/// The number that the value spells, if it spells one and no more.
#[tactic(auto, unfolding(bpsec_context::specs::Values::number_of))]
fn number_of(value: &[u8]) -> Option<u64>
    ensures { result ≡ number_of value.now }
{
    match head_at(value) {
        HeadRead::Whole { head, len } if head.major == 0 && len == value.len() => Some(head.value),
        _ => None,
    }
}

/// The content of the byte string that the value spells, if it spells one and no more.
#[tactic(auto, unfolding(bpsec_context::specs::Values::content_of))]
fn content_of(value: &[u8]) -> Option<&[u8]>
    ensures { option_copied result ≡ content_of value.now }
{
    let HeadRead::Whole { head, len } = head_at(value) else {
        return None;
    };
    let content = &value[len..];
    if head.major == 2 && head.value == content.len() as u64 {
        Some(content)
    } else {
        None
    }
}

/// The scope flags of well-formed parameters: 7 where they are absent.
pub(crate) fn scope_flags(parameters: &[Pair]) -> Option<u64>
    ensures { result ≡ flags_read parameters.now }
{
    match look_up(parameters, 3) {
        Found::Absent => Some(7),
        Found::Once(value) => number_of(value),
        Found::Twice => None,
    }
}

/// The tag of 16 bytes, if there is one.
pub(crate) fn tag_given(results: &[Pair]) -> Option<&[u8]>
    ensures { option_copied result ≡ value_of (result_given results.now) }
{
    let Found::Once(value) = look_up(results, 1) else {
        return None;
    };
    match content_of(value) {
        Some(content) if content.len() == 16 => Some(content),
        _ => None,
    }
}
