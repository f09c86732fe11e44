//! What a list of parameters or results says of an id.

ghost use Rattle.std.specs.Prelude.{◌≡◌, ◌<◌, nat_lt, count_by, find, length, IsTrue, IfOk};
ghost use Rattle.std.specs.Option.{option_copied, ForSome};
ghost use Rattle.bpsec_context.specs.Pairs.{exactly, has_id, given, value_at, bytes_of, has_length};
ghost use Rattle.bpsec_context.specs.Answers.{IsGiven};
ghost use Rattle.bpsec_context.specs.Values.{number_of};

use crate::values::{content_of, number_of};
use bpsec_asb::Pair;

/// An id stands twice, or has a value that isn't read so.
#[derive(Clone, Copy, Debug)]
pub(crate) struct Malformed;

/// Lengths from `least` to `most`, in whole groups.
#[derive(Clone, Copy, Debug)]
pub(crate) struct Lengths {
    pub(crate) least: usize,
    pub(crate) most: usize,
    pub(crate) group: usize,
}

/// The lengths of a wrapped key.
pub(crate) const WRAPPED: Lengths = Lengths {
    least: 24,
    most: 72,
    group: 8,
};

/// Exactly so many bytes.
pub(crate) fn exactly(len: usize) -> Lengths
    ensures { result ≡ exactly len }
{
    Lengths {
        least: len,
        most: len,
        group: 1,
    }
}

/// Whether two pairs have this id.
fn is_repeated(pairs: &[Pair], id: u64) -> bool
    ensures { result ≡ nat_lt 1 (count_by (has_id id) pairs.now) }
{
    pairs.iter().filter(|pair| pair.id == id).count() > 1
}

/// The first pair with this id.
fn find(pairs: &[Pair], id: u64) -> Option<&Pair>
    ensures { option_copied result ≡ find (has_id id) pairs.now }
{
    pairs.iter().find(|pair| pair.id == id)
}

/// The value of the one pair with this id, if one has it.
#[tactic(auto, unfolding(crate::specs::Pairs::value_at))]
pub(crate) fn value(pairs: &[Pair], id: u64) -> Result<Option<&[u8]>, Malformed>
    ensures { IsGiven option_copied result (value_at id pairs.now) }
{
    if is_repeated(pairs, id) {
        return Err(Malformed);
    }
    match find(pairs, id) {
        None => Ok(None),
        Some(pair) => Ok(Some(pair.value.as_slice())),
    }
}

/// The number of this id, if there is one.
pub(crate) fn number(pairs: &[Pair], id: u64) -> Result<Option<u64>, Malformed>
    ensures { result ≡ given number_of id pairs.now }
{
    match value(pairs, id) {
        Err(malformed) => Err(malformed),
        Ok(None) => Ok(None),
        Ok(Some(value)) => match number_of(value) {
            None => Err(Malformed),
            Some(number) => Ok(Some(number)),
        },
    }
}

/// The byte string of this id, of one of these lengths, if there is one.
pub(crate) fn bytes(pairs: &[Pair], id: u64, lengths: Lengths) -> Result<Option<&[u8]>, Malformed>
    requires { 0 < lengths.group }
    ensures means { IsGiven option_copied result (given (bytes_of lengths) id pairs.now) }
    ensures fits { IfOk result (λ content.
        ForSome content (λ bytes. IsTrue (has_length lengths (length bytes.now)))) }
{
    match value(pairs, id) {
        Err(malformed) => Err(malformed),
        Ok(None) => Ok(None),
        Ok(Some(value)) => match content_of(value) {
            None => Err(Malformed),
            Some(content) => {
                if has_length(lengths, content.len()) {
                    Ok(Some(content))
                } else {
                    Err(Malformed)
                }
            }
        },
    }
}

/// Whether it is one of these lengths.
fn has_length(lengths: Lengths, len: usize) -> bool
    requires { 0 < lengths.group }
    ensures { result ≡ has_length lengths len }
{
    lengths.least <= len && len <= lengths.most && len % lengths.group == 0
}
