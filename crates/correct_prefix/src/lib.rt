//! Laws of the place at which reading a bundle, an endpoint id or a security block stops: the bytes before the faulty
//! token are correct so far, and with that token they no longer are. Each is the contract of a function that does nothing
//! but name the laws that it follows from.
#![tactic(auto)]

ghost use Rattle.std.specs.Prelude.{◌≡◌, ◌≢◌, ◌<◌, ℕ, List, Err, slice_index};
ghost use Rattle.cbor_profile.specs.declared.fault.Reason.TheVariants.{Truncated};
ghost use Rattle.bp_eid.specs.declared.stop.Stop.{Stop};
ghost use Rattle.bp_eid.specs.Reading.{id_at};
ghost use Rattle.bpsec_asb.specs.Reading.{body_at};
ghost use Rattle.correct_prefix.specs.Prefix.{before_stop, IsToken, IsUnfinished, IsCorrect, IsFaulty, from_stop};
ghost use Rattle.correct_prefix.specs.Spelled.{IsId, IsSpelling};
ghost use Rattle.correct_prefix.specs.Values.{IsTokenOrValue, IsUnfinishedOrValue};

mod bundles;

use bp_eid::laws::ids_are_read_as_spelled;
pub use bundles::faulty_bundles_stand_behind_a_correct_prefix;
use cbor_profile::laws::{
    heads_are_judged_from_the_left, heads_are_read_as_spelled, tokens_are_read_as_spelled,
};

/// The bytes before the token at which reading stops begin the spelling of some id, and with that token they begin
/// none. Where the bytes end too early, they are such a beginning, and behind it a token that isn't whole. One
/// exception: a dtn id's text of fewer than three bytes is refused only at its content, and not at its head, where a
/// longer text's head would go on.
pub fn faulty_ids_stand_behind_a_correct_prefix()
    ensures before { (bytes : List ℕ) (stop : Stop) → ((i : ℕ) → slice_index bytes i < 256)
        → id_at bytes ≡ Err stop
        → IsCorrect IsId (before_stop bytes stop) }
    ensures cut { (bytes : List ℕ) (stop : Stop) → ((i : ℕ) → slice_index bytes i < 256)
        → id_at bytes ≡ Err stop
        → stop.reason ≡ Truncated → IsUnfinished IsId (before_stop bytes stop)
        (from_stop bytes stop) }
    ensures with_it { (bytes : List ℕ) (stop : Stop) → ((i : ℕ) → slice_index bytes i < 256)
        → id_at bytes ≡ Err stop
        → stop.reason ≢ Truncated → IsFaulty IsId IsToken (before_stop bytes stop)
        (from_stop bytes stop) }
{
    heads_are_judged_from_the_left();
    heads_are_read_as_spelled();
    tokens_are_read_as_spelled();
    ids_are_read_as_spelled();
}

/// The bytes before the token at which reading stops begin the spelling of some security block, and with that token
/// they begin none. Where the bytes end too early, they are such a beginning, and behind it a token that isn't whole. A
/// value is one token, up to the byte with which it is refused; of the bytes behind a security block the first is the
/// token. The exception is the same, for the text of a security source.
pub fn faulty_security_blocks_stand_behind_a_correct_prefix()
    ensures before { (body : List ℕ) (stop : Stop) → ((i : ℕ) → slice_index body i < 256)
        → body_at body ≡ Err stop
        → IsCorrect IsSpelling (before_stop body stop) }
    ensures cut { (body : List ℕ) (stop : Stop) → ((i : ℕ) → slice_index body i < 256)
        → body_at body ≡ Err stop
        → stop.reason ≡ Truncated
        → IsUnfinishedOrValue IsSpelling (before_stop body stop) (from_stop body stop) }
    ensures with_it { (body : List ℕ) (stop : Stop) → ((i : ℕ) → slice_index body i < 256)
        → body_at body ≡ Err stop
        → stop.reason ≢ Truncated
        → IsFaulty IsSpelling (IsTokenOrValue IsSpelling) (before_stop body stop)
        (from_stop body stop) }
{
    heads_are_judged_from_the_left();
    heads_are_read_as_spelled();
    tokens_are_read_as_spelled();
    ids_are_read_as_spelled();
}
