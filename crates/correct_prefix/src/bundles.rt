//! The law of the place at which reading a bundle stops.

ghost use Rattle.std.specs.Prelude.{◌≡◌, ◌≢◌, ◌<◌, ℕ, List, Err, slice_index, take, drop};
ghost use Rattle.cbor_profile.specs.declared.fault.Fault.{Fault};
ghost use Rattle.cbor_profile.specs.declared.fault.Reason.TheVariants.{Truncated};
ghost use Rattle.bp_bundle.specs.Shape.{Contents};
ghost use Rattle.bp_bundle.specs.Spelling.{IsBundle};
ghost use Rattle.bp_bundle.specs.FirstFault.{read_bundle};
ghost use Rattle.correct_prefix.specs.Bundles.{IsCorrect, IsCut, IsFaulty, IsUnlimited};

use bp_eid::laws::ids_are_read_as_spelled;
use cbor_profile::laws::{
    heads_are_judged_from_the_left, heads_are_read_as_spelled, tokens_are_read_as_spelled,
};

/// The bytes before the faulty token begin the spelling of some bundle, aside from this profile's limits on blocks and
/// bytes, and with that token no bundle's spelling begins. Bytes that end too early are such a beginning, and behind it a
/// token that isn't whole. One exception: a dtn id's text of fewer than three bytes is refused only at its content, and
/// not at its head.
pub fn faulty_bundles_stand_behind_a_correct_prefix()
    ensures before { (bytes : List ℕ) (fault : Fault) → ((i : ℕ) → slice_index bytes i < 256)
        → read_bundle bytes ≡ Err fault → fault.reason ≢ Truncated
        → IsCorrect (take fault.place bytes) }
    ensures cut { (bytes : List ℕ) (fault : Fault) → ((i : ℕ) → slice_index bytes i < 256)
        → read_bundle bytes ≡ Err fault → fault.reason ≡ Truncated → IsCut bytes }
    ensures with_it { (bytes : List ℕ) (fault : Fault) → ((i : ℕ) → slice_index bytes i < 256)
        → read_bundle bytes ≡ Err fault → fault.reason ≢ Truncated
        → IsFaulty (take fault.place bytes) (drop fault.place bytes) }
    ensures bundles { (bundle : Contents) → IsBundle bundle → IsUnlimited bundle }
{
    heads_are_read_as_spelled();
    heads_are_judged_from_the_left();
    tokens_are_read_as_spelled();
    ids_are_read_as_spelled();
}
