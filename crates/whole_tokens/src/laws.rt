//! The law that a bundle's first fault stands at the end of whole tokens.

ghost use Rattle.std.specs.Prelude.{◌≡◌, ◌≢◌, ◌<◌, ℕ, List, Ok, Err, slice_index, take};
ghost use Rattle.std.specs.List.{All};
ghost use Rattle.cbor_profile.specs.declared.fault.Fault.{Fault};
ghost use Rattle.cbor_profile.specs.declared.fault.Reason.TheVariants.{Truncated};
ghost use Rattle.bp_bundle.specs.Shape.{Contents};
ghost use Rattle.bp_bundle.specs.Tokens.{Cursor};
ghost use Rattle.bp_bundle.specs.FirstFault.{read_bundle, read_only};
ghost use Rattle.whole_tokens.specs.Tokens.{Part, IsPart, IsLast, begun, AreTokens, IsUnfinished, EndWithinToken};

use cbor_profile::laws::{
    heads_are_read_as_spelled, heads_have_one_spelling, tokens_are_read_as_spelled,
};

/// The bytes before a bundle's first fault are whole tokens (RFC 8949, section 3): no fault stands within a head or
/// within the content of a string. Bytes that end too early are whole tokens, and behind them less than one. The bytes
/// of a bundle that is read are whole tokens, and a fault of an input that goes on stands behind them.
pub fn faults_stand_at_the_end_of_whole_tokens()
    ensures before { (bytes : List ℕ) (fault : Fault) → ((i : ℕ) → slice_index bytes i < 256)
        → read_bundle bytes ≡ Err fault → fault.reason ≢ Truncated
        → AreTokens (take fault.place bytes) }
    ensures early { (bytes : List ℕ) (fault : Fault) → ((i : ℕ) → slice_index bytes i < 256)
        → read_bundle bytes ≡ Err fault → fault.reason ≡ Truncated → EndWithinToken bytes }
    ensures whole { (bytes : List ℕ) (bundle : Contents) (after : Cursor)
        → ((i : ℕ) → slice_index bytes i < 256)
        → read_bundle bytes ≡ Ok (bundle, after) → AreTokens (take after.at bytes) }
    ensures input { (bytes : List ℕ) (fault : Fault) → ((i : ℕ) → slice_index bytes i < 256)
        → read_only bytes ≡ Err fault → fault.reason ≢ Truncated
        → AreTokens (take fault.place bytes) }
{
    tokens_are_read_as_spelled();
}

/// Whole parts, and behind them less than a token, are whole tokens only where nothing is left, or a string's head
/// alone. So bytes that end within a head, or within the content of a string, aren't whole tokens.
pub fn bytes_that_end_within_a_token_are_not_whole()
    ensures { (parts : List Part) (rest : List ℕ) → All IsPart parts → IsUnfinished rest
        → AreTokens (begun parts rest) → IsLast rest }
{
    heads_have_one_spelling();
    heads_are_read_as_spelled();
}
