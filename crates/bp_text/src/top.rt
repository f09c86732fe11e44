//! The top of a text.

ghost use Rattle.std.specs.Prelude.{◌≡◌, ◌≢◌, IfErr, is_some};
ghost use Rattle.cbor_profile.specs.Step.{Gives};
ghost use Rattle.serde_json.specs.View.{view};
ghost use Rattle.bp_text.specs.declared.fault.TextError.TheVariants as errors;
ghost use Rattle.bp_text.specs.Fault.{IsTextError, top};
ghost use Rattle.bp_text.specs.Top.{version_at, is_short};

use crate::fault::{TextError, TextReason};
use crate::field::{list_field, number_field};
use crate::tree::refused;
use serde_json::Value;

/// The version of a text: WrongShape where the top isn't an object with a whole number `version`, Version where it is
/// none of these. Takes no memory.
#[tactic(auto, unfolding(crate::specs::Top::version_at))]
pub fn version_field(tree: &Value, versions: &[u64]) -> Result<u64, TextError>
    ensures exact { Gives IsTextError (λ version. version) result
        (top (version_at versions.now (view tree.now))) }
    ensures quiet { IfErr result (λ e. e ≢ errors.NoMemory) }
{
    match number_field(tree, "version") {
        Some(version) if versions.contains(&version) => Ok(version),
        Some(_) => Err(refused(TextReason::Version)),
        None => Err(refused(TextReason::WrongShape)),
    }
}

/// Whether the list at a key has at most so many values. Takes no memory.
pub fn is_short(tree: &Value, key: &str, most: usize) -> bool
    ensures { result ≡ is_short most key.now (view tree.now) }
{
    match list_field(tree, key) {
        Some(values) => values.len() <= most,
        None => true,
    }
}
