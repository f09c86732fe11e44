//! Working keys (RFC 3394).

ghost use Rattle.std.specs.Prelude.{◌≡◌, ◌+◌, ◌*◌, not, Some, length, IsTrue};
ghost use Rattle.std.specs.Bool.{OnTrue};
ghost use Rattle.aes_core.specs.KeyExpansion.{IsKeySize};
ghost use Rattle.bpsec_context.specs.Pairs.{has_length, wrapped_lengths};
ghost use Rattle.bpsec_context.specs.Keys.{is_encryption_key, refuses, working_key};

use aes_core::Aes;
use key_wrap::unwrap_into;

/// Whether the key has the length of a key-encryption key.
pub(crate) fn is_encryption_key(key: &[u8]) -> bool
    ensures { result ≡ is_encryption_key key.now }
{
    key.len() == 16 || key.len() == 32
}

/// Unwraps with a key of NK words.
#[tactic(auto, using(crate::proofs::KeyLemmas::unwrapped_with))]
fn unwrap_with<const NK: usize>(key: &[u8], wrapped: &[u8], out: &mut [u8]) -> bool
    requires size { IsKeySize NK }
    requires key { length key.now ≡ 4 * NK }
    requires wrapped { IsTrue (has_length wrapped_lengths (length wrapped.now)) }
    requires room { length out.old + 8 ≡ length wrapped.now }
    ensures refused { refuses (Some wrapped.now) key.now ≡ not result }
    ensures key { OnTrue result (out.new ≡ working_key (Some wrapped.now) key.now) }
{
    let Some(aes) = Aes::<NK>::new(key) else {
        unreachable!();
    };
    unwrap_into(&aes, wrapped, out)
}

/// Unwraps with a key-encryption key, and says whether the initial value is the default one. `out` has 8 bytes less than the
/// wrapped key.
pub(crate) fn unwrap_key(key: &[u8], wrapped: &[u8], out: &mut [u8]) -> bool
    requires key { IsTrue (is_encryption_key key.now) }
    requires wrapped { IsTrue (has_length wrapped_lengths (length wrapped.now)) }
    requires room { length out.old + 8 ≡ length wrapped.now }
    ensures refused { refuses (Some wrapped.now) key.now ≡ not result }
    ensures key { OnTrue result (out.new ≡ working_key (Some wrapped.now) key.now) }
{
    if key.len() == 16 {
        unwrap_with::<4>(key, wrapped, out)
    } else {
        unwrap_with::<8>(key, wrapped, out)
    }
}
