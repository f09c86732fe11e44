//! Keys wrapped and unwrapped.

ghost use Rattle.std.specs.Prelude.{◌≡◌, ◌+◌, ◌%◌, ◌≤◌, ◌↔◌, ℕ, List, IsTrue, length, replicate};
ghost use Rattle.std.specs.Bool.{OnTrue, OnFalse};
ghost use Rattle.key_wrap.specs.KeyWrap.{IsWrappable, registers, initial_value, wrap, unwrap};

use crate::laws::unwrapping_undoes_wrapping;
use crate::registers::{unwrap_steps, wrap_steps};
use aes_core::Aes;
use gf2_polynomial::same_bytes;

// The default initial value (RFC 3394, section 2.2.3.1).
const INITIAL_VALUE: [u8; 8] = [0xa6; 8];

/// Wraps a key of 16 to 64 bytes, in whole groups of 8, under the key-encryption key (RFC 3394, section 2.2.1). `out` has 8
/// bytes more.
pub fn wrap_into<const NK: usize>(kek: &Aes<NK>, key: &[u8], out: &mut [u8])
    requires at_least { 16 ≤ length key.now }
    requires at_most { length key.now ≤ 64 }
    requires whole { length key.now % 8 ≡ 0 }
    requires room { length out.old ≡ length key.now + 8 }
    ensures { out.new ≡ wrap NK kek.now key.now }
{
    let (first, groups) = out.split_at_mut(8);
    groups.copy_from_slice(key);
    let mut check = INITIAL_VALUE;
    wrap_steps(kek, &mut check, groups);
    first.copy_from_slice(&check);
}

// Unwraps, whatever the initial value, which is the result.
fn unwrap_registers<const NK: usize>(kek: &Aes<NK>, wrapped: &[u8], out: &mut [u8]) -> [u8; 8]
    requires at_least { 24 ≤ length wrapped.now }
    requires at_most { length wrapped.now ≤ 72 }
    requires whole { length wrapped.now % 8 ≡ 0 }
    requires room { length out.old + 8 ≡ length wrapped.now }
    ensures unwrapped { unwrap NK kek.now wrapped.now ≡ registers result out.new }
    ensures undoes { (key : List ℕ) → IsWrappable key → wrapped.now ≡ wrap NK kek.now key
        → (result ≡ initial_value) × (out.new ≡ key) }
{
    let mut check = [0; 8];
    check.copy_from_slice(&wrapped[..8]);
    out.copy_from_slice(&wrapped[8..]);
    unwrap_steps(kek, &mut check, out);
    unwrapping_undoes_wrapping();
    check
}

/// Unwraps a key that was wrapped under the key-encryption key (RFC 3394, section 2.2.2), and says whether it has the default
/// initial value. `out` has 8 bytes less than the wrapped key, and is all zero where the answer is false.
pub fn unwrap_into<const NK: usize>(kek: &Aes<NK>, wrapped: &[u8], out: &mut [u8]) -> bool
    requires at_least { 24 ≤ length wrapped.now }
    requires at_most { length wrapped.now ≤ 72 }
    requires whole { length wrapped.now % 8 ≡ 0 }
    requires room { length out.old + 8 ≡ length wrapped.now }
    ensures right { IsTrue result ↔ ((unwrap NK kek.now wrapped.now).check ≡ initial_value) }
    ensures key { OnTrue result (out.new ≡ (unwrap NK kek.now wrapped.now).groups) }
    ensures zeros { OnFalse result (out.new ≡ replicate (length out.old) 0) }
    ensures undoes { (key : List ℕ) → IsWrappable key → wrapped.now ≡ wrap NK kek.now key
        → IsTrue result × (out.new ≡ key) }
{
    if same_bytes(&unwrap_registers(kek, wrapped, out), &INITIAL_VALUE) {
        return true;
    }
    out.fill(0);
    false
}
