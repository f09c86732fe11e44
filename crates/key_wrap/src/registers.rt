//! The steps on the registers (RFC 3394, section 2.2): `check` is the register A, and `groups` are R1 to Rn.

ghost use Rattle.std.specs.Prelude.{◌≡◌, ◌+◌, ◌%◌, ◌≤◌, ◌++◌, length};
ghost use Rattle.aes_core.specs.KeyExpansion.{IsKey};
ghost use Rattle.gf2_polynomial.specs.Bytes.{bytes_sum};
ghost use Rattle.key_wrap.specs.KeyWrap.{registers, step_bytes, with_group, wrap_step, wrap_steps, unwrap_step, unwrap_steps, step_count};

use aes_core::Aes;
use gf2_polynomial::add_bytes;

// Adds the step number, as 8 bytes.
#[tactic(auto, unfolding(crate::specs::KeyWrap::step_bytes))]
fn add_step(check: &mut [u8; 8], t: u64)
    ensures { check.new ≡ bytes_sum check.old (step_bytes t) }
{
    add_bytes(check, &t.to_be_bytes());
}

// A block of two halves.
fn joined(first: &[u8; 8], last: &[u8]) -> [u8; 16]
    requires { length last.now ≡ 8 }
    ensures { result ≡ first.now ++ last.now }
{
    let mut block = [0; 16];
    block[..8].copy_from_slice(first);
    block[8..].copy_from_slice(last);
    block
}

// Writes a register.
fn put_group(groups: &mut [u8], at: usize, group: &[u8])
    requires within { at + 8 ≤ length groups.old }
    requires eight { length group.now ≡ 8 }
    ensures { groups.new ≡ with_group groups.old at group.now }
{
    groups[at..at + 8].copy_from_slice(group);
}

// Step t of wrapping.
fn wrap_step<const NK: usize>(kek: &Aes<NK>, t: usize, check: &mut [u8; 8], groups: &mut [u8])
    requires some { 8 ≤ length groups.old }
    requires whole { length groups.old % 8 ≡ 0 }
    requires step { 1 ≤ t }
    ensures { wrap_step NK kek.now t (registers check.old groups.old)
        ≡ registers check.new groups.new }
{
    let at = 8 * ((t - 1) % (groups.len() / 8));
    let mut block = joined(check, &groups[at..at + 8]);
    kek.encrypt(&mut block);
    check.copy_from_slice(&block[..8]);
    add_step(check, t as u64);
    put_group(groups, at, &block[8..]);
}

// All steps of wrapping.
pub(crate) fn wrap_steps<const NK: usize>(kek: &Aes<NK>, check: &mut [u8; 8], groups: &mut [u8])
    requires some { 8 ≤ length groups.old }
    requires most { length groups.old ≤ 64 }
    requires whole { length groups.old % 8 ≡ 0 }
    ensures { wrap_steps NK kek.now (step_count groups.old) (registers check.old groups.old)
        ≡ registers check.new groups.new }
{
    for t in 1..6 * (groups.len() / 8) + 1 {
        wrap_step(kek, t, check, groups);
    }
}

// Step t of unwrapping.
fn unwrap_step<const NK: usize>(kek: &Aes<NK>, t: usize, check: &mut [u8; 8], groups: &mut [u8])
    requires some { 8 ≤ length groups.old }
    requires whole { length groups.old % 8 ≡ 0 }
    requires step { 1 ≤ t }
    ensures key { IsKey NK kek.now }
    ensures unwrapped { unwrap_step NK kek.now t (registers check.old groups.old)
        ≡ registers check.new groups.new }
{
    let at = 8 * ((t - 1) % (groups.len() / 8));
    add_step(check, t as u64);
    let mut block = joined(check, &groups[at..at + 8]);
    kek.decrypt(&mut block);
    check.copy_from_slice(&block[..8]);
    put_group(groups, at, &block[8..]);
}

// All steps of unwrapping.
pub(crate) fn unwrap_steps<const NK: usize>(kek: &Aes<NK>, check: &mut [u8; 8], groups: &mut [u8])
    requires some { 8 ≤ length groups.old }
    requires most { length groups.old ≤ 64 }
    requires whole { length groups.old % 8 ≡ 0 }
    ensures key { IsKey NK kek.now }
    ensures unwrapped { unwrap_steps NK kek.now (step_count groups.old) (registers check.old groups.old)
        ≡ registers check.new groups.new }
{
    for t in (1..6 * (groups.len() / 8) + 1).rev() {
        unwrap_step(kek, t, check, groups);
    }
}
