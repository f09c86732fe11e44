//! What is told of the keys of a ring.

ghost use Rattle.std.specs.Prelude.{◌≡◌, ◌++◌, [], not, OnOk};
ghost use Rattle.std.specs.Option.{option_copied};
ghost use Rattle.bpsec_audit.specs.declared.line.Finding.TheVariants.{UnusedKey};
ghost use Rattle.bpsec_audit.specs.Keys.{equal_before, equal_to, key_lines};
ghost use Rattle.bpsec_audit.specs.Lines.{line, line_if, each_after};

use crate::line::{Finding, add_if, add_of_two};
use bpsec_policy::NamedKey;
use cbor_profile::{Bytes, List, NoMemory};
use std::alloc::Global;

/// What names keys: a policy, or a plan.
pub(crate) trait NamesKeys {
    ghost use Rattle.std.specs.Prelude.{ℕ, Bool, List};

    /// Which keys it names.
    ghost names: { Self → List ℕ → Bool };

    /// Whether it names the key.
    fn names(&self, key: &[u8]) -> bool
        ensures { result ≡ names self.now key.now };
}

/// The first of the keys before it that has a key's bytes.
fn equal_before<'a>(before: &'a [NamedKey], key: &NamedKey) -> Option<&'a NamedKey>
    ensures { option_copied result ≡ equal_before before.now key.now }
{
    before
        .iter()
        .find(|other| other.key.as_slice() == key.key.as_slice())
}

#[tactic(auto, unfolding(crate::specs::Keys::equal_to))]
fn put_equal_to(
    alloc: Global,
    name: &[u8],
    to: Option<&NamedKey>,
    lines: &mut List<Bytes>,
) -> Result<(), NoMemory>
    ensures { OnOk result (lines.new ≡ lines.old ++ equal_to name.now (option_copied to.entry)) }
{
    match to {
        Some(to) => add_of_two(alloc, Finding::EqualKey, name, to.name.as_slice(), lines),
        None => Ok(()),
    }
}

/// What is told of a key, before which these stand: that it is named nowhere, and that one of those has its bytes.
fn put_key(
    alloc: Global,
    is_used: bool,
    before: &[NamedKey],
    key: &NamedKey,
    lines: &mut List<Bytes>,
) -> Result<(), NoMemory>
    ensures { OnOk result (lines.new
        ≡ lines.old ++ (line_if (not is_used) (line UnusedKey key.now.name)
        ++ equal_to key.now.name (equal_before before.now key.now))) }
{
    let name = key.name.as_slice();
    add_if(alloc, !is_used, Finding::UnusedKey, name, lines)?;
    put_equal_to(alloc, name, equal_before(before, key), lines)
}

/// What is told of the keys of a ring.
pub(crate) fn put_keys<N: NamesKeys>(
    alloc: Global,
    named_by: &N,
    keys: &[NamedKey],
    lines: &mut List<Bytes>,
) -> Result<(), NoMemory>
    ensures { OnOk result (lines.new
        ≡ lines.old ++ each_after (key_lines (N.names named_by.now)) [] keys.now) }
{
    for (at, key) in keys.iter().enumerate() {
        let is_used = named_by.names(key.name.as_slice());
        put_key(alloc, is_used, &keys[..at], key, lines)?;
    }
    Ok(())
}
