//! Pieces of lines. Each call appends its piece, and for want of memory perhaps a part of it.

ghost use Rattle.std.specs.Prelude.{◌≡◌, ◌++◌, OnOk};
ghost use Rattle.hex.specs.Hex.{encode_lower};
ghost use Rattle.cbor_profile.specs.Reasons.{reason_name};
ghost use Rattle.bpsec_explain.specs.Texts.{number, signed, flags_item, fault_line};

use cbor_profile::{Bytes, Fault, NoMemory, Reason};
use std::alloc::Global;

/// A number in decimal behind its name.
#[tactic(auto, unfolding(crate::specs::Texts::number))]
pub(crate) fn put_number(alloc: Global, name: &str, n: u64, out: &mut Bytes) -> Result<(), NoMemory>
    ensures { OnOk result (out.new ≡ out.old ++ number name.now n) }
{
    let text = format!(in alloc; "{name}{n}")?;
    out.extend(text.as_bytes())
}

/// The same of a number with a sign.
#[tactic(auto, unfolding(crate::specs::Texts::signed))]
pub(crate) fn put_signed(alloc: Global, name: &str, n: i64, out: &mut Bytes) -> Result<(), NoMemory>
    ensures { OnOk result (out.new ≡ out.old ++ signed name.now n) }
{
    let text = format!(in alloc; "{name}{n}")?;
    out.extend(text.as_bytes())
}

/// Flags.
#[tactic(auto, unfolding(crate::specs::Texts::flags_item))]
pub(crate) fn put_flags(alloc: Global, flags: u64, out: &mut Bytes) -> Result<(), NoMemory>
    ensures { OnOk result (out.new ≡ out.old ++ flags_item flags) }
{
    let text = format!(in alloc; " flags=0x{flags:x}")?;
    out.extend(text.as_bytes())
}

/// Bytes in hexadecimal.
pub(crate) fn put_hex(alloc: Global, bytes: &[u8], out: &mut Bytes) -> Result<(), NoMemory>
    ensures { OnOk result (out.new ≡ out.old ++ encode_lower bytes.now) }
{
    let text = hex::encode(alloc, bytes)?;
    out.extend(text.as_bytes())
}

fn put_reason(of: Reason, out: &mut Bytes) -> Result<(), NoMemory>
    ensures { OnOk result (out.new ≡ out.old ++ reason_name of) }
{
    out.extend(of.name().as_bytes())
}

/// The line of a body that isn't readable.
#[tactic(auto, unfolding(crate::specs::Texts::fault_line))]
pub(crate) fn put_fault(alloc: Global, fault: Fault, out: &mut Bytes) -> Result<(), NoMemory>
    ensures { OnOk result (out.new ≡ out.old ++ fault_line fault) }
{
    put_number(alloc, "unreadable place=", fault.place, out)?;
    out.extend(b" reason=")?;
    put_reason(fault.reason, out)?;
    out.extend(b"\n")
}
