//! Integrity: calls of `bpsec_scope` and `bpsec_context`.

ghost use Rattle.std.specs.Prelude.{◌≤◌, ◌^◌, length, IsFalse};
ghost use Rattle.bpsec_scope.specs.Target.{target_of, is_sealed, body_of};

use bpsec_cmac::cmac_suite;
use bpsec_context::Suite;
use bpsec_scope::{Covered, Header, TargetOf, ippt};
use cbor_profile::Gather;
use std::alloc::Global;
use worked_tables::{Fields, Told, Trouble, answer, hex};
use worked_values::{asked, bundle_of, handed, header, short_key};

pub fn told(alloc: Global, call: &str, row: &mut Fields) -> Told {
    match call {
        "ippt" => answer(over_target(alloc, Call::Covers, row)),
        "judge" => answer(over_target(alloc, Call::Judges, row)),
        "sign" => answer(over_target(alloc, Call::Signs, row)),
        _ => Ok(None),
    }
}

/// What is done with a target.
#[derive(Clone, Copy)]
enum Call {
    Covers,
    Judges,
    Signs,
}

/// What an integrity operation is about: the header of the target, or none where it is the primary block; its body; and the
/// header of the security block.
#[derive(Drop)]
struct SignedTarget {
    target: Option<Header>,
    body: Vec<u8>,
    security: Header,
}

/// The target of the next fields: `primary`, or `body`, a header and a body; then the header of the security block.
fn target_of_row(alloc: Global, row: &mut Fields) -> Result<SignedTarget, Trouble> {
    let (target, body) = if row.word()? == "primary" {
        (None, Vec::new(alloc))
    } else {
        (Some(header(row)?), row.bytes(alloc)?)
    };
    let security = header(row)?;
    Ok(SignedTarget {
        target,
        body,
        security,
    })
}

/// The text that an integrity operation of this scope covers.
fn covered_text(alloc: Global, scope: u64, covered: &Covered) -> Result<String, Trouble>
    requires { IsFalse (is_sealed (target_of covered.now.target)) }
{
    let mut gather = Gather::new(alloc);
    ippt(covered, scope, &mut gather);
    hex(alloc, gather.finish()?.as_slice())
}

/// How an integrity operation is judged.
fn judged(alloc: Global, row: &mut Fields, covered: &Covered) -> Result<String, Trouble>
    requires unsealed { IsFalse (is_sealed (target_of covered.now.target)) }
    requires body { length (body_of (target_of covered.now.target)) ≤ 2 ^ 32 }
{
    let asked = asked(alloc, row)?;
    let judgement = cmac_suite().judge(
        asked.context,
        handed(&asked.key),
        &asked.parameters,
        &asked.results,
        covered,
    );
    Ok(format!(in alloc; "{judgement:?}")?)
}

/// The tag of an integrity operation, or why there is none.
fn signed(alloc: Global, row: &mut Fields, covered: &Covered) -> Result<String, Trouble>
    requires unsealed { IsFalse (is_sealed (target_of covered.now.target)) }
    requires body { length (body_of (target_of covered.now.target)) ≤ 2 ^ 32 }
{
    let asked = asked(alloc, row)?;
    let mut tag = [0; 64];
    let key = short_key(&asked);
    match cmac_suite().sign(asked.context, key, &asked.parameters, covered, &mut tag) {
        Ok(len) => hex(alloc, &tag[..len]),
        Err(reason) => Ok(format!(in alloc; "{reason:?}")?),
    }
}

/// What a call answers of what is covered.
fn answered(
    alloc: Global,
    call: Call,
    row: &mut Fields,
    covered: &Covered,
) -> Result<String, Trouble>
    requires unsealed { IsFalse (is_sealed (target_of covered.now.target)) }
    requires body { length (body_of (target_of covered.now.target)) ≤ 2 ^ 32 }
{
    match call {
        Call::Covers => covered_text(alloc, row.number()?, covered),
        Call::Judges => judged(alloc, row, covered),
        Call::Signs => signed(alloc, row, covered),
    }
}

/// `ippt BUNDLE TARGET SECURITY SCOPE`: the text that an integrity operation covers, its primary block being the bundle's.
/// `judge BUNDLE TARGET SECURITY CONTEXT KEY PARAMETERS RESULTS`: how it is judged. `sign BUNDLE TARGET SECURITY CONTEXT KEY
/// PARAMETERS -`: its tag, or why there is none.
fn over_target(alloc: Global, call: Call, row: &mut Fields) -> Result<String, Trouble> {
    let bundle = bundle_of(alloc, row)?;
    let given = target_of_row(alloc, row)?;
    if given.body.len() > 65_536 {
        return Err(Trouble::Row("a short body"));
    }
    match given.target {
        None => {
            let covered = Covered {
                target: TargetOf::Primary,
                primary: bundle.primary(),
                target_header: None,
                security_header: given.security,
            };
            answered(alloc, call, row, &covered)
        }
        Some(target) => {
            let covered = Covered {
                target: TargetOf::Body(&given.body),
                primary: bundle.primary(),
                target_header: Some(target),
                security_header: given.security,
            };
            answered(alloc, call, row, &covered)
        }
    }
}
