//! Confidentiality: calls of `bpsec_scope` and `bpsec_context`, and which service a context has.

ghost use Rattle.std.specs.Prelude.{◌≤◌, ◌^◌, length, IsTrue};
ghost use Rattle.bpsec_scope.specs.Target.{target_of, is_sealed};

use bp_bundle::Bundle;
use bpsec_cmac::cmac_suite;
use bpsec_context::{Judgement, Suite};
use bpsec_scope::{Covered, Header, TargetOf, aad};
use cbor_profile::{Bytes, Gather};
use std::alloc::Global;
use worked_tables::{Fields, Told, Trouble, answer, hex, text};
use worked_values::{Asking, asked, bundle_of, handed, header, pairs, short_key};

pub fn told(alloc: Global, call: &str, row: &mut Fields) -> Told {
    match call {
        "aad" => answer(additional_data(alloc, row)),
        "open" => answer(over_body(alloc, Call::Opens, row)),
        "seal" => answer(over_body(alloc, Call::Seals, row)),
        "service" => answer(service(alloc, row)),
        "scope-of" => answer(scope_of(alloc, row)),
        _ => Ok(None),
    }
}

/// What a confidentiality operation covers, its body sealed.
fn covered_sealed<'a>(bundle: &'a Bundle, target: Header, security: Header) -> Covered<'a>
    ensures { IsTrue (is_sealed (target_of result.target)) }
{
    Covered {
        target: TargetOf::Sealed,
        primary: bundle.primary(),
        target_header: Some(target),
        security_header: security,
    }
}

/// `aad BUNDLE TARGET SECURITY SCOPE`: the additional data of a confidentiality operation: of a bundle's primary block, and
/// the headers of target and security block.
fn additional_data(alloc: Global, row: &mut Fields) -> Result<String, Trouble> {
    let bundle = bundle_of(alloc, row)?;
    let target = header(row)?;
    let security = header(row)?;
    let scope = row.number()?;
    let covered = covered_sealed(&bundle, target, security);
    let mut gather = Gather::new(alloc);
    aad(&covered, scope, &mut gather);
    hex(alloc, gather.finish()?.as_slice())
}

/// How a check judges a body.
fn checked(asked: &Asking, covered: &Covered, body: &Bytes) -> Judgement
    requires sealed { IsTrue (is_sealed (target_of covered.now.target)) }
    requires body { length body.now ≤ 2 ^ 32 }
{
    cmac_suite().check(
        asked.context,
        handed(&asked.key),
        &asked.parameters,
        &asked.results,
        covered,
        body.as_slice(),
    )
}

/// How unsealing judges a body, which it opens where it is right.
fn unsealed(asked: &Asking, covered: &Covered, body: &mut Bytes) -> Judgement
    requires sealed { IsTrue (is_sealed (target_of covered.now.target)) }
    requires body { length body.old ≤ 2 ^ 32 }
{
    cmac_suite().unseal(
        asked.context,
        handed(&asked.key),
        &asked.parameters,
        &asked.results,
        covered,
        body,
    )
}

/// How both judge a body, if they agree, and the body that is left.
fn judged(
    alloc: Global,
    asked: &Asking,
    covered: &Covered,
    body: &mut Bytes,
) -> Result<String, Trouble>
    requires sealed { IsTrue (is_sealed (target_of covered.now.target)) }
    requires body { length body.old ≤ 2 ^ 32 }
{
    let checked = checked(asked, covered, body);
    let judged = unsealed(asked, covered, body);
    if checked != judged {
        return text(alloc, "checked otherwise");
    }
    let left = hex(alloc, body.as_slice())?;
    let left = left.as_str();
    Ok(format!(in alloc; "{judged:?} {left}")?)
}

/// The body sealed and its tag, or why it isn't sealed.
fn sealed_text(
    alloc: Global,
    asked: &Asking,
    covered: &Covered,
    body: &mut Bytes,
) -> Result<String, Trouble>
    requires sealed { IsTrue (is_sealed (target_of covered.now.target)) }
    requires body { length body.old ≤ 2 ^ 32 }
{
    let mut tag = [0; 64];
    match cmac_suite().seal(
        asked.context,
        short_key(asked),
        &asked.parameters,
        covered,
        body,
        &mut tag,
    ) {
        Ok(len) => {
            let tag = hex(alloc, &tag[..len])?;
            let tag = tag.as_str();
            let body = hex(alloc, body.as_slice())?;
            let body = body.as_str();
            Ok(format!(in alloc; "{body} {tag}")?)
        }
        Err(reason) => Ok(format!(in alloc; "{reason:?}")?),
    }
}

/// What is done with a body.
#[derive(Clone, Copy)]
enum Call {
    Opens,
    Seals,
}

/// What a call answers of a body and of what is covered.
fn answered(
    alloc: Global,
    call: Call,
    asked: &Asking,
    covered: &Covered,
    mut body: Bytes,
) -> Result<String, Trouble>
    requires sealed { IsTrue (is_sealed (target_of covered.now.target)) }
{
    if body.len() > 65_536 {
        return Err(Trouble::Row("a short body"));
    }
    match call {
        Call::Opens => judged(alloc, asked, covered, &mut body),
        Call::Seals => sealed_text(alloc, asked, covered, &mut body),
    }
}

/// `open BUNDLE TARGET SECURITY CONTEXT KEY PARAMETERS RESULTS BODY`: how a confidentiality operation is judged, by a check
/// and by unsealing, and the body that is left. `seal BUNDLE TARGET SECURITY CONTEXT KEY PARAMETERS - BODY`: the body sealed
/// and its tag, or why it isn't sealed.
fn over_body(alloc: Global, call: Call, row: &mut Fields) -> Result<String, Trouble> {
    let bundle = bundle_of(alloc, row)?;
    let target = header(row)?;
    let security = header(row)?;
    let asked = asked(alloc, row)?;
    let body = Bytes::of(row.bytes(alloc)?);
    let covered = covered_sealed(&bundle, target, security);
    answered(alloc, call, &asked, &covered, body)
}

/// `service CONTEXT`: its service, and whether its tag may stand in the body.
fn service(alloc: Global, row: &mut Fields) -> Result<String, Trouble> {
    let context = row.signed()?;
    let service = cmac_suite().service_of(context);
    let joins = cmac_suite().joins(context);
    Ok(format!(in alloc; "{service:?} {joins}")?)
}

/// `scope-of CONTEXT PARAMETERS`: the scope flags.
fn scope_of(alloc: Global, row: &mut Fields) -> Result<String, Trouble> {
    let context = row.signed()?;
    let parameters = pairs(alloc, row)?;
    let scope = cmac_suite().scope_of(context, &parameters);
    Ok(format!(in alloc; "{scope}")?)
}
