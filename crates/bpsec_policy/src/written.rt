//! The values that a policy's text is made of.

ghost use Rattle.std.specs.Prelude.{◌≡◌, ◌++◌, Some, true, map, option_map, IfOk, IfSome, OnOk, FitsSigned};
ghost use Rattle.std.specs.Int.{w64};
ghost use Rattle.std.specs.List.{AllByRecursion};
ghost use Rattle.std.specs.Str.{IsAscii};
ghost use Rattle.serde_json.specs.Data.{Data, string, number, array, unsigned};
ghost use Rattle.serde_json.specs.Find.{of_integer};
ghost use Rattle.serde_json.specs.View.{view, items_of, members_view};
ghost use Rattle.bp_eid.specs.EndpointId.{Fits};
ghost use Rattle.bp_text.specs.Shape.{is_name};
ghost use Rattle.bpsec_policy.specs.Rules.{allows};
ghost use Rattle.bpsec_policy.specs.Words.{role_word, action_word, service_word};
ghost use Rattle.bpsec_policy.specs.Ranges.{TargetFits};
ghost use Rattle.bpsec_policy.specs.Written.{with, id_tree, target_tree};

use crate::rule::{Action, Role, TargetKind};
use bp_eid::Eid;
use bpsec_asb::Service;
use cbor_profile::{Bytes, NoMemory};
use serde_json::{Map, Value, put};
use std::alloc::Global;

/// What is written as a value.
pub(crate) trait Written {
    /// What is asked of it.
    ghost is_lawful: { Self → Type 0 };

    /// The value that it is written as.
    ghost tree: { Self → Data };

    /// What its type says of it.
    ghost fits: { Self → Type 0 };

    fn value(&self, alloc: Global) -> Result<Value, NoMemory>
        requires { is_lawful self.now }
        ensures value { IfOk result (λ v. view v ≡ tree self.now) }
        ensures fits { OnOk result (fits self.now) };
}

/// Appends the values of all.
pub(crate) fn push_all<T: Written>(
    alloc: Global,
    items: &[T],
    out: &mut Vec<Value>,
) -> Result<(), NoMemory>
    requires { AllByRecursion T.is_lawful items.now }
    ensures values { OnOk result (map view out.new.items
        ≡ map view out.old.items ++ map T.tree items.now) }
    ensures fits { OnOk result (AllByRecursion T.fits items.now) }
{
    match items {
        [] => Ok(()),
        [first, rest @ ..] => {
            out.push(first.value(alloc)?)?;
            push_all(alloc, rest, out)
        }
    }
}

/// The array of the values of all.
pub(crate) fn array_of<T: Written>(alloc: Global, items: &[T]) -> Result<Value, NoMemory>
    requires { AllByRecursion T.is_lawful items.now }
    ensures value { IfOk result (λ v. view v ≡ array (items_of (map T.tree items.now))) }
    ensures fits { OnOk result (AllByRecursion T.fits items.now) }
{
    let mut values = Vec::new(alloc);
    push_all(alloc, items, &mut values)?;
    Ok(Value::from(values))
}

/// Puts a value in, if there is one.
pub(crate) fn put_if(
    alloc: Global,
    members: &mut Map<String, Value>,
    key: &str,
    value: Option<Value>,
) -> Result<(), NoMemory>
    ensures { OnOk result (members_view members.new.entries
        ≡ with key.now (option_map view value) (members_view members.old.entries)) }
{
    if let Some(value) = value {
        put(members, alloc, key, value)?;
    }
    Ok(())
}

/// A text.
pub(crate) fn text_value(alloc: Global, text: &str) -> Result<Option<Value>, NoMemory>
    ensures { IfOk result (λ v. option_map view v ≡ Some (string text.now)) }
{
    Ok(Some(Value::try_from_str(alloc, text)?))
}

/// A text of ASCII characters.
pub(crate) fn ascii_value(alloc: Global, bytes: &[u8]) -> Result<Value, NoMemory>
    requires { IsAscii bytes.now }
    ensures { IfOk result (λ v. view v ≡ string bytes.now) }
{
    match str::from_utf8(bytes) {
        Ok(text) => Ok(Value::try_from_str(alloc, text)?),
        Err(_) => unreachable!(),
    }
}

/// A name.
pub(crate) fn name_value(alloc: Global, name: &Bytes) -> Result<Option<Value>, NoMemory>
    requires { is_name name.now ≡ true }
    ensures { IfOk result (λ v. option_map view v ≡ Some (string name.now)) }
{
    Ok(Some(ascii_value(alloc, name.as_slice())?))
}

/// A name, if there is one.
pub(crate) fn key_value(alloc: Global, key: &Option<Bytes>) -> Result<Option<Value>, NoMemory>
    requires { allows key.now is_name ≡ true }
    ensures { IfOk result (λ v. option_map view v ≡ option_map string key.now) }
{
    match key {
        Some(key) => name_value(alloc, key),
        None => Ok(None),
    }
}

/// The text of an id.
pub(crate) fn id_value(alloc: Global, eid: &Eid) -> Result<Value, NoMemory>
    ensures value { IfOk result (λ v. view v ≡ id_tree eid.now) }
    ensures fits { Fits eid.now }
{
    let _size = eid.size();
    let mut text = Bytes::new(alloc);
    eid.put_text_form(&mut text)?;
    ascii_value(alloc, text.as_slice())
}

/// The text of an id, if there is one.
pub(crate) fn optional_id(alloc: Global, eid: &Option<Eid>) -> Result<Option<Value>, NoMemory>
    ensures value { IfOk result (λ v. option_map view v ≡ option_map id_tree eid.now) }
    ensures fits { OnOk result (IfSome eid.now Fits) }
{
    match eid {
        Some(eid) => Ok(Some(id_value(alloc, eid)?)),
        None => Ok(None),
    }
}

/// A number, if there is one. Takes no memory.
pub(crate) fn number_value(given: Option<u64>) -> Option<Value>
    ensures { option_map view result ≡ option_map (λ n. number (unsigned n)) given }
{
    match given {
        Some(given) => Some(Value::from(given)),
        None => None,
    }
}

/// A signed number, if there is one. Takes no memory.
pub(crate) fn signed_value(given: Option<i64>) -> Option<Value>
    ensures value { option_map view result ≡ option_map (λ z. number (of_integer z)) given }
    ensures fits { IfSome given (λ z. FitsSigned w64 z) }
{
    match given {
        Some(given) => Some(Value::from(given)),
        None => None,
    }
}

/// The word of a role.
pub(crate) fn role_word(role: Role) -> &'static str
    ensures { result.now ≡ role_word role }
{
    match role {
        Role::Acceptor => "acceptor",
        Role::Verifier => "verifier",
        Role::None => "none",
    }
}

/// The word of an action.
pub(crate) fn action_word(action: Action) -> &'static str
    ensures { result.now ≡ action_word action }
{
    match action {
        Action::Keep => "keep",
        Action::Remove => "remove",
        Action::Discard => "discard",
    }
}

/// The word of a service.
pub(crate) fn service_word(service: Service) -> &'static str
    ensures { result.now ≡ service_word service }
{
    match service {
        Service::Bib => "bib",
        Service::Bcb => "bcb",
    }
}

/// The word of a service, if there is one.
pub(crate) fn optional_service_word(
    alloc: Global,
    service: Option<Service>,
) -> Result<Option<Value>, NoMemory>
    ensures { IfOk result (λ v. option_map view v
        ≡ option_map (λ s. string (service_word s)) service) }
{
    match service {
        Some(service) => text_value(alloc, service_word(service)),
        None => Ok(None),
    }
}

/// A target: its number, or the word `primary`.
impl Written for TargetKind {
    ghost is_lawful = { λ _. Unit {0} };

    ghost tree = { target_tree };

    ghost fits = { TargetFits };

    fn value(&self, alloc: Global) -> Result<Value, NoMemory> {
        match self {
            TargetKind::Primary => Ok(Value::try_from_str(alloc, "primary")?),
            TargetKind::Kind(number) => Ok(Value::from(*number)),
        }
    }
}
