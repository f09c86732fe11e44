//! The line of each status, as the report gets it.

ghost use Rattle.std.specs.Prelude.{◌≡◌, string_bytes, IfOk};
ghost use Rattle.bpsec_answer.specs.Lines.{at_text, broken_line, bundle_line, double_line};
ghost use Rattle.bpsec_answer.specs.Lines.{fault_line, line_of, reason_line, text_line, usage_line};
ghost use Rattle.bpsec_answer.specs.Reasons as names;

use crate::answer::Hindrance;
use crate::status::{PiecesReason, Reading, Refused, Status};
use bp_text::{TextFault, TextReason};
use bpsec_facts::PlanReason;
use cbor_profile::{Fault, NoMemory};
use std::alloc::Global;

/// The line of words that are no line of the grammar.
fn usage_line(alloc: Global, word: u64) -> Result<String, NoMemory>
    ensures { IfOk result (λ line. string_bytes line ≡ usage_line word) }
{
    Ok(format!(in alloc; "usage word={word}\n")?)
}

/// The line of an input that is no bundle.
fn fault_line(alloc: Global, fault: Fault) -> Result<String, NoMemory>
    ensures { IfOk result (λ line. string_bytes line ≡ fault_line fault) }
{
    let place = fault.place;
    let reason = fault.reason.name();
    Ok(format!(in alloc; "refused bundle place={place} reason={reason}\n")?)
}

/// The line of a block confidentiality block that can't be read.
fn broken_line(alloc: Global, block: u64, fault: Fault) -> Result<String, NoMemory>
    ensures { IfOk result (λ line. string_bytes line ≡ broken_line block fault) }
{
    let place = fault.place;
    let reason = fault.reason.name();
    Ok(format!(in alloc; "refused bundle bcb={block} place={place} reason={reason}\n")?)
}

/// The line of a block that is covered twice.
fn double_line(alloc: Global, target: u64, first: u64, second: u64) -> Result<String, NoMemory>
    ensures { IfOk result (λ line. string_bytes line ≡ double_line target first second) }
{
    Ok(format!(in alloc; "refused bundle twice target={target} blocks={first},{second}\n")?)
}

/// The line of a refused input.
fn bundle_line(alloc: Global, refused: Refused) -> Result<String, NoMemory>
    ensures { IfOk result (λ line. string_bytes line ≡ bundle_line refused) }
{
    match refused {
        Refused::Fault(fault) => fault_line(alloc, fault),
        Refused::Fragment => Ok(String::from_str(alloc, "refused bundle fragment\n")?),
        Refused::BrokenBcb { block, fault } => broken_line(alloc, block, fault),
        Refused::DoubleCipher {
            target,
            first,
            second,
        } => double_line(alloc, target, first, second),
    }
}

/// The name of a reason.
fn text_reason_name(reason: TextReason) -> &'static str
    ensures { result.now ≡ names.text_reason_name reason }
{
    match reason {
        TextReason::TooLong => "TooLong",
        TextReason::NotJson => "NotJson",
        TextReason::WrongShape => "WrongShape",
        TextReason::Version => "Version",
        TextReason::TooMany => "TooMany",
        TextReason::UnknownWord => "UnknownWord",
        TextReason::BadHex => "BadHex",
        TextReason::RepeatedName => "RepeatedName",
        TextReason::NotABundle => "NotABundle",
    }
}

/// An index, a number or a place, or a dash.
fn at_text(alloc: Global, at: Option<u64>) -> Result<String, NoMemory>
    ensures { IfOk result (λ text. string_bytes text ≡ at_text at) }
{
    match at {
        Some(at) => Ok(format!(in alloc; "{at}")?),
        None => Ok(String::from_str(alloc, "-")?),
    }
}

/// The line of a text that breaks a rule.
fn text_line(alloc: Global, word: &str, fault: TextFault) -> Result<String, NoMemory>
    ensures { IfOk result (λ line. string_bytes line ≡ text_line word.now fault) }
{
    let entry = at_text(alloc, fault.entry)?;
    let entry = entry.as_str();
    let reason = text_reason_name(fault.reason);
    Ok(format!(in alloc; "refused {word} entry={entry} reason={reason}\n")?)
}

/// The line of a reason, and where.
fn reason_line(alloc: Global, word: &str, reason: &str, at: Option<u64>) -> Result<String, NoMemory>
    ensures { IfOk result (λ line. string_bytes line ≡ reason_line word.now reason.now at) }
{
    let at = at_text(alloc, at)?;
    let at = at.as_str();
    Ok(format!(in alloc; "refused {word} reason={reason} at={at}\n")?)
}

/// The name of a reason.
fn plan_reason_name(reason: PlanReason) -> &'static str
    ensures { result.now ≡ names.plan_reason_name reason }
{
    match reason {
        PlanReason::IsFragment => "IsFragment",
        PlanReason::Unreadable => "Unreadable",
        PlanReason::BadSplit => "BadSplit",
        PlanReason::NoTarget => "NoTarget",
        PlanReason::TargetForbidden => "TargetForbidden",
        PlanReason::AlreadyThere => "AlreadyThere",
        PlanReason::UnderCipher => "UnderCipher",
        PlanReason::NumberTaken => "NumberTaken",
        PlanReason::NoKey => "NoKey",
        PlanReason::KeyLength => "KeyLength",
        PlanReason::IvShared => "IvShared",
        PlanReason::IvRepeated => "IvRepeated",
        PlanReason::NoSharedTarget => "NoSharedTarget",
        PlanReason::PartialOverlap => "PartialOverlap",
        PlanReason::BibLeftPlain => "BibLeftPlain",
        PlanReason::PrimaryCovered => "PrimaryCovered",
        PlanReason::BadFlags => "BadFlags",
        PlanReason::TooManyBlocks => "TooManyBlocks",
        PlanReason::TooLong => "TooLong",
    }
}

/// The name of a reason.
fn pieces_reason_name(reason: PiecesReason) -> &'static str
    ensures { result.now ≡ names.pieces_reason_name reason }
{
    match reason {
        PiecesReason::IsFragment => "IsFragment",
        PiecesReason::MustNotFragment => "MustNotFragment",
        PiecesReason::PieceZero => "PieceZero",
        PiecesReason::TooMany => "TooMany",
        PiecesReason::TooLong => "TooLong",
        PiecesReason::NotFragment => "NotFragment",
        PiecesReason::OtherBundle => "OtherBundle",
        PiecesReason::PastTotal => "PastTotal",
        PiecesReason::OverLimit => "OverLimit",
        PiecesReason::OtherBlocks => "OtherBlocks",
        PiecesReason::Disagree => "Disagree",
        PiecesReason::Gap => "Gap",
    }
}

/// The line of a status. A status that has none of its own gets nothing.
#[tactic(auto, unfolding(crate::specs::Lines::line_of))]
pub fn line_of(alloc: Global, status: Status) -> Result<String, NoMemory>
    ensures { IfOk result (λ line. string_bytes line ≡ line_of status) }
{
    match status {
        Status::Done | Status::Discarded | Status::Found | Status::WriteFault(_) => {
            Ok(String::new(alloc))
        }
        Status::Usage { word } => usage_line(alloc, word),
        Status::BundleRefused(refused) => bundle_line(alloc, refused),
        Status::PolicyRefused(fault) => text_line(alloc, "policy", fault),
        Status::RingRefused(fault) => text_line(alloc, "keys", fault),
        Status::TextRefused(fault) => text_line(alloc, "text", fault),
        Status::ReadFault(Reading::Input) => Ok(String::from_str(alloc, Hindrance::Input.line())?),
        Status::ReadFault(Reading::Shelf) => Ok(String::from_str(alloc, Hindrance::Shelf.line())?),
        Status::NoMemory => Ok(String::from_str(alloc, Hindrance::Memory.line())?),
        Status::PlanRefused { reason, at } => {
            reason_line(alloc, "plan", plan_reason_name(reason), at)
        }
        Status::PiecesRefused { reason, at } => {
            reason_line(alloc, "pieces", pieces_reason_name(reason), at)
        }
    }
}
