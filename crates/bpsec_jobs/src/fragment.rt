//! `fragment`: the bundle cut into fragments.

ghost use Rattle.std.specs.Prelude.{◌≡◌, ◌++◌, length, IfOk, OnOk};
ghost use Rattle.std.specs.List.{flat_map};
ghost use Rattle.bp_bundle.specs.Spelling.{spelling};
ghost use Rattle.bpsec_jobs.specs.Done.{cut_reason, fragmented, pieces_answer, pieces_line};

use crate::job::BundleJob;
use crate::refusals::pieces_refused;
use bp_bundle::Bundle;
use bp_fragments::{CutFault, fragment};
use bpsec_answer::{Answer, PiecesReason, Status};
use cbor_profile::{Bytes, NoMemory};
use std::alloc::Global;

/// The job of `fragment`: how many bytes of payload a fragment has.
#[derive(Clone, Copy)]
pub struct Fragment {
    pub size: u64,
}

/// Appends the spellings of bundles, back to back.
fn put_all(bundles: &[Bundle], out: &mut Bytes) -> Result<(), NoMemory>
    ensures { OnOk result (out.new ≡ out.old ++ flat_map spelling bundles.now) }
{
    for bundle in bundles {
        bundle.encode(out)?;
    }
    Ok(())
}

/// The line that counts fragments and their bytes.
fn pieces_line(alloc: Global, count: usize, bytes: usize) -> Result<Bytes, NoMemory>
    ensures { IfOk result (λ line. line ≡ pieces_line count bytes) }
{
    let line = format!(in alloc; "ok pieces={count} bytes={bytes}\n")?;
    Ok(Bytes::of(line.into_bytes()))
}

/// The answer that is these fragments, and counts them.
fn pieces_answer(alloc: Global, pieces: &[Bundle]) -> Result<Answer, NoMemory>
    ensures { IfOk result (λ answer. answer ≡ pieces_answer pieces.now) }
{
    let mut out = Bytes::new(alloc);
    put_all(pieces, &mut out)?;
    let report = pieces_line(alloc, pieces.len(), out.len())?;
    Ok(Answer {
        status: Status::Done,
        out,
        report,
    })
}

/// The reason of a fault, if it is no want of memory.
fn cut_reason(fault: CutFault) -> Option<PiecesReason>
    ensures { result ≡ cut_reason fault }
{
    match fault {
        CutFault::IsFragment => Some(PiecesReason::IsFragment),
        CutFault::MustNotFragment => Some(PiecesReason::MustNotFragment),
        CutFault::PieceZero => Some(PiecesReason::PieceZero),
        CutFault::TooMany => Some(PiecesReason::TooMany),
        CutFault::TooLong => Some(PiecesReason::TooLong),
        CutFault::NoMemory => None,
    }
}

impl BundleJob for Fragment {
    ghost answer_to = { λ job bundle. fragmented job.size bundle };

    fn answer(&self, alloc: Global, bundle: Bundle) -> Result<Answer, NoMemory> {
        match fragment(alloc, &bundle, self.size) {
            Ok(pieces) => pieces_answer(alloc, pieces.items()),
            Err(fault) => match cut_reason(fault) {
                Some(reason) => pieces_refused(alloc, reason, None),
                None => Err(NoMemory::again()),
            },
        }
    }
}
