//! What the program answers, made before the first write, and what stands in the way of an answer.

ghost use Rattle.std.specs.Prelude.{◌≡◌, Err, IfOk};
ghost use Rattle.bpsec_answer.specs.Due.{due_of};
ghost use Rattle.bpsec_answer.specs.Lines.{refused};

use crate::lines::line_of;
use crate::status::{Reading, Status};
use cbor_profile::{Bytes, NoMemory};
use std::alloc::Global;

/// A status, the bytes for the output, and the bytes for the report.
#[derive(Debug, Drop)]
pub struct Answer {
    pub status: Status,
    pub out: Bytes,
    pub report: Bytes,
}

/// What stands in the way of an answer.
#[derive(Clone, Copy, Debug, PartialEq, Eq)]
pub enum Hindrance {
    /// The input couldn't be read.
    Input,
    /// A named file couldn't be fetched.
    Shelf,
    /// No memory was left.
    Memory,
}

impl From<NoMemory> for Hindrance {
    ghost use Rattle.bpsec_answer.specs.declared.answer.Hindrance.{Hindrance};

    ghost from_gives = { λ _ hindrance. hindrance ≡ Hindrance.Memory };

    fn from(_error: NoMemory) -> Hindrance {
        Hindrance::Memory
    }
}

impl Hindrance {
    /// The status that it ends with.
    pub fn status(self) -> Status
        ensures { result ≡ (due_of (Err self)).status }
    {
        match self {
            Hindrance::Input => Status::ReadFault(Reading::Input),
            Hindrance::Shelf => Status::ReadFault(Reading::Shelf),
            Hindrance::Memory => Status::NoMemory,
        }
    }

    /// The line that the report gets. It stands ready, since no memory may be left.
    #[tactic(auto, unfolding(crate::specs::Lines::line_of))]
    pub fn line(self) -> &'static str
        ensures { result.now ≡ (due_of (Err self)).report }
    {
        match self {
            Hindrance::Input => "fault read input\n",
            Hindrance::Shelf => "fault read shelf\n",
            Hindrance::Memory => "fault memory\n",
        }
    }
}

/// The answer that refuses by a status: its line goes to the report, and nothing to the output.
pub fn refusal(alloc: Global, status: Status) -> Result<Answer, NoMemory>
    ensures { IfOk result (λ answer. answer ≡ refused status) }
{
    let line = line_of(alloc, status)?;
    Ok(Answer {
        status,
        out: Bytes::new(alloc),
        report: Bytes::of(line.into_bytes()),
    })
}
