//! The last step: what is due is written, the output whole before the report. Here alone are write faults.

ghost use Rattle.std.specs.Prelude.{◌≡◌, []};
ghost use Rattle.bpsec_answer.specs.Delivery.{IsDelivered, Takes, sunk_of};

use crate::status::{Status, Writing};
use bp_outside::{Sink, write_all};

/// Writes what is due to the output, and then what is due to the report. Takes no memory.
pub fn deliver<W: Sink, R: Sink>(
    status: Status,
    out_due: &[u8],
    report_due: &[u8],
    out: &mut W,
    report: &mut R,
) -> Status
    ensures delivered { IsDelivered
        (record { status = status; out = out_due.now; report = report_due.now }) result
        (sunk_of W.written W.faults out.old out.new)
        (sunk_of R.written R.faults report.old report.new) }
    ensures untouched_out { out_due.now ≡ [] → out.new ≡ out.old }
    ensures takes_on { Takes (W.takes out.old) out_due.now
        → Takes (R.takes report.old) report_due.now → result ≡ status }
{
    if write_all(out, out_due).is_err() {
        return Status::WriteFault(Writing::Out);
    }
    if write_all(report, report_due).is_err() {
        return Status::WriteFault(Writing::Report);
    }
    status
}
