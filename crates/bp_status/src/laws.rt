//! Laws over the definitions of this crate. Each is the contract of a function that does nothing.

ghost use Rattle.std.specs.Prelude.{◌≡◌, ◌≢◌, ◌<◌, ◌∷◌, ◌++◌, ℕ, List, Ok, Err, length, slice_index};
ghost use Rattle.cbor_profile.specs.declared.fault.Fault.{Fault};
ghost use Rattle.cbor_profile.specs.declared.fault.Reason.TheVariants.{Truncated, Trailing};
ghost use Rattle.bp_status.specs.StatusReport.{IsReport, Reads, spelling};
ghost use Rattle.bp_status.specs.Reading.{report_at, read_record};
ghost use Rattle.bp_status.specs.declared.report.Report.{Report};

/// A spelling determines its report, and no spelling is a proper prefix of another.
pub fn reports_have_one_spelling()
    ensures { (a b : Report) (x y : List ℕ) → IsReport a → IsReport b
        → spelling a ++ x ≡ spelling b ++ y → (a ≡ b) × (x ≡ y) }
{}

/// What is spelled is read, whatever follows it; and a record is read exactly where it is spelled so, if its bytes are
/// below 256.
pub fn reports_are_read_as_spelled()
    ensures again { (report : Report) (rest : List ℕ) → IsReport report
        → report_at (spelling report ++ rest) ≡ Ok (report, rest) }
    ensures found { (body : List ℕ) (report : Report) → Reads body report
        → read_record body ≡ Ok report }
    ensures means { (body : List ℕ) (report : Report) → ((i : ℕ) → slice_index body i < 256)
        → read_record body ≡ Ok report → Reads body report }
{}

/// A fault other than bytes that end too early is answered again, with its place, whatever bytes are added. Bytes after a
/// report are a fault at its end.
pub fn faults_stay_the_same()
    ensures fault { (body more : List ℕ) (fault : Fault) → read_record body ≡ Err fault
        → fault.reason ≢ Truncated → read_record (body ++ more) ≡ Err fault }
    ensures trailing { (report : Report) (byte : ℕ) (more : List ℕ) → IsReport report
        → read_record (spelling report ++ byte ∷ more)
        ≡ Err (record { place = length (spelling report); reason = Trailing }) }
{}
