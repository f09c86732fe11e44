//! Laws over the definitions of this crate. Each is the contract of a function that does nothing but name the laws that it
//! follows from.

ghost use Rattle.std.specs.Prelude.{◌≡◌, ◌≢◌, ◌+◌, ◌<◌, ◌≤◌, ◌++◌, ◌⊎◌, ℕ, List, Ok, Err, length, slice_index};
ghost use Rattle.cbor_profile.specs.declared.fault.Fault.{Fault};
ghost use Rattle.cbor_profile.specs.declared.fault.Reason.TheVariants.{Truncated};
ghost use Rattle.bp_eid.specs.EndpointId.{spelling, text_form, Fits};
ghost use Rattle.bp_eid.specs.Reading.{id_at, read_id};
ghost use Rattle.bp_eid.specs.declared.eid.Eid.{Eid};
ghost use Rattle.bp_eid.specs.declared.reading.EidAt.{EidAt};
ghost use Rattle.bp_eid.specs.declared.stop.Stop.{Stop};

use cbor_profile::laws;

/// A spelling determines its id, and no spelling is a proper prefix of another.
pub fn ids_have_one_spelling()
    ensures { (a b : Eid) (x y : List ℕ) → Fits a → Fits b → spelling a ++ x ≡ spelling b ++ y
        → (a ≡ b) × (x ≡ y) }
{
    laws::tokens_are_read_as_spelled();
}

/// A text determines its id.
pub fn ids_have_one_text()
    ensures { (a b : Eid) → Fits a → Fits b → text_form a ≡ text_form b → a ≡ b }
{}

/// What is spelled as an id is read as that id, whatever follows it; and what is read as an id is spelled so, where the
/// bytes are below 256.
pub fn ids_are_read_as_spelled()
    ensures again { (eid : Eid) (rest : List ℕ) → Fits eid
        → id_at (spelling eid ++ rest) ≡ Ok (eid, rest) }
    ensures means { (bytes : List ℕ) (eid : Eid) (rest : List ℕ)
        → ((i : ℕ) → slice_index bytes i < 256) → id_at bytes ≡ Ok (eid, rest)
        → (bytes ≡ spelling eid ++ rest) × Fits eid }
{
    laws::tokens_are_read_as_spelled();
}

/// What follows an id that is read, and what is left at a faulty token, is no more than all that was given.
pub fn reading_stays_within()
    ensures rest { (bytes : List ℕ) (eid : Eid) (rest : List ℕ) → id_at bytes ≡ Ok (eid, rest)
        → length rest ≤ length bytes }
    ensures stop { (bytes : List ℕ) (stop : Stop) → id_at bytes ≡ Err stop
        → stop.left ≤ length bytes }
{}

/// What is read, and where reading stops, stays the same whatever bytes are added, but where the bytes end too early.
pub fn reading_stays_the_same()
    ensures id { (bytes more : List ℕ) (eid : Eid) (rest : List ℕ) → id_at bytes ≡ Ok (eid, rest)
        → id_at (bytes ++ more) ≡ Ok (eid, rest ++ more) }
    ensures stop { (bytes more : List ℕ) (stop : Stop) → id_at bytes ≡ Err stop
        → stop.reason ≢ Truncated
        → id_at (bytes ++ more)
        ≡ Err (record { reason = stop.reason; left = stop.left + length more }) }
{}

/// So an id that is read, and a fault with its place, is answered again whatever bytes are added, but where the bytes end
/// too early.
pub fn answers_stay_the_same()
    ensures id { (bytes more : List ℕ) (at : EidAt) → read_id bytes ≡ Ok at
        → read_id (bytes ++ more) ≡ Ok at }
    ensures fault { (bytes more : List ℕ) (fault : Fault) → read_id bytes ≡ Err fault
        → fault.reason ≢ Truncated → read_id (bytes ++ more) ≡ Err fault }
{}
