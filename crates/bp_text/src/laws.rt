//! Laws over the definitions of this crate, each the contract of a function that does nothing.

ghost use Rattle.std.specs.Prelude.{◌≡◌, ◌+◌, ◌<◌, ℕ, List, Some, Ok, Err, IsOk, Bool, true, false, map, take, length};
ghost use Rattle.std.specs.List.{IsDistinct, AllByRecursion, list_all};
ghost use Rattle.std.specs.Str.{bytes_eq};
ghost use Rattle.serde_json.specs.Data.{Data};
ghost use Rattle.bp_eid.specs.EndpointId.{text_form, Fits};
ghost use Rattle.bp_eid.specs.declared.eid.Eid.{Eid};
ghost use Rattle.bp_text.specs.declared.fault.TextFault.{TextFault};
ghost use Rattle.bp_text.specs.IdText.{id_of_text};
ghost use Rattle.bp_text.specs.Shape.{is_listed};
ghost use Rattle.bp_text.specs.Entries.{entries_at, name_of, names_of};

use crate::entries::Entry;

/// The text of an id is read as that id, and what is read as an id is the text of it.
pub fn ids_are_read_as_written()
    ensures again { (eid : Eid) → Fits eid → id_of_text (text_form eid) ≡ Some eid }
    ensures means { (text : List ℕ) (eid : Eid) → id_of_text text ≡ Some eid
        → Fits eid × (text ≡ text_form eid) }
{}

/// Where all entries are read there are as many values as entries, no name stands twice among them, and none stood
/// before.
pub fn names_stand_once<E: Entry>()
    ensures all { (version index : ℕ) (taken : List (List ℕ)) (ds : List Data) (xs : List E)
        → entries_at (E.reads version) index taken ds ≡ Ok xs → length xs ≡ length ds }
    ensures once { (version index : ℕ) (taken : List (List ℕ)) (ds : List Data) (xs : List E)
        → entries_at (E.reads version) index taken ds ≡ Ok xs → IsDistinct bytes_eq (names_of ds) }
    ensures new { (version index : ℕ) (taken : List (List ℕ)) (ds : List Data) (xs : List E)
        → entries_at (E.reads version) index taken ds ≡ Ok xs
        → AllByRecursion (λ name. is_listed taken name ≡ false) (names_of ds) }
{}

/// What every entry gives holds of all that is read: a test that each value passes, and its name.
pub fn entries_are_alike<E: Entry>()
    ensures pass { (version index : ℕ) (taken : List (List ℕ)) (ds : List Data) (xs : List E) (test : E → Bool)
        → ((d : Data) (x : E) → E.reads version d ≡ Ok x → test x ≡ true)
        → entries_at (E.reads version) index taken ds ≡ Ok xs → list_all test xs ≡ true }
    ensures names { (version index : ℕ) (taken : List (List ℕ)) (ds : List Data) (xs : List E) (name : E → List ℕ)
        → ((d : Data) (x : E) → E.reads version d ≡ Ok x → name_of d ≡ Some (name x))
        → entries_at (E.reads version) index taken ds ≡ Ok xs → names_of ds ≡ map name xs }
{}

/// A fault among entries is that of one of them, and all before it are read.
pub fn faults_are_the_first<E: Entry>()
    ensures { (version index : ℕ) (taken : List (List ℕ)) (ds : List Data) (fault : TextFault)
        → entries_at (E.reads version) index taken ds ≡ Err fault
        → (k : ℕ) × (k < length ds) × (fault.entry ≡ Some (index + k))
        × IsOk (entries_at (E.reads version) index taken (take k ds)) }
{}
