//! What reports have besides, totals of runs, and devices after the steps of records.

ghost use Rattle.std.specs.Prelude.{◌≡◌, ◌++◌, ◌∷◌, [], ℕ, List, None, Some, flat_map, map, slice_get};
ghost use Rattle.std.specs.List.{All};
ghost use Rattle.serde_json.specs.Data.{Data};
ghost use Rattle.dsa_device.specs.Running.{Running};
ghost use Rattle.dsa_scenario.specs.Steps.{Visit};
ghost use Rattle.dsa_named.specs.Names.{own_text, AreNameless};
ghost use Rattle.dsa_check.specs.{Lines.{reason_text}, Warnings.{warnings_told, Tells, Warned, Warns}};
ghost use Rattle.dsa_check.specs.declared.finding.{Finding.{Finding}, Reason.{Reason}};
ghost use Rattle.dsa_count.specs.{Totals.{entries_in_turn, ArePeaks, IsPageOf}};
ghost use Rattle.dsa_count.specs.declared.peaks.Gauge.TheVariants.{Allowed, Occupancy, Size, Used};
ghost use Rattle.dsa_count.specs.declared.rendering.Page.{Page};
ghost use Rattle.dsa_saved.specs.{Format.{record_of}, Said.{IsStepRead}, Steps.{HasMade, HaveMade}};

/// What a check finds besides comes after what it found, and of no objects none has a name.
pub fn lists_of_a_check()
    ensures reasons { (old new : List Reason) (texts : List (List ℕ)) → Tells old new texts
        → map reason_text new ≡ map reason_text old ++ texts }
    ensures warnings { (old new : List Finding) (warnings : List Warned) → Warns old new warnings
        → warnings_told new ≡ warnings_told old ++ warnings }
    ensures nameless { (objects : List Data) (d : Data) → AreNameless objects
        → slice_get objects 2 ≡ Some d → own_text d ≡ None }
    ensures no_objects { AreNameless [] }
{}

/// A page of totals has the entries of a run, and the peaks of each gauge.
pub fn pages_of_totals()
    ensures entries { (steps : List Visit) (page : Page) (is : IsPageOf steps page)
        → page.records.items ≡ entries_in_turn steps }
    ensures occupancies { (steps : List Visit) (page : Page) (is : IsPageOf steps page)
        → ArePeaks Occupancy steps page.occupancies.items }
    ensures sizes { (steps : List Visit) (page : Page) (is : IsPageOf steps page)
        → ArePeaks Size steps page.sizes.items }
    ensures used { (steps : List Visit) (page : Page) (is : IsPageOf steps page)
        → ArePeaks Used steps page.used.items }
    ensures allowed { (steps : List Visit) (page : Page) (is : IsPageOf steps page)
        → ArePeaks Allowed steps page.allowed.items }
{}

/// The steps of records are all that is new in a device.
pub fn devices_after_records()
    ensures history { (said : List ℕ) (old new : Running) (made : HaveMade said old new)
        → new.history ≡ old.history ++ made.steps }
    ensures bytes { (said : List ℕ) (old new : Running) (made : HaveMade said old new)
        → flat_map record_of made.steps ≡ said }
    ensures read { (said : List ℕ) (old new : Running) (made : HaveMade said old new)
        → All IsStepRead made.steps }
    ensures caps { (said : List ℕ) (old new : Running) (made : HaveMade said old new)
        → new.caps ≡ old.caps }
    ensures capacity { (said : List ℕ) (old new : Running) (made : HaveMade said old new)
        → new.capacity ≡ old.capacity }
    ensures room { (said : List ℕ) (old new : Running) (made : HaveMade said old new)
        → new.room ≡ old.room }
    ensures anew { (said : List ℕ) (old new : Running) (made : HaveMade said old new)
        → new.anew ≡ old.anew }
{}

/// So it is with the step of one record.
pub fn devices_after_one_record()
    ensures history { (said : List ℕ) (old new : Running) (made : HasMade said old new)
        → new.history ≡ old.history ++ made.step ∷ [] }
    ensures bytes { (said : List ℕ) (old new : Running) (made : HasMade said old new)
        → record_of made.step ≡ said }
    ensures read { (said : List ℕ) (old new : Running) (made : HasMade said old new)
        → IsStepRead made.step }
    ensures caps { (said : List ℕ) (old new : Running) (made : HasMade said old new)
        → new.caps ≡ old.caps }
    ensures capacity { (said : List ℕ) (old new : Running) (made : HasMade said old new)
        → new.capacity ≡ old.capacity }
    ensures room { (said : List ℕ) (old new : Running) (made : HasMade said old new)
        → new.room ≡ old.room }
    ensures anew { (said : List ℕ) (old new : Running) (made : HasMade said old new)
        → new.anew ≡ old.anew }
{}
