//! What a check remarks of a text, and where keys are in it.

ghost use Rattle.std.specs.Prelude.{◌≡◌, ℕ, true, ◌∷◌, [], List, Some, codes, map, slice_range};
ghost use Rattle.std.specs.List.{list_all};
ghost use Rattle.serde_json.specs.Data.{Data};
ghost use Rattle.dsa_scenario.specs.declared.faults.ScenarioFault.TheVariants.{BadDocument, NotJson};
ghost use Rattle.dsa_check.specs.declared.finding.Finding.{Finding};
ghost use Rattle.dsa_check.specs.declared.finding.Reason.TheVariants.{NotUtf8};
ghost use Rattle.dsa_check.specs.declared.places.Spot.{Spot};
ghost use Rattle.dsa_check.specs.declared.remarks.Remark.{Remark};
ghost use Rattle.dsa_check.specs.Members.{is_gap, IsKeyAt};
ghost use Rattle.dsa_check.specs.Remarks.{said, AreRemarksOf, IsFlawAt};

/// Only a finding of what is no JSON has its own place.
pub fn places_of_flaws()
    ensures placed { (finding : Finding)
        → finding.fault ≡ NotJson
        → finding.place.line ≡ Some 2
        → finding.place.column ≡ Some 1
        → IsFlawAt (codes "[\n") finding (record { at = 2; line = 2; column = 1 }) }
    ensures of_a_value { (finding : Finding) (spot : Spot)
        → finding.fault ≡ BadDocument
        → ¬ IsFlawAt (codes "[\n") finding spot }
{}

/// A warning is remarked as one, and a fault as a fault.
pub fn remarks_of_one_finding()
    ensures warning { (finding : Finding) (remarks : List Remark)
        → finding.reasons.items ≡ NotUtf8 ∷ []
        → AreRemarksOf [] [] (finding ∷ []) remarks
        → map (λ one. one.0) (map said remarks) ≡ true ∷ [] }
{}

/// Between a key and its value are only a colon and white space.
pub fn keys_before_values()
    ensures gap { (text key : List ℕ) (d : Data) (begin : ℕ) (at : IsKeyAt text d key begin)
        → list_all is_gap (slice_range text at.end at.value) ≡ true }
{}
