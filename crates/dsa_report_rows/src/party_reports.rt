//! Reports on the parties of documents.

ghost use Rattle.std.specs.Prelude.{◌≡◌, ◌+◌, ◌⊎◌, ◌++◌, ℕ, [], List, codes, map, slice_range, None, Some};
ghost use Rattle.std.specs.List.{AllByRecursion};
ghost use Rattle.serde_json.specs.{Data.{Data}, Find.{get}};
ghost use Rattle.dsa_scenario.specs.Document.{IsJson, IsNoJson};
ghost use Rattle.dsa_scenario.specs.declared.faults.ScenarioFault.TheVariants.{BadParty};
ghost use Rattle.dsa_check.specs.Check.{IsCheckReportOf};
ghost use Rattle.dsa_check.specs.{Places.{AreTextOf, IsSpot}, Remarks.{IsAimedAt}};
ghost use Rattle.dsa_check.specs.declared.{checking.Check.{Check}, places.Spot.{Spot}};
ghost use Rattle.dsa_party_check.specs.Complaints.{complained, flawed, Complained, Complains, Finds, Flawed};
ghost use Rattle.dsa_party_check.specs.{QuestionFlaws.{all_flaws_of}, OddKeys.{odd_at_parties}};
ghost use Rattle.dsa_party_check.specs.PartyCheck.{first_fault, first_flaw, flaws_that_count, party_report_text};
ghost use Rattle.dsa_party_check.specs.PartyCheck.{said_of_flaws, said_of_parties, ArePartyRemarks, IsPartyRemarkPlaced};
ghost use Rattle.dsa_party_check.specs.PartyCheck.{IsPartyReport, IsPartyReportOf, IsWholeCheck, SaidOfParties};
ghost use Rattle.dsa_party_check.specs.PartyCheck.{SaysOfParties};
ghost use Rattle.dsa_party_check.specs.Pointing.{value_told, IsComplaintAt};
ghost use Rattle.dsa_party_check.specs.declared.complaint.{Complaint.{Complaint}, Flaw.{Flaw}, Subject.{Subject}};
ghost use Rattle.dsa_party_check.specs.declared.remarks.PartyRemark.{PartyRemark};

/// A report on parties has all that is wrong and all that is odd, in its form.
pub fn reports_on_parties()
    ensures remarked { (check : Check) (bytes text : List ℕ) (document : Data)
        (is : IsPartyReport check bytes document None text)
        → ArePartyRemarks bytes (all_flaws_of document)
        (odd_at_parties (get (codes "parties") document)) is.remarks }
    ensures lines { (check : Check) (bytes text : List ℕ) (document : Data)
        (is : IsPartyReport check bytes document None text)
        → text ≡ party_report_text check.form bytes is.remarks }
    ensures first { (check : Check) (bytes text : List ℕ) (document : Data)
        (is : IsPartyReport check bytes document None text)
        → None ≡ first_flaw (flaws_that_count check.is_strict (all_flaws_of document)
        (odd_at_parties (get (codes "parties") document))) }
    ensures all { (bytes : List ℕ) (wrong odd : List Flawed) (remarks : List PartyRemark)
        → ArePartyRemarks bytes wrong odd remarks
        → map said_of_parties remarks ≡ said_of_flaws wrong odd }
    ensures placed { (bytes : List ℕ) (wrong odd : List Flawed) (remarks : List PartyRemark)
        → ArePartyRemarks bytes wrong odd remarks
        → AllByRecursion (IsPartyRemarkPlaced bytes) remarks }
    ensures no_json { (check : Check) (bytes : List ℕ) → IsNoJson bytes
        → IsPartyReportOf check bytes None [] }
    ensures json { (check : Check) (bytes text : List ℕ) (document : Data) → IsJson bytes document
        → IsPartyReport check bytes document None text → IsPartyReportOf check bytes None text }
    ensures one { (check : Check) (bytes text : List ℕ) → IsPartyReportOf check bytes None text
        → ((IsNoJson bytes × (text ≡ [])) ⊎ ((document : Data) × (IsJson bytes document ×
        IsPartyReport check bytes document None text))) }
    ensures no_fault { (check : Check) (bytes text : List ℕ) (i : ℕ)
        → IsPartyReportOf check bytes (Some (BadParty i)) text
        → (document : Data) × (IsJson bytes document × IsPartyReport check bytes document (Some
        (BadParty i)) text) }
{}

/// A whole check is that of the run and then that of the parties.
pub fn whole_checks()
    ensures run { (check : Check) (bytes text : List ℕ) (is : IsWholeCheck check bytes None text)
        → IsCheckReportOf check bytes is.run_fault is.run_text }
    ensures parties { (check : Check) (bytes text : List ℕ)
        (is : IsWholeCheck check bytes None text)
        → IsPartyReportOf check bytes is.party_fault is.party_text }
    ensures fault { (check : Check) (bytes text : List ℕ) (is : IsWholeCheck check bytes None text)
        → None ≡ first_fault is.run_fault is.party_fault }
    ensures both { (check : Check) (bytes text : List ℕ) (is : IsWholeCheck check bytes None text)
        → text ≡ is.run_text ++ is.party_text }
{}

/// A complaint is placed in the text of its value.
pub fn places_of_complaints()
    ensures json { (bytes : List ℕ) (subject : Subject) (complaint : Complained) (spot : Spot)
        (is : IsComplaintAt bytes subject complaint spot)
        → IsJson bytes is.document }
    ensures part { (bytes : List ℕ) (subject : Subject) (complaint : Complained) (spot : Spot)
        (is : IsComplaintAt bytes subject complaint spot)
        → value_told is.document subject complaint.inside ≡ Some is.value }
    ensures text { (bytes : List ℕ) (subject : Subject) (complaint : Complained) (spot : Spot)
        (is : IsComplaintAt bytes subject complaint spot)
        → AreTextOf is.value (slice_range bytes is.begin is.end) }
    ensures aimed { (bytes : List ℕ) (subject : Subject) (complaint : Complained) (spot : Spot)
        (is : IsComplaintAt bytes subject complaint spot)
        → IsAimedAt (slice_range bytes is.begin is.end) is.value complaint.aim complaint.name
        is.offset }
    ensures at { (bytes : List ℕ) (subject : Subject) (complaint : Complained) (spot : Spot)
        (is : IsComplaintAt bytes subject complaint spot)
        → spot.at ≡ is.begin + is.offset }
    ensures placed { (bytes : List ℕ) (subject : Subject) (complaint : Complained) (spot : Spot)
        (is : IsComplaintAt bytes subject complaint spot)
        → IsSpot bytes spot }
{}

/// What is told besides comes after what was told.
pub fn lists_that_grow()
    ensures complaints { (old new : List Complaint) (more : List Complained)
        → Complains old new more → map complained new ≡ map complained old ++ more }
    ensures flaws { (old new : List Flaw) (more : List Flawed) → Finds old new more
        → map flawed new ≡ map flawed old ++ more }
    ensures remarks { (old new : List PartyRemark) (more : List SaidOfParties)
        → SaysOfParties old new more → map said_of_parties new ≡ map said_of_parties old ++ more }
{}
