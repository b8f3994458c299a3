//! What a check tells of the parties of documents, where it is, and its text.

ghost use Rattle.std.specs.Prelude.{◌≡◌, [], ◌∷◌, ◌++◌, map, true, false, Some, None, codes};
ghost use Rattle.std.specs.Prelude.{String, string_bytes};
ghost use Rattle.std.specs.declared.alloc.Global.{Global};
ghost use Rattle.serde_json.specs.Data.{null, string};
ghost use Rattle.dsa_scenario.specs.Worked.{command_step, object_of, poll_step, whole};
ghost use Rattle.dsa_scenario.specs.declared.actions.StepKind.TheVariants as kind;
ghost use Rattle.dsa_scenario.specs.declared.faults.ScenarioFault.TheVariants as fault;
ghost use Rattle.dsa_plans.specs.Worked.{document_for, fill_step, listing, party_with};
ghost use Rattle.dsa_check.specs.Warnings.{near_name};
ghost use Rattle.dsa_check.specs.declared.checking.CheckForm.TheVariants.{Lines, Source};
ghost use Rattle.dsa_check.specs.declared.finding.Aim.TheVariants as aim;
ghost use Rattle.dsa_party_check.specs.declared.complaint.Inside.TheVariants as inside;
ghost use Rattle.dsa_party_check.specs.declared.complaint.Subject.TheVariants as subject;
ghost use Rattle.dsa_party_check.specs.Flaws.{flaws_of_document};
ghost use Rattle.dsa_party_check.specs.OddKeys.{common_names, names_beside, object_names, odd_parties};
ghost use Rattle.dsa_party_check.specs.OddKeys.{submitter_names};
ghost use Rattle.dsa_party_check.specs.PartyCheck.{party_text_in, said_of_flaws};
ghost use Rattle.dsa_party_check.specs.PartyFlaws.{object_flaws, parties_flaws};
ghost use Rattle.dsa_party_check.specs.PartyLines.{complaint_line};
ghost use Rattle.dsa_party_check.specs.Pointing.{value_inside, value_of_subject};
ghost use Rattle.dsa_party_check.specs.Strays.{stray_complaint, stray_complaints};
ghost use Rattle.dsa_party_check.specs.WorkedParties.{beside, faults_found, flaw_like, some_complaint};
ghost use Rattle.dsa_report_rows.specs.Parties.{common_fields, odd_field, unplain_key_text, of_engines, reasons_found};
ghost use Rattle.dsa_report_rows.specs.Parties.{places_found, remark_because};

/// What is wrong with the lists of parties, and then with each party.
#[tactic(auto, unfolding(dsa_scenario::specs::Worked::digits_on_literals, dsa_party_check::specs::PartyFlaws::act_complaints, dsa_party_check::specs::PartyFlaws::engine_complaints))]
pub fn flaws_in_order()
    ensures object { faults_found
        (object_flaws 3
        (object_of
        ((codes "clients", listing (null ∷ [])) ∷ (codes "admins", listing (null ∷ []))
        ∷ (codes "engines", null) ∷ [])))
        ≡ (fault.BadParties, subject.Parties) ∷ (fault.BadParty 0, subject.Client 0)
        ∷ (fault.BadParty 1, subject.Administrator 0) ∷ [] }
    ensures parties { map (λ document. reasons_found (parties_flaws 3 document null))
        (object_of ((codes "parties", null) ∷ []) ∷ object_of [] ∷ [])
        ≡ (codes "\"parties\" is null, an object is wanted" ∷ [])
        ∷ (codes "\"parties\" is missing" ∷ []) ∷ [] }
    ensures engines { map (λ engine. reasons_found (flaws_of_document (beside (of_engines engine))))
        (2 ∷ 3 ∷ [])
        ≡ [] ∷ (codes "item 0 of \"engines\" is 3, at most 2 is wanted" ∷ []) ∷ [] }
    ensures no_caps { reasons_found (flaws_of_document (object_of (of_engines 65535)))
        ≡ codes "item 0 of \"engines\" is 65535, at most 65534 is wanted" ∷ [] }
{}

/// Keys of parties and of their steps that nothing reads. Of a step of another kind none is told.
#[tactic(auto, unfolding(hex::proofs::OnLiterals::hex_on_literals, dsa_check::specs::Worked::near_on_literals))]
pub fn odd_keys()
    ensures none { odd_parties
        (object_of
        ((
          codes "clients",
          listing
              (party_with
              (fill_step
              ((codes "retry", null) ∷ (codes "fault", null) ∷ (codes "members", null)
              ∷ common_fields) ∷ [])
              ((codes "client", null) ∷ (codes "note", null) ∷ []) ∷ []),
        )
        ∷ (
          codes "admins",
          listing
              (party_with
              (object_of (poll_step ++ (codes "until", null) ∷ common_fields)
              ∷ object_of (command_step ++ (codes "busy", null) ∷ common_fields) ∷ [])
              ((codes "note", null) ∷ []) ∷ []),
        )
        ∷ (codes "engines", null) ∷ (codes "note", null) ∷ []))
        ≡ [] }
    ensures each { places_found
        (odd_parties
        (object_of
        ((
          codes "clients",
          listing
              (null
              ∷ party_with
              (fill_step (odd_field ∷ []) ∷ object_of (odd_field ∷ poll_step) ∷ [])
              (odd_field ∷ []) ∷ []),
        )
        ∷ (
          codes "admins",
          listing
              (null
              ∷ party_with
              (fill_step (odd_field ∷ []) ∷ object_of (odd_field ∷ poll_step) ∷ [])
              (odd_field ∷ []) ∷ []),
        )
        ∷ odd_field ∷ [])))
        ≡ (fault.BadParties, subject.Parties, (inside.All, unplain_key_text) ∷ [])
        ∷ (
          fault.BadParty 1,
          subject.Client 1,
          (inside.All, unplain_key_text)
              ∷ (inside.Step 0 (Some kind.Movdir), unplain_key_text) ∷ [],
        )
        ∷ (
          fault.BadParty 3,
          subject.Administrator 1,
          (inside.All, unplain_key_text) ∷ (inside.Step 1 (Some kind.Poll), unplain_key_text)
              ∷ [],
        )
        ∷ [] }
    ensures stray { stray_complaints inside.All (codes "do" ∷ [])
        (object_of ((codes "do", null) ∷ odd_field ∷ []))
        ≡ record {
          inside = inside.All;
          aim = aim.Key;
          name = None;
          reason = unplain_key_text;
        }
        ∷ [] }
    ensures near { stray_complaint inside.All common_names (codes "ds")
        ≡ record {
          inside = inside.All;
          aim = aim.Key;
          name = Some (codes "ds");
          reason = codes "\"ds\" is no key here, but \"do\" is";
        } }
    ensures first_of_near { near_name object_names (codes "enmins") ≡ Some (codes "admins") }
    ensures first_of_a_kind { near_name (names_beside (Some kind.Enqcmd) submitter_names)
        (codes "fasit")
        ≡ Some (codes "pasid") }
{}

/// Where what is told is in a document.
pub fn places_in_documents()
    ensures subjects { map
        (value_of_subject (document_for (whole 5 ∷ whole 6 ∷ []) (whole 7 ∷ whole 8 ∷ [])))
        (subject.Document ∷ subject.Parties ∷ subject.Client 1 ∷ subject.Administrator 0 ∷ [])
        ≡ Some (document_for (whole 5 ∷ whole 6 ∷ []) (whole 7 ∷ whole 8 ∷ []))
        ∷ Some
        (object_of
        ((codes "clients", listing (whole 5 ∷ whole 6 ∷ []))
        ∷ (codes "admins", listing (whole 7 ∷ whole 8 ∷ [])) ∷ []))
        ∷ Some (whole 6) ∷ Some (whole 7) ∷ [] }
    ensures parts { map
        (value_inside
        (party_with
        (whole 5 ∷ object_of ((codes "members", listing (whole 6 ∷ whole 7 ∷ [])) ∷ []) ∷ []) []))
        (inside.Step 0 None ∷ inside.Member 1 None 0 ∷ [])
        ≡ Some (whole 5) ∷ Some (whole 6) ∷ [] }
{}

/// The remarks on a document, and their texts.
#[tactic(auto, unfolding(dsa_scenario::specs::Worked::digits_on_literals))]
pub fn remarks_on_parties()
    ensures wrong_first { said_of_flaws
        (record (flaw_like (fault.BadParty 0)) { complaints = some_complaint inside.All ∷ [] } ∷ [])
        (record (flaw_like (fault.BadParty 1)) { complaints = some_complaint inside.All ∷ [] } ∷ [])
        ≡ (false, fault.BadParty 0, subject.Parties, some_complaint inside.All)
        ∷ (true, fault.BadParty 1, subject.Parties, some_complaint inside.All) ∷ [] }
    ensures member { complaint_line false (fault.BadParty 0) (subject.Client 0)
        (some_complaint (inside.Member 2 (Some kind.Enqcmd) 5)) None
        ≡ codes "party 0 (client 0), step 2 (enqcmd), member 5: odd\n" }
    ensures line { (reason : String Global)
        → party_text_in Lines (codes "{\"a\":1}") (remark_because reason)
        ≡ codes "warning: line 1, column 2, parties: " ++ (string_bytes reason ++ codes "\n") }
    ensures source { (reason : String Global)
        → party_text_in (Source false) (codes "{\"a\":1}") (remark_because reason)
        ≡ codes "warning: line 1, column 2, parties: "
        ++ ((string_bytes reason ++ codes "\n") ++ codes "{\"a\":1}\n ^\n") }
{}
