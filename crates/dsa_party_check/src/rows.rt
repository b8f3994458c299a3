//! Worked rows: what is told of parties at chosen values, by computation.

ghost use Rattle.std.specs.Prelude.{◌≡◌, [], ◌∷◌, ◌++◌, map, true, false, Some, None, codes};
ghost use Rattle.std.specs.Prelude.{replicate};
ghost use Rattle.serde_json.specs.Data.{null, string};
ghost use Rattle.dsa_scenario.specs.declared.actions.StepKind.TheVariants as kind;
ghost use Rattle.dsa_scenario.specs.declared.faults.ScenarioFault.TheVariants as fault;
ghost use Rattle.dsa_scenario.specs.declared.fields.Form.TheVariants as form;
ghost use Rattle.dsa_scenario.specs.Fields.{bits};
ghost use Rattle.dsa_scenario.specs.Worked.{object_of, poll_step, whole};
ghost use Rattle.dsa_plans.specs.Worked.{batch_step, fill_step, listing, member_that_may_fail};
ghost use Rattle.dsa_plans.specs.Worked.{party};
ghost use Rattle.dsa_check.specs.declared.finding.Aim.TheVariants as aim;
ghost use Rattle.dsa_party_check.specs.declared.complaint.Inside.TheVariants as inside;
ghost use Rattle.dsa_party_check.specs.declared.complaint.Subject.TheVariants as subject;
ghost use Rattle.dsa_party_check.specs.declared.rules.Want.TheVariants as want;
ghost use Rattle.dsa_party_check.specs.Complaints.{plain_complaint};
ghost use Rattle.dsa_party_check.specs.Flaws.{flaws_of_document, led_by};
ghost use Rattle.dsa_party_check.specs.PartyCheck.{first_fault, first_flaw, flaws_that_count};
ghost use Rattle.dsa_party_check.specs.PartyFlaws.{act_complaints, submitter_complaints};
ghost use Rattle.dsa_party_check.specs.PartyLines.{complaint_line};
ghost use Rattle.dsa_party_check.specs.PartyObjects.{complaint_object};
ghost use Rattle.dsa_party_check.specs.Rules.{reason_at, unkept};
ghost use Rattle.dsa_party_check.specs.WorkedParties.{asked_with, beside, faults_found};
ghost use Rattle.dsa_party_check.specs.WorkedParties.{flaw_like, places_told, some_complaint};
ghost use Rattle.dsa_party_check.specs.WorkedParties.{third_place};

/// What is said of values that may not stand at a key.
#[tactic(auto, unfolding(dsa_scenario::specs::Worked::digits_on_literals))]
pub fn reasons_of_values()
    ensures missing { reason_at (codes "do") want.Acts None ≡ codes "\"do\" is missing" }
    ensures stands { reason_at (codes "if") want.Nothing (Some null)
        ≡ codes "\"if\" may not stand here" }
    ensures word { reason_at (codes "busy") want.Busy (Some (string (codes "often")))
        ≡ codes "\"busy\" is \"often\", \"give-up\" or \"again\" is wanted" }
    ensures long_word { reason_at (codes "busy") want.Busy (Some (string (replicate 41 0x61)))
        ≡ codes "\"busy\" is a text, \"give-up\" or \"again\" is wanted" }
    ensures number { reason_at (codes "queue") (want.Needed (bits 16)) (Some (whole 65536))
        ≡ codes "\"queue\" is 65536, at most 65535 is wanted" }
    ensures truth { reason_at (codes "fault") want.Fault (Some null)
        ≡ codes "\"fault\" is null, true, false or \"may\" is wanted" }
    ensures odd { reason_at (codes "desc") (want.Needed form.Digits) (Some (string (codes "000")))
        ≡ codes "\"desc\" has 3 digits, an even number is wanted" }
    ensures digit { reason_at (codes "desc") (want.Needed form.Digits) (Some (string (codes "0x")))
        ≡ codes "\"desc\" has no hexadecimal digit at character 2" }
    ensures points { map (λ found. (unkept inside.All (codes "do") want.Acts found).aim)
        (None ∷ Some null ∷ [])
        ≡ aim.Whole ∷ aim.Value ∷ [] }
{}

/// What is told of steps.
#[tactic(auto, unfolding(dsa_scenario::specs::Worked::digits_on_literals, hex::proofs::OnLiterals::hex_on_literals, crate::specs::PartyFlaws::act_complaints))]
pub fn complaints_of_steps()
    ensures right { submitter_complaints 0 (fill_step []) ≡ [] }
    ensures retry { places_told (submitter_complaints 3 (fill_step ((codes "fault", whole 1) ∷ [])))
        ≡ (
          inside.Step 3 (Some kind.Movdir),
          codes "\"fault\" is 1, true, false or \"may\" is wanted",
        )
        ∷ [] }
    ensures no_submission { places_told (submitter_complaints 0 (object_of poll_step))
        ≡ (
          inside.Step 0 (Some kind.Poll),
          codes "\"do\" is \"poll\", \"enqcmd\" or \"movdir\" is wanted",
        )
        ∷ [] }
    ensures condition { places_told
        (submitter_complaints 1 (fill_step ((codes "when", null) ∷ [])))
        ≡ (inside.Step 1 (Some kind.Movdir), codes "\"when\" may not stand here") ∷ [] }
    ensures count { places_told (submitter_complaints 1 (batch_step []))
        ≡ (
          inside.Step 1 (Some kind.Movdir),
          codes "\"members\" has 0 items, the descriptor counts 2",
        )
        ∷ [] }
    ensures member { places_told
        (submitter_complaints 1
        (batch_step ((codes "members", listing (member_that_may_fail ∷ null ∷ [])) ∷ [])))
        ≡ (
          inside.Member 1 (Some kind.Movdir) 1,
          codes "null stands here, an object is wanted",
        )
        ∷ [] }
    ensures no_object { places_told (submitter_complaints 2 null)
        ≡ (inside.Step 2 None, codes "null stands here, an object is wanted") ∷ [] }
    ensures act { act_complaints 0 (object_of poll_step) ≡ [] }
    ensures until { places_told
        (act_complaints 4 (object_of ((codes "until", whole 1) ∷ poll_step)))
        ≡ (
          inside.Step 4 (Some kind.Poll),
          codes "\"until\" is 1, \"once\", \"finished\" or \"over\" is wanted",
        )
        ∷ [] }
    ensures no_act { places_told (act_complaints 0 (fill_step []))
        ≡ (
          inside.Step 0 (Some kind.Movdir),
          codes "\"do\" is \"movdir\", \"queue\", \"group\", \"command\", "
              ++ codes "\"poll\" or \"clear\" is wanted",
        )
        ∷ [] }
{}

/// What is told of documents, in its order.
#[tactic(auto, unfolding(hex::proofs::OnLiterals::hex_on_literals, crate::specs::PartyFlaws::act_complaints))]
pub fn flaws_of_documents()
    ensures none { flaws_of_document (beside []) ≡ [] }
    ensures right { flaws_of_document
        (asked_with (party (fill_step [] ∷ []) ∷ []) (party (object_of poll_step ∷ []) ∷ []) [])
        ≡ [] }
    ensures no_object { faults_found (flaws_of_document (beside ((codes "parties", null) ∷ [])))
        ≡ (fault.BadParties, subject.Document) ∷ [] }
    ensures each { faults_found (flaws_of_document
        (asked_with (null ∷ party [] ∷ null ∷ []) (party [] ∷ null ∷ []) []))
        ≡ (fault.BadParty 0, subject.Client 0)
        ∷ (fault.BadParty 2, subject.Client 2)
        ∷ (fault.BadParty 4, subject.Administrator 1)
        ∷ [] }
    ensures many { faults_found (flaws_of_document (asked_with (replicate 17 (party [])) [] []))
        ≡ (fault.TooManyParties, subject.Parties) ∷ [] }
{}

/// The fault that is told leads, and the first flaw is that of what is wrong before what is odd.
pub fn leading_faults()
    ensures same { led_by subject.Parties (fault.BadParty 1) (flaw_like (fault.BadParty 1) ∷ [])
        ≡ flaw_like (fault.BadParty 1) ∷ [] }
    ensures other { faults_found
        (led_by subject.Parties (fault.BadParty 1) (flaw_like (fault.BadParty 2) ∷ []))
        ≡ (fault.BadParty 1, subject.Parties) ∷ (fault.BadParty 2, subject.Parties) ∷ [] }
    ensures alone { faults_found (led_by subject.Document fault.BadParties [])
        ≡ (fault.BadParties, subject.Document) ∷ [] }
    ensures none_counts { first_flaw
        (flaws_that_count false [] (flaw_like fault.BadParties ∷ []))
        ≡ None }
    ensures odd_counts { first_flaw (flaws_that_count true [] (flaw_like fault.BadParties ∷ []))
        ≡ Some fault.BadParties }
    ensures wrong_first { first_flaw
        (flaws_that_count true (flaw_like (fault.BadParty 0) ∷ [])
        (flaw_like fault.BadParties ∷ []))
        ≡ Some (fault.BadParty 0) }
    ensures run_first { first_fault (Some fault.BadCaps) (Some fault.BadParties)
        ≡ Some fault.BadCaps }
    ensures parties_then { first_fault None (Some fault.BadParties) ≡ Some fault.BadParties }
{}

/// The lines of what is told.
#[tactic(auto, unfolding(dsa_scenario::specs::Worked::digits_on_literals))]
pub fn lines_of_complaints()
    ensures step { complaint_line false (fault.BadParty 4) (subject.Administrator 1)
        (some_complaint (inside.Step 2 (Some kind.Poll))) (Some third_place)
        ≡ codes "line 3, column 16, party 4 (admin 1), step 2 (poll): odd\n" }
    ensures member { complaint_line true (fault.BadParty 0) (subject.Client 0)
        (some_complaint (inside.Member 2 None 5)) None
        ≡ codes "warning: party 0 (client 0), step 2, member 5: odd\n" }
    ensures parties { complaint_line false fault.TooManyParties subject.Parties
        (some_complaint inside.All) None
        ≡ codes "parties: odd\n" }
{}

/// The same as JSON objects.
#[tactic(auto, unfolding(dsa_scenario::specs::Worked::digits_on_literals, json::specs::Print::print_from, json::specs::Print::escape_byte))]
pub fn objects_of_complaints()
    ensures member { complaint_object true (fault.BadParty 4)
        (some_complaint (inside.Member 2 (Some kind.Enqcmd) 5)) (Some third_place)
        ≡ codes "{\"line\":3,\"column\":16,\"part\":\"party\",\"party\":4,\"step\":2,"
        ++ codes "\"kind\":\"enqcmd\",\"member\":5,\"key\":\"k\","
        ++ codes "\"level\":\"warning\",\"reason\":\"odd\"}\n" }
    ensures parties { complaint_object false fault.BadParties
        (plain_complaint inside.All (codes "odd")) None
        ≡ codes "{\"part\":\"parties\",\"level\":\"fault\",\"reason\":\"odd\"}\n" }
{}
