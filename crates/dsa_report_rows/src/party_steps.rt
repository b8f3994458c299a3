//! What a check tells of the steps of parties, and of parties by themselves.

ghost use Rattle.std.specs.Prelude.{◌≡◌, [], ◌∷◌, ◌++◌, map, true, false, Some, None, codes};
ghost use Rattle.std.specs.Prelude.{replicate};
ghost use Rattle.serde_json.specs.Data.{null, string};
ghost use Rattle.dsa_scenario.specs.Worked.{command_step, enqcmd_step, fill_text, object_of, poll_step, whole};
ghost use Rattle.dsa_scenario.specs.declared.actions.StepKind.TheVariants as kind;
ghost use Rattle.dsa_scenario.specs.declared.faults.ScenarioFault.TheVariants as fault;
ghost use Rattle.dsa_plans.specs.Worked.{batch_step, fill_step, listing, party, party_with};
ghost use Rattle.dsa_check.specs.declared.finding.Aim.TheVariants as aim;
ghost use Rattle.dsa_party_check.specs.declared.complaint.Inside.TheVariants as inside;
ghost use Rattle.dsa_party_check.specs.declared.complaint.Subject.TheVariants as subject;
ghost use Rattle.dsa_party_check.specs.declared.rules.Want.TheVariants as want;
ghost use Rattle.dsa_party_check.specs.Complaints.{flaw_of_fault, or_general, plain_complaint};
ghost use Rattle.dsa_party_check.specs.Flaws.{flaws_by_caps, is_same_fault};
ghost use Rattle.dsa_party_check.specs.PartyFlaws.{act_complaints, administrator_flaws, client_flaws};
ghost use Rattle.dsa_party_check.specs.PartyFlaws.{lists_complaints, of_count, submitter_complaints};
ghost use Rattle.dsa_party_check.specs.Rules.{digits_wanted, want_text};
ghost use Rattle.dsa_party_check.specs.WorkedParties.{places_told, reasons_told};
ghost use Rattle.dsa_report_rows.specs.Parties.{places_found};

/// What is told where nothing finer is known, and of a wrong count of members.
#[tactic(auto, unfolding(dsa_scenario::specs::Worked::digits_on_literals))]
pub fn single_complaints()
    ensures general { or_general inside.All []
        ≡ record {
          inside = inside.All;
          aim = aim.Whole;
          name = None;
          reason = codes "not understood";
        }
        ∷ [] }
    ensures faults { map (flaw_of_fault subject.Parties)
        (fault.TooManyParties ∷ fault.BadParties ∷ [])
        ≡ record {
          fault = fault.TooManyParties;
          subject = subject.Parties;
          complaints = plain_complaint inside.All
              (codes "more than 16 clients, 8 administrators or 256 entries, "
              ++ codes "members included") ∷ [];
        }
        ∷ record {
          fault = fault.BadParties;
          subject = subject.Parties;
          complaints = plain_complaint inside.All (codes "not understood") ∷ [];
        } ∷ [] }
    ensures count { of_count inside.All 1 2
        ≡ record {
          inside = inside.All;
          aim = aim.Whole;
          name = Some (codes "members");
          reason = codes "\"members\" has 1 item, the descriptor counts 2";
        }
        ∷ [] }
    ensures same { map (is_same_fault (fault.BadParty 1))
        (fault.BadParty 0 ∷ fault.BadParty 1 ∷ fault.BadParty 2 ∷ fault.BadParties ∷ [])
        ≡ false ∷ true ∷ false ∷ false ∷ [] }
    ensures many { map (is_same_fault fault.TooManyParties)
        (fault.TooManyParties ∷ fault.BadParties ∷ []) ≡ true ∷ false ∷ [] }
    ensures digits { map digits_wanted (127 ∷ 128 ∷ 129 ∷ [])
        ≡ codes ", an even number is wanted" ∷ codes ", an even number is wanted"
        ∷ codes ", at most 128 are wanted" ∷ [] }
    ensures nothing { want_text want.Nothing null ≡ codes "nothing" }
{}

/// What is told of a client's step, in its order.
#[tactic(auto, unfolding(dsa_scenario::specs::Worked::digits_on_literals, hex::proofs::OnLiterals::hex_on_literals))]
pub fn complaints_of_submissions()
    ensures no_kind { reasons_told
        (submitter_complaints 0
        (object_of ((codes "client", null) ∷ (codes "when", null) ∷ (codes "if", null) ∷ [])))
        ≡ codes "\"do\" is missing" ∷ codes "\"client\" may not stand here"
        ∷ codes "\"when\" may not stand here" ∷ codes "\"if\" may not stand here" ∷ [] }
    ensures enqcmd { reasons_told
        (submitter_complaints 0
        (object_of
        ((codes "do", string (codes "enqcmd")) ∷ (codes "retry", null) ∷ (codes "fault", null)
        ∷ (codes "members", null) ∷ [])))
        ≡ codes "\"queue\" is missing" ∷ codes "\"limited\" is missing"
        ∷ codes "\"pasid\" is missing" ∷ codes "\"desc\" is missing"
        ∷ (codes "\"retry\" is null, \"give-up\", \"again\" or a whole number from 0 to "
        ++ codes "4294967295 is wanted")
        ∷ codes "\"fault\" is null, true, false or \"may\" is wanted"
        ∷ codes "\"members\" is null, an array is wanted" ∷ [] }
    ensures movdir { reasons_told
        (submitter_complaints 0
        (object_of ((codes "do", string (codes "movdir")) ∷ (codes "if", null) ∷ [])))
        ≡ codes "\"if\" may not stand here" ∷ codes "\"queue\" is missing"
        ∷ codes "\"limited\" is missing" ∷ codes "\"desc\" is missing" ∷ [] }
    ensures few { places_told
        (submitter_complaints 1
        (batch_step ((codes "fault", whole 1) ∷ (codes "members", listing (null ∷ [])) ∷ [])))
        ≡ (
          inside.Step 1 (Some kind.Movdir),
          codes "\"fault\" is 1, true, false or \"may\" is wanted",
        )
        ∷ (
          inside.Step 1 (Some kind.Movdir),
          codes "\"members\" has 1 item, the descriptor counts 2",
        )
        ∷ (
          inside.Member 1 (Some kind.Movdir) 0,
          codes "null stands here, an object is wanted",
        )
        ∷ [] }
    ensures more { reasons_told
        (submitter_complaints 1
        (batch_step ((codes "members", listing (replicate 3 (string fill_text))) ∷ [])))
        ≡ codes "\"members\" has 3 items, the descriptor counts 2" ∷ [] }
    ensures members { reasons_told
        (submitter_complaints 1
        (batch_step
        ((
          codes "members",
          listing
              (string (codes "0x")
              ∷ object_of ((codes "desc", whole 1) ∷ (codes "fault", null) ∷ []) ∷ []),
        )
        ∷ [])))
        ≡ codes "it has no hexadecimal digit at character 2"
        ∷ codes "\"desc\" is 1, a text of hexadecimal digits is wanted"
        ∷ codes "\"fault\" is null, true, false or \"may\" is wanted" ∷ [] }
    ensures no_desc { reasons_told
        (submitter_complaints 1
        (batch_step ((codes "members", listing (string fill_text ∷ object_of [] ∷ [])) ∷ [])))
        ≡ codes "\"desc\" is missing" ∷ [] }
{}

/// What is told of an administrator's step, in its order.
#[tactic(auto, unfolding(dsa_scenario::specs::Worked::digits_on_literals, dsa_party_check::specs::PartyFlaws::act_complaints))]
pub fn complaints_of_acts()
    ensures no_kind { reasons_told
        (act_complaints 0 (object_of ((codes "when", null) ∷ (codes "if", null) ∷ [])))
        ≡ codes "\"do\" is missing" ∷ codes "\"when\" may not stand here"
        ∷ codes "\"if\" may not stand here" ∷ [] }
    ensures command { reasons_told
        (act_complaints 0
        (object_of
        ((codes "do", string (codes "command")) ∷ (codes "word", null) ∷ (codes "busy", null)
        ∷ [])))
        ≡ codes "\"word\" is null, the word of a command is wanted"
        ∷ codes "\"busy\" is null, \"give-up\" or \"again\" is wanted" ∷ [] }
    ensures busy { reasons_told
        (act_complaints 0 (object_of ((codes "busy", null) ∷ command_step)))
        ≡ codes "\"busy\" is null, \"give-up\" or \"again\" is wanted" ∷ [] }
    ensures queue { reasons_told
        (act_complaints 0
        (object_of ((codes "do", string (codes "queue")) ∷ (codes "if", null) ∷ [])))
        ≡ codes "\"if\" may not stand here" ∷ codes "\"queue\" is missing"
        ∷ codes "\"size\" is missing" ∷ codes "\"threshold\" is missing"
        ∷ codes "\"dedicated\" is missing" ∷ codes "\"priority\" is missing"
        ∷ codes "\"pasid\" is missing" ∷ codes "\"batch\" is missing"
        ∷ codes "\"xfer\" is missing" ∷ [] }
    ensures group { reasons_told
        (act_complaints 0 (object_of ((codes "do", string (codes "group")) ∷ [])))
        ≡ codes "\"group\" is missing" ∷ codes "\"queues\" is missing"
        ∷ codes "\"engines\" is missing" ∷ codes "\"reserved\" is missing"
        ∷ codes "\"allowed\" is missing" ∷ [] }
    ensures clear { reasons_told
        (act_complaints 0
        (object_of ((codes "do", string (codes "clear")) ∷ (codes "if", null) ∷ [])))
        ≡ codes "\"if\" may not stand here" ∷ [] }
{}

/// What is told of a client and of an administrator, in their order.
#[tactic(auto, unfolding(dsa_scenario::specs::Worked::digits_on_literals, dsa_party_check::specs::PartyFlaws::act_complaints))]
pub fn flaws_of_parties()
    ensures client { places_found
        (client_flaws 2 (party_with (null ∷ null ∷ []) ((codes "client", whole 65536) ∷ [])))
        ≡ (
          fault.BadParty 2,
          subject.Client 2,
          (inside.All, codes "\"client\" is 65536, at most 65535 is wanted")
              ∷ (inside.Step 0 None, codes "null stands here, an object is wanted")
              ∷ (inside.Step 1 None, codes "null stands here, an object is wanted") ∷ [],
        )
        ∷ [] }
    ensures administrator { places_found
        (administrator_flaws 3 1 (object_of []))
        ≡ (
          fault.BadParty 4,
          subject.Administrator 1,
          (inside.All, codes "\"steps\" is missing") ∷ [],
        )
        ∷ [] }
    ensures right { administrator_flaws 3 1 (party (object_of poll_step ∷ [])) ≡ [] }
{}

/// What is told of the lists of parties and of the engines, of which the device has three.
#[tactic(auto, unfolding(dsa_scenario::specs::Worked::digits_on_literals, dsa_party_check::specs::PartyFlaws::engine_complaints))]
pub fn complaints_of_lists()
    ensures lists { reasons_told
        (lists_complaints 3
        (object_of
        ((codes "clients", null) ∷ (codes "admins", null) ∷ (codes "engines", null) ∷ [])))
        ≡ codes "\"clients\" is null, an array is wanted"
        ∷ codes "\"admins\" is null, an array is wanted"
        ∷ codes "\"engines\" is null, an array is wanted" ∷ [] }
    ensures engines { lists_complaints 3
        (object_of
        ((codes "clients", null)
        ∷ (codes "engines", listing (whole 2 ∷ whole 3 ∷ string (codes "a") ∷ [])) ∷ []))
        ≡ record {
          inside = inside.All;
          aim = aim.Value;
          name = Some (codes "clients");
          reason = codes "\"clients\" is null, an array is wanted";
        }
        ∷ record {
          inside = inside.All;
          aim = aim.Value;
          name = Some (codes "engines");
          reason = codes "item 1 of \"engines\" is 3, at most 2 is wanted";
        }
        ∷ record {
          inside = inside.All;
          aim = aim.Value;
          name = Some (codes "engines");
          reason = codes "item 2 of \"engines\" is \"a\", a whole number from 0 to 2 is wanted";
        }
        ∷ [] }
    ensures no_lists { lists_complaints 3 (object_of []) ≡ [] }
{}
