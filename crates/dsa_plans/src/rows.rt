//! Worked rows: what the parties of documents are read as, each on a function with nothing to do.

ghost use Rattle.std.specs.Prelude.{◌≡◌, ◌++◌, [], ◌∷◌, Ok, Err, Some, None, codes, map, replicate};
ghost use Rattle.std.specs.Prelude.{true, false};
ghost use Rattle.serde_json.specs.Data.{boolean, null, string};
ghost use Rattle.dsa_parties.specs.declared.script.Act.TheVariants as act;
ghost use Rattle.dsa_parties.specs.declared.script.Outcomes.TheVariants.{SuccessAlone};
ghost use Rattle.dsa_parties.specs.declared.script.Outcomes.TheVariants.{PageFaultAlone, Both};
ghost use Rattle.dsa_parties.specs.declared.script.RetryPolicy.TheVariants.{GiveUp, Again, AtMost};
ghost use Rattle.dsa_parties.specs.declared.script.Until.TheVariants.{Once, Finished, Over};
ghost use Rattle.dsa_regs.specs.declared.Command.TheVariants.{EnableWq};
ghost use Rattle.dsa_scenario.specs.declared.faults.ScenarioFault.TheVariants as fault;
ghost use Rattle.dsa_scenario.specs.Worked.{clear_step, command_step, enqcmd_step, fill_text};
ghost use Rattle.dsa_scenario.specs.Worked.{object_of, poll_step, queue_in_fields, queue_step};
ghost use Rattle.dsa_scenario.specs.Worked.{step_of_kind, whole};
ghost use Rattle.dsa_plans.specs.Said.{busy_said, outcomes_said, retry_said, until_said};
ghost use Rattle.dsa_plans.specs.Submitters.{client_onto, step_onto};
ghost use Rattle.dsa_plans.specs.Acting.{act_said, administrator_onto};
ghost use Rattle.dsa_plans.specs.{Plans.{parties_said}, PartyLabels.{act_labels, entry_labels}};
ghost use Rattle.dsa_plans.specs.Worked.{batch_entry, batch_step, client_between, document_for};
ghost use Rattle.dsa_plans.specs.Worked.{document_with, fill_entry, fill_step, listing};
ghost use Rattle.dsa_plans.specs.Worked.{member_entry, acts_between, party, party_with};
ghost use Rattle.dsa_plans.specs.Worked.{two_members};

/// What words and numbers say.
pub fn words()
    ensures retry { map retry_said
        (string (codes "give-up") ∷ string (codes "again") ∷ whole 0 ∷ whole 3
        ∷ string (codes "never") ∷ boolean true ∷ null ∷ [])
        ≡ Some GiveUp ∷ Some Again ∷ Some (AtMost 0) ∷ Some (AtMost 3) ∷ None ∷ None ∷ None ∷ [] }
    ensures fault { map outcomes_said
        (boolean false ∷ boolean true ∷ string (codes "may") ∷ string (codes "true") ∷ whole 1
        ∷ [])
        ≡ Some SuccessAlone ∷ Some PageFaultAlone ∷ Some Both ∷ None ∷ None ∷ [] }
    ensures busy { map busy_said
        (string (codes "give-up") ∷ string (codes "again") ∷ string (codes "may") ∷ whole 1 ∷ [])
        ≡ Some false ∷ Some true ∷ None ∷ None ∷ [] }
    ensures until { map until_said
        (string (codes "once") ∷ string (codes "finished") ∷ string (codes "over")
        ∷ string (codes "never") ∷ boolean true ∷ [])
        ≡ Some Once ∷ Some Finished ∷ Some Over ∷ None ∷ None ∷ [] }
{}

/// What a client's step submits.
#[tactic(auto, unfolding(hex::proofs::OnLiterals::hex_on_literals))]
pub fn steps_of_clients()
    ensures plain { step_onto [] (fill_step []) ≡ Some (fill_entry SuccessAlone GiveUp ∷ []) }
    ensures further { step_onto []
        (fill_step
        ((codes "retry", whole 2)
        ∷ (codes "fault", string (codes "may"))
        ∷ (codes "note", whole 1)
        ∷ []))
        ≡ Some (fill_entry Both (AtMost 2) ∷ []) }
    ensures batch { step_onto (fill_entry SuccessAlone GiveUp ∷ [])
        (batch_step (two_members ∷ (codes "fault", boolean true) ∷ []))
        ≡ Some
        (fill_entry SuccessAlone GiveUp
        ∷ batch_entry GiveUp
        ∷ member_entry 1 PageFaultAlone
        ∷ member_entry 1 Both
        ∷ []) }
{}

/// Which steps of a client are refused.
#[tactic(auto, unfolding(hex::proofs::OnLiterals::hex_on_literals))]
pub fn refused_steps_of_clients()
    ensures members { map (step_onto [])
        (batch_step []
        ∷ batch_step ((codes "members", listing (string fill_text ∷ [])) ∷ [])
        ∷ batch_step ((codes "members", whole 2) ∷ [])
        ∷ batch_step ((codes "members", listing (whole 1 ∷ whole 1 ∷ [])) ∷ [])
        ∷ fill_step (two_members ∷ [])
        ∷ []) ≡ replicate 5 None }
    ensures conditions { map (step_onto [])
        (fill_step ((codes "when", null) ∷ []) ∷ fill_step ((codes "if", null) ∷ []) ∷ [])
        ≡ replicate 2 None }
    ensures keys { map (step_onto [])
        (fill_step ((codes "client", whole 0) ∷ [])
        ∷ fill_step ((codes "retry", string (codes "never")) ∷ [])
        ∷ fill_step ((codes "fault", whole 1) ∷ [])
        ∷ []) ≡ replicate 3 None }
    ensures kinds { map (step_onto [])
        (object_of poll_step ∷ object_of enqcmd_step ∷ object_of [] ∷ null ∷ [])
        ≡ replicate 4 None }
{}

/// What an administrator's step does.
pub fn steps_of_administrators()
    ensures read { map act_said
        (object_of command_step
        ∷ object_of ((codes "busy", string (codes "again")) ∷ command_step)
        ∷ object_of poll_step
        ∷ object_of ((codes "until", string (codes "over")) ∷ poll_step)
        ∷ object_of queue_step
        ∷ object_of clear_step
        ∷ [])
        ≡ Some (act.Issue (EnableWq 2) false) ∷ Some (act.Issue (EnableWq 2) true)
        ∷ Some (act.Poll Once) ∷ Some (act.Poll Over)
        ∷ Some (act.WriteQueue 1 queue_in_fields) ∷ Some act.ClearError ∷ [] }
    ensures refused { map act_said
        (object_of ((codes "when", null) ∷ poll_step)
        ∷ object_of ((codes "if", null) ∷ poll_step)
        ∷ object_of ((codes "busy", boolean true) ∷ command_step)
        ∷ object_of ((codes "until", whole 1) ∷ poll_step)
        ∷ object_of (step_of_kind (codes "command") ((codes "word", whole 0) ∷ []))
        ∷ object_of (step_of_kind (codes "start") ((codes "engine", whole 0) ∷ []))
        ∷ null
        ∷ []) ≡ replicate 7 None }
{}

/// What parties are read as, one after the other.
#[tactic(auto, unfolding(hex::proofs::OnLiterals::hex_on_literals))]
pub fn parties_in_turn()
    ensures client { client_onto
        (fill_entry SuccessAlone GiveUp ∷ [], client_between 0 0 1 ∷ [])
        (party (batch_step (two_members ∷ []) ∷ []))
        ≡ Some (
          fill_entry SuccessAlone GiveUp
              ∷ batch_entry GiveUp
              ∷ member_entry 1 SuccessAlone
              ∷ member_entry 1 Both
              ∷ [],
          client_between 0 0 1 ∷ client_between 1 1 4 ∷ [],
        ) }
    ensures numbers { map (client_onto ([], []))
        (party_with [] ((codes "client", whole 7) ∷ [])
        ∷ party_with [] ((codes "client", whole 65_536) ∷ [])
        ∷ party_with [] ((codes "client", null) ∷ [])
        ∷ object_of []
        ∷ [])
        ≡ Some ([], client_between 7 0 0 ∷ []) ∷ None ∷ None ∷ None ∷ [] }
    ensures administrator { administrator_onto (act.ClearError ∷ [], acts_between 0 1 ∷ [])
        (party (object_of poll_step ∷ object_of clear_step ∷ []))
        ≡ Some (
          act.ClearError ∷ act.Poll Once ∷ act.ClearError ∷ [],
          acts_between 0 1 ∷ acts_between 1 3 ∷ [],
        ) }
{}

/// What documents are read as.
#[tactic(auto, unfolding(hex::proofs::OnLiterals::hex_on_literals))]
pub fn documents_with_parties()
    ensures read { parties_said 2
        (document_for (party (fill_step [] ∷ []) ∷ party (fill_step [] ∷ fill_step [] ∷ []) ∷ [])
        (party (object_of poll_step ∷ []) ∷ []))
        ≡ Ok
        (record {
          entries = replicate 3 (fill_entry SuccessAlone GiveUp);
          clients = client_between 0 0 1 ∷ client_between 1 1 3 ∷ [];
          acts = act.Poll Once ∷ [];
          administrators = acts_between 0 1 ∷ [];
          engines = 0 ∷ 1 ∷ [];
        }) }
    ensures engines { parties_said 4
        (document_with ((codes "engines", listing (whole 3 ∷ whole 0 ∷ [])) ∷ []))
        ≡ Ok
        (record {
          entries = [];
          clients = [];
          acts = [];
          administrators = [];
          engines = 3 ∷ 0 ∷ [];
        }) }
    ensures bad { map (parties_said 2)
        (object_of []
        ∷ object_of ((codes "parties", whole 1) ∷ [])
        ∷ document_with ((codes "clients", whole 1) ∷ [])
        ∷ document_with ((codes "engines", listing (whole 2 ∷ [])) ∷ [])
        ∷ [])
        ≡ Err fault.NoParties ∷ replicate 3 (Err fault.BadParties) }
    ensures bad_party { map (parties_said 2)
        (document_for (party [] ∷ null ∷ null ∷ []) (null ∷ [])
        ∷ document_for (party [] ∷ party [] ∷ []) (party [] ∷ null ∷ [])
        ∷ document_for (replicate 16 (party []) ++ null ∷ []) []
        ∷ [])
        ≡ Err (fault.BadParty 1) ∷ Err (fault.BadParty 3) ∷ Err (fault.BadParty 16) ∷ [] }
    ensures too_many { map (parties_said 2)
        (document_for (replicate 17 (party [])) [] ∷ document_for [] (replicate 9 (party [])) ∷ [])
        ≡ replicate 2 (Err fault.TooManyParties) }
{}

/// The labels of entries and of acts.
#[tactic(auto, unfolding(dsa_scenario::specs::Worked::digits_on_literals))]
pub fn labels()
    ensures entries { entry_labels
        (object_of
        ((
          codes "clients",
          listing
              (party
              (fill_step ((codes "as", string (codes "x17")) ∷ [])
              ∷ batch_step (two_members ∷ [])
              ∷ [])
              ∷ party (fill_step ((codes "as", string []) ∷ []) ∷ [])
              ∷ []),
        )
        ∷ []))
        ≡ codes "x17" ∷ codes "a1" ∷ codes "a1/0" ∷ codes "a1/1" ∷ codes "b0" ∷ [] }
    ensures acts { act_labels
        (object_of
        ((
          codes "admins",
          listing
              (party (object_of poll_step ∷ object_of clear_step ∷ [])
              ∷ party (object_of ((codes "as", string (codes "drain")) ∷ poll_step) ∷ [])
              ∷ []),
        )
        ∷ []))
        ≡ codes "A0" ∷ codes "A1" ∷ codes "drain" ∷ [] }
{}
