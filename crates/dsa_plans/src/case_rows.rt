//! Worked rows: limits of numbers and of tables, each in a case of its own, on a function with
//! nothing to do.

ghost use Rattle.std.specs.Prelude.{◌≡◌, ◌<◌, [], ◌∷◌, Err, None, Some, codes, length, map, replicate};
ghost use Rattle.std.specs.Prelude.{true, false};
ghost use Rattle.serde_json.specs.Data.{boolean, null};
ghost use Rattle.dsa_book.specs.declared.event.Kind.TheVariants.{Enqcmd, Movdir64b};
ghost use Rattle.dsa_book.specs.declared.event.Portal.TheVariants.{Limited};
ghost use Rattle.dsa_parties.specs.declared.script.Act.TheVariants as act;
ghost use Rattle.dsa_parties.specs.declared.script.Outcomes.TheVariants.{Both};
ghost use Rattle.dsa_parties.specs.declared.script.RetryPolicy.TheVariants.{AtMost, GiveUp};
ghost use Rattle.dsa_regs.specs.declared.GroupConfig.{GroupConfig};
ghost use Rattle.dsa_scenario.specs.declared.actions.StepKind.TheVariants as kind;
ghost use Rattle.dsa_scenario.specs.declared.faults.ScenarioFault.TheVariants as fault;
ghost use Rattle.dsa_scenario.specs.Worked.{enqcmd_step, group_step, object_of, step_of_kind, whole};
ghost use Rattle.dsa_plans.specs.declared.plans.Lists.{Lists};
ghost use Rattle.dsa_plans.specs.Reads.{lists_read};
ghost use Rattle.dsa_plans.specs.Said.{retry_said};
ghost use Rattle.dsa_plans.specs.Submitters.{client_number, submission_kind, submission_of_step};
ghost use Rattle.dsa_plans.specs.{Acting.{act_said}, PartyLabels.{letter_of}};
ghost use Rattle.dsa_plans.specs.Plans.{Tables, are_few, parties_said};
ghost use Rattle.dsa_plans.specs.Worked.{acts_between, client_between, document_for, fill_entry, party, tables_of_acts};

/// The largest numbers that stand at the keys of a client's step, and numbers that are too large.
pub fn limits_of_numbers()
    ensures retries { map retry_said
        (whole 5000 ∷ whole 4294967295 ∷ whole 4294967296 ∷ [])
        ≡ Some (AtMost 5000) ∷ Some (AtMost 4294967295) ∷ None ∷ [] }
    ensures pasids { map (λ n. submission_kind kind.Enqcmd (object_of ((codes "pasid", whole n)
        ∷ [])))
        (5000 ∷ 4294967295 ∷ 4294967296 ∷ [])
        ≡ Some (Enqcmd 5000) ∷ Some (Enqcmd 4294967295) ∷ None ∷ [] }
    ensures other_kinds { map (λ kind. submission_kind kind (object_of ((codes "pasid", whole 3)
        ∷ [])))
        (kind.Movdir ∷ kind.Poll ∷ []) ≡ Some Movdir64b ∷ None ∷ [] }
    ensures clients { map (client_number 3) (None ∷ Some (whole 600) ∷ Some (whole 65535)
        ∷ Some (whole 65536) ∷ Some null ∷ [])
        ≡ Some 3 ∷ Some 600 ∷ Some 65535 ∷ None ∷ None ∷ [] }
    ensures places { map (λ place. client_number place None) (600 ∷ 65535 ∷ 65536 ∷ [])
        ≡ Some 600 ∷ Some 65535 ∷ None ∷ [] }
{}

/// What a client's step by ENQCMD submits, to the largest queue and to one that is too large.
pub fn limits_of_queues()
    ensures each { map (λ queue. submission_of_step 2 (object_of (step_of_kind (codes "enqcmd") (
        (codes "queue", whole queue) ∷ (codes "limited", boolean true) ∷ (codes "pasid", whole 7)
        ∷ []))))
        (600 ∷ 65535 ∷ 65536 ∷ [])
        ≡ Some (record {
          queue = 600;
          portal = Limited;
          kind = Enqcmd 7;
          retry = GiveUp;
          members = 2;
        }) ∷ Some (record {
          queue = 65535;
          portal = Limited;
          kind = Enqcmd 7;
          retry = GiveUp;
          members = 2;
        }) ∷ None ∷ [] }
{}

/// An administrator's step that writes a group.
pub fn groups_of_administrators()
    ensures group { act_said (object_of group_step)
        ≡ Some (act.WriteGroup 1 (record { queues = 2; engines = 3; reserved = 4; allowed = 5 })) }
{}

/// Letters of parties: after the last one they come again.
pub fn letters_of_parties()
    ensures small { map (letter_of 97) (0 ∷ 1 ∷ 25 ∷ 26 ∷ 27 ∷ [])
        ≡ 97 ∷ 98 ∷ 122 ∷ 97 ∷ 98 ∷ [] }
{}

/// The most clients, administrators and entries of a script, and one more of each.
pub fn limits_of_tables()
    ensures clients { map (λ count. are_few (record (tables_of_acts []) {
      clients = replicate count (client_between 0 0 0);
    })) (16 ∷ 17 ∷ []) ≡ true ∷ false ∷ [] }
    ensures administrators { map (λ count. are_few (record (tables_of_acts []) {
      administrators = replicate count (acts_between 0 0);
    })) (8 ∷ 9 ∷ []) ≡ true ∷ false ∷ [] }
    ensures entries { map (λ count. are_few (record (tables_of_acts []) {
      entries = replicate count (fill_entry Both GiveUp);
    })) (256 ∷ 257 ∷ []) ≡ true ∷ false ∷ [] }
    ensures acts { are_few (tables_of_acts (replicate 1100 act.ClearError)) ≡ true }
    ensures small { (t : Tables) → are_few t ≡ true → length t.acts < 4294967296 }
{}

/// Parties are counted together: administrators behind clients.
pub fn parties_counted_together()
    ensures bad { map (parties_said 2)
        (document_for (party [] ∷ []) (null ∷ [])
        ∷ document_for (party [] ∷ []) (party [] ∷ party [] ∷ null ∷ [])
        ∷ [])
        ≡ Err (fault.BadParty 1) ∷ Err (fault.BadParty 3) ∷ [] }
{}

/// Clients are read from clients, and administrators from administrators.
pub fn lists_of_parties()
    ensures clients { (lists : Lists) → lists.clients.now ≡ [] → (lists_read lists).clients ≡ [] }
    ensures administrators { (lists : Lists) → lists.administrators.now ≡ []
        → (lists_read lists).administrators ≡ [] }
{}
