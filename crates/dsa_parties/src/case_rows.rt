//! Worked rows: what labels say, which tables are a script, and where a name may have a label, each
//! in a case of its own.

ghost use Rattle.std.specs.Prelude.{◌≡◌, ◌<◌, ◌≤◌, List, [], ◌∷◌, Some, None, length, map, replicate};
ghost use Rattle.std.specs.Prelude.{true, false, get_or, slice_set};
ghost use Rattle.std.specs.declared.alloc.Global.{Global};
ghost use Rattle.dsa_desc.specs.declared.Outcome.TheVariants.{Success};
ghost use Rattle.dsa_book.specs.declared.answer.PollAnswer.TheVariants as poll;
ghost use Rattle.dsa_book.specs.declared.answer.Reply.TheVariants as reply;
ghost use Rattle.dsa_book.specs.declared.answer.SubmitAnswer.TheVariants as submit;
ghost use Rattle.dsa_book.specs.declared.event.Event.TheVariants as event;
ghost use Rattle.dsa_book.specs.declared.event.Kind.TheVariants.{Enqcmd, Movdir64b};
ghost use Rattle.dsa_book.specs.declared.event.Portal.TheVariants.{Limited, Unlimited};
ghost use Rattle.dsa_parties.specs.declared.places.Move.TheVariants as moves;
ghost use Rattle.dsa_parties.specs.declared.script.Act.{Act};
ghost use Rattle.dsa_parties.specs.declared.script.Act.TheVariants as act;
ghost use Rattle.dsa_parties.specs.declared.script.ClientScript.{ClientScript};
ghost use Rattle.dsa_parties.specs.declared.script.Origin.TheVariants.{Fetched, Submitted};
ghost use Rattle.dsa_parties.specs.declared.script.Outcomes.TheVariants.{Both};
ghost use Rattle.dsa_parties.specs.declared.script.Part.{Part};
ghost use Rattle.dsa_parties.specs.declared.script.RetryPolicy.TheVariants as policy;
ghost use Rattle.dsa_parties.specs.declared.script.ScriptEntry.{ScriptEntry};
ghost use Rattle.dsa_parties.specs.declared.script.Until.TheVariants as until;
ghost use Rattle.dsa_parties.specs.Described.{described_by, description_of, no_submission};
ghost use Rattle.dsa_parties.specs.Good.{is_behind, is_of_waiting, is_unfetched, may_be_given, stand_within};
ghost use Rattle.dsa_parties.specs.Offers.{IsListed, label_ticket, next_member, offer_of};
ghost use Rattle.dsa_parties.specs.Scripts.{are_parts, counts_members, is_fetched_for, is_in_order, is_script};
ghost use Rattle.dsa_parties.specs.Standing.{is_through, next_act, place_after};
ghost use Rattle.dsa_parties.specs.Worked.{all_at, batch_submission, clients_parted_at, fill_submission, five_entries};
ghost use Rattle.dsa_parties.specs.Worked.{four_acts, note_of_label, operation_of_size, part_between, place_at, turn_by};
ghost use Rattle.dsa_parties.specs.Worked.{two_parts, worked_script};
ghost use Rattle.dsa_parties.specs.WorkedOffers.{all_at_first, batch_in_list, batch_that_runs, key_of_note, state_of_three_queues};

/// What labels say of entries: a member has the queue of its batch, and where there is none all is
/// zero.
pub fn labels_that_say()
    ensures each { (memory : Global) → map (described_by (worked_script memory))
        (0 ∷ 1 ∷ 3 ∷ 5 ∷ [])
        ≡ record { desc = operation_of_size 1 2; queue = 1; kind = Enqcmd 5; member = false }
        ∷ record { desc = operation_of_size 3 4096; queue = 1; kind = Enqcmd 5; member = true }
        ∷ record { desc = operation_of_size 4 8; queue = 2; kind = Movdir64b; member = false }
        ∷ record { desc = operation_of_size 0 0; queue = 0; kind = Movdir64b; member = false }
        ∷ [] }
    ensures no_batch { description_of five_entries (operation_of_size 3 5) (Fetched 9)
        ≡ record { desc = operation_of_size 3 5; queue = 0; kind = Movdir64b; member = true } }
    ensures nothing { no_submission
        ≡ record {
          queue = 0;
          portal = Unlimited;
          kind = Movdir64b;
          retry = policy.GiveUp;
          members = 0;
        } }
{}

/// What the second client asks for, and a batch of which the script has fewer members.
pub fn further_offers()
    ensures client { (memory : Global) → offer_of (worked_script memory) all_at_first
        (key_of_note None) (moves.Client 1)
        ≡ Some (record {
          event = event.Submit 9 3 Limited (Enqcmd 6) (operation_of_size 2 0);
          label = 4;
        }) }
    ensures third { next_member five_entries (record (note_of_label 0 2 false) { count = 3 })
        ≡ None }
    ensures ticket { label_ticket 7 ≡ record { cell = record { 0 = 0 }; name = 7 } }
{}

/// Members by their batch, and batches by their members.
pub fn members_in_order()
    ensures fetched { map (is_fetched_for 1)
        (Fetched 0 ∷ Fetched 1 ∷ Fetched 2 ∷ Submitted fill_submission ∷ [])
        ≡ false ∷ true ∷ false ∷ false ∷ [] }
    ensures batches { map (counts_members (operation_of_size 1 2)) (0 ∷ 1 ∷ 2 ∷ 3 ∷ [])
        ≡ true ∷ false ∷ true ∷ false ∷ [] }
    ensures fills { map (counts_members (operation_of_size 3 2)) (0 ∷ 2 ∷ 3 ∷ [])
        ≡ true ∷ false ∷ false ∷ [] }
    ensures batch { is_in_order five_entries 0 (operation_of_size 1 2) (Submitted batch_submission)
        ≡ true }
    ensures other_count { is_in_order five_entries 0 (operation_of_size 1 3)
        (Submitted batch_submission) ≡ false }
    ensures no_members { is_in_order five_entries 2 (operation_of_size 1 2)
        (Submitted batch_submission) ≡ false }
{}

/// Parts one behind the other, of which one may be empty.
pub fn parts_one_behind_the_other()
    ensures short { are_parts 5 4 [] ≡ false }
    ensures long { are_parts 4 5 [] ≡ false }
    ensures empty { are_parts 0 4 (part_between 0 0 ∷ part_between 0 4 ∷ []) ≡ true }
    ensures over { are_parts 0 4 (part_between 0 3 ∷ part_between 2 4 ∷ []) ≡ false }
    ensures backward { are_parts 0 4
        (part_between 0 3 ∷ part_between 3 2 ∷ part_between 2 4 ∷ []) ≡ false }
{}

/// Tables that are no script: a member that is not behind its batch, and parts that leave entries
/// out. And many clients, acts and administrators.
pub fn tables_that_are_scripts()
    ensures out_of_order { is_script
        (record { desc = operation_of_size 1 2; outcomes = Both; origin = Fetched 0 } ∷ [])
        (record { number = 7; part = part_between 0 1 } ∷ []) [] [] ≡ false }
    ensures entries_left { is_script five_entries
        (record { number = 7; part = part_between 0 3 }
        ∷ record { number = 9; part = part_between 4 5 } ∷ []) four_acts two_parts ≡ false }
    ensures entries_alone { is_script five_entries [] [] [] ≡ false }
    ensures many_clients { is_script []
        (replicate 300 (record { number = 7; part = part_between 0 0 })) [] [] ≡ true }
    ensures many_acts { is_script [] [] (replicate 1100 act.ClearError) (part_between 0 1100 ∷ [])
        ≡ true }
    ensures many_entries { is_script (replicate 1030 (record {
      desc = operation_of_size 4 8;
      outcomes = Both;
      origin = Submitted fill_submission;
    })) (record { number = 7; part = part_between 0 1030 } ∷ []) [] [] ≡ true }
    ensures many_administrators { is_script [] [] [] (replicate 300 (part_between 0 0)) ≡ true }
{}

/// Clients that stand before or behind their parts, and lists that are not as long.
pub fn clients_that_stand()
    ensures before { stand_within five_entries (clients_parted_at 4)
        (place_at 0 0 ∷ place_at 3 0 ∷ []) ≡ false }
    ensures behind { stand_within five_entries (clients_parted_at 4)
        (place_at 5 0 ∷ place_at 4 0 ∷ []) ≡ false }
    ensures at_the_end { stand_within five_entries (clients_parted_at 4)
        (place_at 4 0 ∷ place_at 5 0 ∷ []) ≡ true }
    ensures alone { stand_within five_entries (record { number = 7; part = part_between 0 5 } ∷ [])
        (place_at 3 9 ∷ []) ≡ true }
    ensures one_place { stand_within five_entries (clients_parted_at 4) (place_at 0 0 ∷ [])
        ≡ false }
    ensures asked { map (is_behind (clients_parted_at 4) (place_at 3 0 ∷ place_at 5 0 ∷ []))
        (0 ∷ 2 ∷ 3 ∷ 4 ∷ 5 ∷ []) ≡ true ∷ true ∷ false ∷ true ∷ false ∷ [] }
    ensures not_asked { is_behind (record { number = 7; part = part_between 0 5 } ∷ [])
        (place_at 0 0 ∷ []) 0 ≡ false }
{}

/// Members that are still to be fetched: of a batch that waits, and of a batch by its note.
pub fn members_to_be_fetched()
    ensures waiting { map (λ label. is_of_waiting five_entries (λ name. name) label
        (batch_that_runs false)) (0 ∷ 1 ∷ 2 ∷ 3 ∷ []) ≡ false ∷ true ∷ true ∷ false ∷ [] }
    ensures a_member { is_of_waiting five_entries (λ name. name) 1 (
      record { 0 = 0 },
      record {
        name = 0;
        parent = Some 3;
        desc = operation_of_size 1 2;
        queue = 1;
        running = false;
      },
    ) ≡ false }
    ensures noted { map (λ label. is_unfetched five_entries (λ name. name) label
        (Some (note_of_label 0 1 false))) (0 ∷ 1 ∷ 2 ∷ 3 ∷ []) ≡ false ∷ false ∷ true ∷ false ∷ [] }
    ensures beside_another { may_be_given five_entries (clients_parted_at 4)
        (place_at 4 0 ∷ place_at 4 0 ∷ []) (λ name. get_or (0 ∷ 3 ∷ []) name 0)
        (state_of_three_queues 2 (slice_set (batch_in_list 1 false) 2 ((
          record { 0 = 1 },
          record {
            name = 1;
            parent = None;
            desc = operation_of_size 4 8;
            queue = 2;
            running = false;
          },
        ) ∷ [])) None).work 1 ≡ false }
{}

/// Scripts are small enough for labels and moves.
pub fn scripts_are_small()
    ensures entries { (entries : List ScriptEntry) → (clients : List ClientScript)
        → (acts : List Act)
        → (administrators : List Part) → is_script entries clients acts administrators ≡ true
        → length entries < 4294967296 }
    ensures acts { (entries : List ScriptEntry) → (clients : List ClientScript) → (acts : List Act)
        → (administrators : List Part) → is_script entries clients acts administrators ≡ true
        → length acts < 4294967296 }
    ensures clients { (entries : List ScriptEntry) → (clients : List ClientScript)
        → (acts : List Act) → (administrators : List Part)
        → is_script entries clients acts administrators ≡ true
        → length clients ≤ 65536 }
    ensures administrators { (entries : List ScriptEntry) → (clients : List ClientScript)
        → (acts : List Act) → (administrators : List Part)
        → is_script entries clients acts administrators ≡ true
        → length administrators ≤ 65536 }
{}

/// Where parties stand after answers that say less, and what is next at the end of a part.
pub fn parties_that_go_on()
    ensures accepted { place_after (reply.Submit (submit.Accepted (label_ticket 4)))
        (turn_by policy.Again 1) ≡ place_at 5 0 }
    ensures polled { map (is_through (reply.Poll poll.Active))
        (act.Poll until.Over ∷ act.Poll until.Once ∷ act.ClearError ∷ []) ≡ false ∷ true ∷ true
        ∷ [] }
    ensures at_the_ends { (memory : Global) → map (next_act (worked_script memory)
        (all_at (place_at 0 0) (place_at 4 0) 3 4)) (0 ∷ 1 ∷ []) ≡ None ∷ None ∷ [] }
{}

/// The moves of a script: an engine of it may end any entry.
pub fn moves_that_are_listed()
    ensures end { (memory : Global) → IsListed (worked_script memory) (moves.Finish 3 9 Success) }
    ensures other_engine { (memory : Global) → IsListed (worked_script memory)
        (moves.Finish 1 4 Success) → ⊥ }
    ensures start { (memory : Global) → IsListed (worked_script memory) (moves.Start 3) }
    ensures no_start { (memory : Global) → IsListed (worked_script memory) (moves.Start 1) → ⊥ }
{}
