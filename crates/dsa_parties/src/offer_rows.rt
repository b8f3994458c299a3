//! Worked rows: what parties ask for, and which worlds are good, on a device with three queues, two
//! engines and one group.

ghost use Rattle.std.specs.Prelude.{◌≡◌, [], ◌∷◌, Some, None, map, true, false};
ghost use Rattle.std.specs.declared.alloc.Global.{Global};
ghost use Rattle.dsa_desc.specs.declared.Outcome.TheVariants.{PageFault, Success};
ghost use Rattle.dsa_regs.specs.declared.Command.TheVariants.{DrainAll};
ghost use Rattle.dsa_book.specs.declared.event.Event.TheVariants as event;
ghost use Rattle.dsa_book.specs.declared.event.Kind.TheVariants.{Enqcmd};
ghost use Rattle.dsa_book.specs.declared.event.Portal.TheVariants.{Limited};
ghost use Rattle.dsa_parties.specs.declared.places.Move.TheVariants as moves;
ghost use Rattle.dsa_parties.specs.Offers.{bare_offer, label_ticket, offer_of};
ghost use Rattle.dsa_parties.specs.Worked.{note_of_label, operation_of_size, worked_script};
ghost use Rattle.dsa_parties.specs.WorkedOffers.{all_at_first, batch_in_list, is_good_there, key_of_note, state_of_three_queues};

/// What clients and administrators ask for where they begin.
pub fn offers_of_programs()
    ensures bare { (memory : Global) → bare_offer (worked_script memory) event.Poll
        ≡ record { event = event.Poll; label = 5 } }
    ensures client { (memory : Global) → offer_of (worked_script memory) all_at_first
        (key_of_note None) (moves.Client 0)
        ≡ Some (record {
          event = event.Submit 7 1 Limited (Enqcmd 5) (operation_of_size 1 2);
          label = 0;
        }) }
    ensures no_client { (memory : Global) → offer_of (worked_script memory) all_at_first
        (key_of_note None) (moves.Client 2) ≡ None }
    ensures administrator { (memory : Global) → offer_of (worked_script memory) all_at_first
        (key_of_note None) (moves.Administrator 0)
        ≡ Some (record { event = event.Issue DrainAll; label = 5 }) }
    ensures no_administrator { (memory : Global) → offer_of (worked_script memory) all_at_first
        (key_of_note None) (moves.Administrator 2) ≡ None }
{}

/// What engines ask for: engines 0 and 3 make steps. An engine without a batch fetches nothing.
pub fn offers_of_engines()
    ensures dispatch { (memory : Global) → map (λ e. offer_of (worked_script memory) all_at_first
        (key_of_note None) (moves.Dispatch e)) (0 ∷ 1 ∷ 3 ∷ [])
        ≡ Some (record { event = event.Dispatch 0; label = 5 }) ∷ None
        ∷ Some (record { event = event.Dispatch 3; label = 5 }) ∷ [] }
    ensures fetch { (memory : Global) → map (λ e. offer_of (worked_script memory) all_at_first
        (key_of_note (Some (note_of_label 0 1 false))) (moves.Fetch e)) (0 ∷ 1 ∷ 3 ∷ [])
        ≡ Some (record { event = event.Fetch 0 (operation_of_size 5 64); label = 2 }) ∷ None
        ∷ None ∷ [] }
    ensures no_batch { (memory : Global) → offer_of (worked_script memory) all_at_first
        (key_of_note None) (moves.Fetch 0) ≡ None }
    ensures start { (memory : Global) → offer_of (worked_script memory) all_at_first
        (key_of_note None) (moves.Start 3)
        ≡ Some (record { event = event.Start 3; label = 5 }) }
    ensures finish { (memory : Global) → offer_of (worked_script memory) all_at_first
        (key_of_note None) (moves.Finish 3 1 PageFault)
        ≡ Some (record { event = event.Finish 3 (label_ticket 1) PageFault; label = 5 }) }
    ensures other_outcome { (memory : Global) → offer_of (worked_script memory) all_at_first
        (key_of_note None) (moves.Finish 3 1 Success) ≡ None }
    ensures other_engine { (memory : Global) → offer_of (worked_script memory) all_at_first
        (key_of_note None) (moves.Finish 1 1 PageFault) ≡ None }
{}

/// Which worlds are good: a name that was given has the label of what was asked for.
pub fn worlds_that_are_good()
    ensures first { (memory : Global) → is_good_there memory 0 []
        (state_of_three_queues 0 [] None) ≡ true }
    ensures at_a_member { (memory : Global) → is_good_there memory 1 []
        (state_of_three_queues 0 [] None) ≡ false }
    ensures waiting { (memory : Global) → is_good_there memory 3 (0 ∷ [])
        (state_of_three_queues 1 (batch_in_list 1 false) None) ≡ true }
    ensures not_asked_for { (memory : Global) → is_good_there memory 0 (0 ∷ [])
        (state_of_three_queues 1 (batch_in_list 1 false) None) ≡ false }
    ensures member_too_soon { (memory : Global) → is_good_there memory 3 (0 ∷ 1 ∷ [])
        (state_of_three_queues 2 (batch_in_list 1 false) None) ≡ false }
    ensures fetched { (memory : Global) → is_good_there memory 3 (0 ∷ 1 ∷ [])
        (state_of_three_queues 2 (batch_in_list 3 true) (Some (note_of_label 0 1 false))) ≡ true }
    ensures not_fetched { (memory : Global) → is_good_there memory 3 (0 ∷ 2 ∷ [])
        (state_of_three_queues 2 (batch_in_list 3 true) (Some (note_of_label 0 1 false)))
        ≡ false }
{}
