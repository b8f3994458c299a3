//! What the laws of answers speak of: states and replies that are alike, tickets that were given,
//! and what stops.

ghost use Rattle.std.specs.Prelude.{◌≡◌, ℕ, [], ◌∷◌, Some, None, true, false, map, replicate};
ghost use Rattle.dsa_regs.specs.declared.Command.TheVariants.{DisableDevice, DisableWq, DrainAll};
ghost use Rattle.dsa_regs.specs.declared.Deed.TheVariants.{Disable, Drain};
ghost use Rattle.dsa_regs.specs.declared.Phase.TheVariants.{Off, On, Stopping};
ghost use Rattle.dsa_regs.specs.declared.Scope.TheVariants.{Device, Queues};
ghost use Rattle.dsa_regs.specs.Config.{zero_group, zero_queue};
ghost use Rattle.dsa_book.specs.declared.answer.DispatchAnswer.TheVariants.{Taken};
ghost use Rattle.dsa_book.specs.declared.answer.FetchAnswer.TheVariants.{Fetched};
ghost use Rattle.dsa_book.specs.declared.answer.PollAnswer.TheVariants.{Nothing};
ghost use Rattle.dsa_book.specs.declared.answer.Reply.TheVariants as reply;
ghost use Rattle.dsa_book.specs.declared.answer.StartAnswer.TheVariants.{Started};
ghost use Rattle.dsa_book.specs.declared.answer.SubmitAnswer.TheVariants.{Accepted};
ghost use Rattle.dsa_book.specs.declared.event.Event.TheVariants as event;
ghost use Rattle.dsa_desc.specs.declared.Outcome.TheVariants.{Success, PageFault};
ghost use Rattle.dsa_book.specs.State.{opening, opening_setup};
ghost use Rattle.dsa_answers.specs.Alike.{entries_alone, without_cell, given_after, ticket_named, AreStatesAlike, AskAlike, HeldAsGiven, IsTicketIn, TakeAlike};
ghost use Rattle.dsa_answers.specs.Choices.{AreAlike};
ghost use Rattle.dsa_answers.specs.Stops.{is_active_command, is_stopping, stops_device, stops_queue, IsAtRest, StopsByCommand};
ghost use Rattle.dsa_answers.specs.Writes.{with_configs, with_groups};
ghost use Rattle.dsa_worked.specs.Setup.{ticket, masked};
ghost use Rattle.dsa_worked.specs.Uneven.{many_queues, small_queue, of_these};
ghost use Rattle.dsa_worked.specs.Values.{three_lists, of_cell};
ghost use Rattle.dsa_explain_rows.specs.Alike.{holding, one_in, with_phases_of, with_active};

/// Entries without their cells, and replies whose tickets have cell 0.
pub fn without_cells()
    ensures entries { entries_alone three_lists
        ≡ ((of_cell 4).1 ∷ (of_cell 2).1 ∷ []) ∷ ((of_cell 7).1 ∷ []) ∷ [] ∷ [] }
    ensures replies { map without_cell
        (reply.Submit (Accepted (ticket 3 5)) ∷ reply.Dispatch (Taken (ticket 3 6) 7)
        ∷ reply.Fetch (Fetched (ticket 3 8)) ∷ reply.Start (Started (ticket 3 9))
        ∷ reply.Poll Nothing ∷ [])
        ≡ reply.Submit (Accepted (ticket 0 5)) ∷ reply.Dispatch (Taken (ticket 0 6) 7)
        ∷ reply.Fetch (Fetched (ticket 0 8)) ∷ reply.Start (Started (ticket 0 9))
        ∷ reply.Poll Nothing ∷ [] }
    ensures given { map (given_after (ticket 1 2 ∷ []))
        (reply.Submit (Accepted (ticket 3 5)) ∷ reply.Fetch (Fetched (ticket 3 8))
        ∷ reply.Start (Started (ticket 3 9)) ∷ [])
        ≡ (ticket 1 2 ∷ ticket 3 5 ∷ []) ∷ (ticket 1 2 ∷ ticket 3 8 ∷ []) ∷ (ticket 1 2 ∷ []) ∷ [] }
    ensures named { map (ticket_named (ticket 6 2 ∷ ticket 5 3 ∷ ticket 4 4 ∷ [])) (3 ∷ 9 ∷ 1 ∷ [])
        ≡ ticket 5 3 ∷ ticket 0 9 ∷ ticket 0 1 ∷ [] }
{}

/// What is Stopping, and what a command stops.
pub fn stops()
    ensures phases { map is_stopping (Off ∷ On ∷ Stopping ∷ []) ≡ false ∷ false ∷ true ∷ [] }
    ensures device { stops_device Disable Device ≡ true }
    ensures no_queues { stops_device Disable (Queues (masked 2)) ≡ false }
    ensures no_drain { stops_device Drain Device ≡ false }
    ensures all { stops_queue Disable Device 9 ≡ true }
    ensures these { map (stops_queue Disable (Queues (masked 2))) (0 ∷ 1 ∷ 2 ∷ [])
        ≡ false ∷ true ∷ false ∷ [] }
    ensures none { map (stops_queue Drain Device) (0 ∷ 1 ∷ []) ≡ false ∷ false ∷ [] }
    ensures no_command { is_active_command stops_device None ≡ false }
    ensures a_disable { is_active_command stops_device
        (Some (record { command = DisableDevice; mark = 0 }))
        ≡ true }
    ensures a_drain { is_active_command stops_device
        (Some (record { command = DrainAll; mark = 0 }))
        ≡ false }
{}

/// What a write leaves.
pub fn writes()
    ensures queues { with_configs (opening many_queues) (small_queue ∷ [])
        ≡ record (opening many_queues) {
          work = record (opening many_queues).work {
            setup = record {
              caps = many_queues;
              device = Off;
              configs = small_queue ∷ [];
              phases = replicate 7 Off;
              groups = replicate 2 zero_group;
              next_name = 0;
              noted = None;
            };
          };
        } }
    ensures groups { with_groups (opening many_queues) (of_these 64 1 ∷ [])
        ≡ record (opening many_queues) {
          work = record (opening many_queues).work {
            setup = record {
              caps = many_queues;
              device = Off;
              configs = replicate 7 zero_queue;
              phases = replicate 7 Off;
              groups = of_these 64 1 ∷ [];
              next_name = 0;
              noted = None;
            };
          };
        } }
{}

/// Replies that differ in what is free alone, and replies that do not.
pub fn replies_alike()
    ensures accepted { AreAlike (reply.Submit (Accepted (ticket 1 5)))
        (reply.Submit (Accepted (ticket 2 5))) }
    ensures fetched { AreAlike (reply.Fetch (Fetched (ticket 1 5)))
        (reply.Fetch (Fetched (ticket 2 5))) }
    ensures other_queues { AreAlike (reply.Dispatch (Taken (ticket 1 5) 0))
        (reply.Dispatch (Taken (ticket 2 6) 1)) }
    ensures same { AreAlike (reply.Start (Started (ticket 1 5)))
        (reply.Start (Started (ticket 1 5))) }
    ensures other_name { ¬ AreAlike (reply.Submit (Accepted (ticket 1 5)))
        (reply.Submit (Accepted (ticket 1 6))) }
    ensures other_member { ¬ AreAlike (reply.Fetch (Fetched (ticket 1 5)))
        (reply.Fetch (Fetched (ticket 1 6))) }
    ensures one_queue { ¬ AreAlike (reply.Dispatch (Taken (ticket 1 5) 0))
        (reply.Dispatch (Taken (ticket 1 6) 0)) }
    ensures from_one_queue { TakeAlike (reply.Dispatch (Taken (ticket 1 5) 3))
        (reply.Dispatch (Taken (ticket 2 6) 3)) }
    ensures from_two_queues { ¬ TakeAlike (reply.Dispatch (Taken (ticket 1 5) 3))
        (reply.Dispatch (Taken (ticket 1 5) 4)) }
{}

/// States that differ in cells and fates alone, and states that do not.
pub fn states_alike()
    ensures cells { AreStatesAlike (holding (one_in 2 9)) (holding (one_in 3 9)) }
    ensures names { ¬ AreStatesAlike (holding (one_in 2 9)) (holding (one_in 2 8)) }
    ensures set_up { ¬ AreStatesAlike (holding [])
        (record {
          work = record
              (holding []).work { setup = opening_setup many_queues };
          active = None;
        }) }
    ensures notes { ¬ AreStatesAlike (holding [])
        (record { work = record (holding []).work { notes = None ∷ [] }; active = None }) }
    ensures active { ¬ AreStatesAlike (holding [])
        (record {
          work = (holding []).work;
          active = Some
              (record { command = DrainAll; mark = 0 });
        }) }
{}

/// Tickets of entries that are held, and what is asked of them in two states.
pub fn tickets_alike()
    ensures there { IsTicketIn (holding (one_in 2 9)) (ticket 2 9) }
    ensures not_held { IsTicketIn (holding (one_in 2 9)) (ticket 3 8) }
    ensures other_cell { ¬ IsTicketIn (holding (one_in 2 9)) (ticket 3 9) }
    ensures ends { AskAlike (holding (one_in 2 9)) (holding (one_in 3 9))
        (event.Finish 1 (ticket 2 9) Success) (event.Finish 1 (ticket 3 9) Success) }
    ensures engines { ¬ AskAlike (holding []) (holding [])
        (event.Finish 1 (ticket 2 9) Success) (event.Finish 2 (ticket 2 9) Success) }
    ensures outcomes { ¬ AskAlike (holding []) (holding [])
        (event.Finish 1 (ticket 2 9) Success) (event.Finish 1 (ticket 2 9) PageFault) }
    ensures names { ¬ AskAlike (holding []) (holding [])
        (event.Finish 1 (ticket 2 9) Success) (event.Finish 1 (ticket 2 8) Success) }
    ensures first_cell { ¬ AskAlike (holding (one_in 2 9)) (holding [])
        (event.Finish 1 (ticket 3 9) Success) (event.Finish 1 (ticket 3 9) Success) }
    ensures second_cell { ¬ AskAlike (holding []) (holding (one_in 2 9))
        (event.Finish 1 (ticket 3 9) Success) (event.Finish 1 (ticket 3 9) Success) }
    ensures given { HeldAsGiven (ticket 4 0 ∷ ticket 2 9 ∷ []) (holding (one_in 2 9)) }
    ensures given_a_later_name { HeldAsGiven (ticket 6 9 ∷ ticket 2 8 ∷ []) (holding (one_in 2 8)) }
    ensures not_given { ¬ HeldAsGiven (ticket 4 0 ∷ []) (holding (one_in 2 9)) }
    ensures in_another_cell { ¬ HeldAsGiven (ticket 3 9 ∷ []) (holding (one_in 2 9)) }
    ensures too_late { ¬ HeldAsGiven (ticket 4 10 ∷ ticket 2 9 ∷ []) (holding (one_in 2 9)) }
{}

/// States in which what is Stopping is what the active command disables, and others.
pub fn states_that_stop()
    ensures by_the_device { StopsByCommand
        (with_active DisableDevice (with_phases_of Stopping Stopping)) }
    ensures by_the_queue { StopsByCommand
        (with_active (DisableWq (masked 1)) (with_phases_of On Stopping)) }
    ensures no_device { ¬ StopsByCommand
        (with_active (DisableWq (masked 1)) (with_phases_of Stopping On)) }
    ensures no_queue { ¬ StopsByCommand
        (with_active (DisableWq (masked 2)) (with_phases_of On Stopping)) }
    ensures at_rest { IsAtRest (with_phases_of On Off) }
    ensures device_stops { ¬ IsAtRest (with_phases_of Stopping On) }
    ensures queue_stops { ¬ IsAtRest (with_phases_of On Stopping) }
{}
