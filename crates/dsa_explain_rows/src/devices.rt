//! What keeps a device from being made, and what one has after a step.

ghost use Rattle.std.specs.Prelude.{◌≡◌, [], ◌∷◌, ◌++◌, Some, None, true, false, map, option_map, replicate};
ghost use Rattle.dsa_regs.specs.declared.Command.TheVariants.{DrainAll};
ghost use Rattle.dsa_regs.specs.Config.{zero_group};
ghost use Rattle.dsa_book.specs.declared.answer.FinishAnswer.TheVariants.{Done, Gone, NotReady};
ghost use Rattle.dsa_book.specs.declared.answer.PollAnswer.TheVariants.{Full, Nothing};
ghost use Rattle.dsa_book.specs.declared.answer.Reply.TheVariants as reply;
ghost use Rattle.dsa_book.specs.declared.answer.WriteAnswer.TheVariants.{Written};
ghost use Rattle.dsa_book.specs.declared.event.Event.TheVariants as event;
ghost use Rattle.dsa_book.specs.declared.fate.PastFates.TheVariants.{Kept, Forgotten};
ghost use Rattle.dsa_device.specs.declared.faults.MakeFault.TheVariants.{BadCaps, BadCapacity, BadStore, OutOfMemory};
ghost use Rattle.dsa_device.specs.Made.{is_store_of, make_fault, make_table, opening_fault, fault_or_memory};
ghost use Rattle.dsa_device.specs.Reads.{is_held};
ghost use Rattle.dsa_book.specs.State.{opening};
ghost use Rattle.dsa_device.specs.Running.{after_answer, after_answers, awaited_end, names_left, running_at_first, running_anew, running_of};
ghost use Rattle.dsa_device.specs.Running.{watched_in, HasPast, HasRows, IsReplay, IsRunning, IsWholeDevice};
ghost use Rattle.dsa_device.specs.Runs.{IsAnswered, IsRunOf};
ghost use Rattle.dsa_engines.specs.Engines.{engines_at_first};
ghost use Rattle.dsa_worked.specs.Setup.{completed, polled, ticket, step_of_a_group_write};
ghost use Rattle.dsa_worked.specs.Uneven.{many_engines, many_queues, of_these};
ghost use Rattle.dsa_worked.specs.Values.{three_lists, of_cell};
ghost use Rattle.dsa_explain_rows.specs.Alike.{device_after, first_write, holding, in_use, none_awaited, none_counted, one_ended, second_write, with_active, with_content_of, with_next_name};

/// The causes that keep a device from being made, and which of them is told.
#[tactic(auto, unfolding(dsa_store::specs::Content::held_count))]
pub fn devices_made()
    ensures store { is_store_of many_queues 23 (replicate 9 []) ≡ true }
    ensures cells { is_store_of many_queues 22 (replicate 9 []) ≡ false }
    ensures lists { is_store_of many_queues 23 (replicate 8 []) ≡ false }
    ensures held { is_store_of many_queues 23 (three_lists ++ replicate 6 []) ≡ false }
    ensures table { make_table (record many_queues { queues = 0 }) 1048577 0 []
        ≡ (true, BadCaps) ∷ (true, BadCapacity) ∷ (true, BadStore) ∷ [] }
    ensures none { make_table many_queues 1048576 23 (replicate 9 [])
        ≡ (false, BadCaps) ∷ (false, BadCapacity) ∷ (false, BadStore) ∷ [] }
    ensures made { make_fault many_queues 1048576 23 (replicate 9 []) ≡ None }
    ensures first { make_fault (record many_queues { queues = 0 }) 1048577 0 [] ≡ Some BadCaps }
    ensures second { make_fault many_queues 1048577 0 [] ≡ Some BadCapacity }
    ensures third { make_fault many_queues 1048576 0 [] ≡ Some BadStore }
    ensures memory { fault_or_memory many_queues 1048576 23 (replicate 9 []) ≡ OutOfMemory }
    ensures no_memory { fault_or_memory many_queues 1048577 0 [] ≡ BadCapacity }
    ensures of_a_store { fault_or_memory many_queues 1048576 0 [] ≡ BadStore }
    ensures opening { opening_fault many_queues 1048576 ≡ OutOfMemory }
    ensures opening_caps { opening_fault (record many_queues { queues = 0 }) 1048577 ≡ BadCaps }
    ensures opening_capacity { opening_fault many_queues 1048577 ≡ BadCapacity }
{}

/// A device after an answer: Full comes where its history has no room, and then nothing changes.
pub fn devices_after_answers()
    ensures full { after_answer (running_at_first many_queues 0) event.Poll (reply.Poll Full)
        ≡ Some (running_at_first many_queues 0) }
    ensures not_full { after_answer (running_at_first many_queues 1) event.Poll (reply.Poll Full)
        ≡ None }
    ensures no_room { after_answer (running_at_first many_queues 0) event.Poll (reply.Poll Nothing)
        ≡ None }
    ensures less_room { option_map (λ d. d.history)
        (after_answer (record (running_at_first many_queues 5) { capacity = 0 })
        event.Poll (reply.Poll Nothing))
        ≡ None }
    ensures written { option_map (λ d. d.history)
        (after_answer (running_at_first many_queues 1)
        (event.WriteGroup 0 (of_these 64 1)) (reply.Write Written))
        ≡ Some (step_of_a_group_write 0 (of_these 64 1) Written ∷ []) }
    ensures group { option_map (λ d. d.state.work.setup.groups)
        (after_answer (running_at_first many_queues 1)
        (event.WriteGroup 0 (of_these 64 1)) (reply.Write Written))
        ≡ Some (of_these 64 1 ∷ zero_group ∷ []) }
{}

/// A device after several answers, each of which may come where those before it lead.
pub fn devices_after_several_answers()
    ensures none { after_answers (device_after 5 (first_write ∷ [])) []
        ≡ Some (device_after 5 (first_write ∷ [])) }
    ensures two { after_answers (running_at_first many_queues 5)
        (first_write ∷ polled Nothing ∷ second_write ∷ [])
        ≡ Some (device_after 5 (first_write ∷ second_write ∷ [])) }
    ensures full { after_answers (running_at_first many_queues 1)
        (first_write ∷ polled Full ∷ [])
        ≡ Some (device_after 1 (first_write ∷ [])) }
    ensures not_full { after_answers (running_at_first many_queues 2)
        (first_write ∷ polled Full ∷ second_write ∷ [])
        ≡ None }
{}

/// A device whose history begins anew: no step is stored, there is room for no more steps than
/// names are left, and fates are kept or forgotten.
pub fn devices_that_begin_anew()
    ensures names { names_left (running_at_first many_queues 5) ≡ 4294967295 }
    ensures few_names { names_left (with_next_name 4294967293) ≡ 2 }
    ensures no_name { names_left (with_next_name 4294967295) ≡ 0 }
    ensures history { (running_anew (device_after 5 (first_write ∷ [])) Kept).history ≡ [] }
    ensures capacity { (running_anew (device_after 5 (first_write ∷ [])) Kept).capacity ≡ 5 }
    ensures less { (running_anew (with_next_name 4294967293) Kept).capacity ≡ 2 }
    ensures room { (running_anew (with_next_name 4294967293) Kept).room ≡ 5 }
    ensures again { (running_anew (record (running_at_first many_queues 5) { capacity = 2 })
        Forgotten).capacity
        ≡ 5 }
    ensures room_again { (running_anew (record (running_at_first many_queues 5) { capacity = 2 })
        Kept).room ≡ 5 }
    ensures anew { (running_anew (running_at_first many_queues 5) Kept).anew ≡ true }
    ensures caps { (running_anew (running_at_first many_queues 5) Kept).caps ≡ many_queues }
    ensures kept { (running_anew in_use Kept).state ≡ in_use.state }
    ensures fates { (running_anew in_use Forgotten).state.work.fates ≡ [] }
    ensures entries { (running_anew in_use Forgotten).state.work.content ≡ three_lists }
    ensures command { (running_anew in_use Forgotten).state.active
        ≡ Some (record { command = DrainAll; mark = 9 }) }
    ensures next { (running_anew in_use Forgotten).state.work.setup.next_name ≡ 10 }
{}

/// Tickets that are held, and ends that a command waits for.
pub fn entries_awaited()
    ensures held { map (is_held three_lists)
        (ticket 2 2 ∷ ticket 7 7 ∷ ticket 2 3 ∷ ticket 3 2 ∷ [])
        ≡ true ∷ true ∷ false ∷ false ∷ [] }
    ensures watched { watched_in (with_active DrainAll (holding []).work.setup) (ticket 2 2)
        ≡ None }
    ensures of_an_active_command { watched_in (with_content_of three_lists DrainAll) (ticket 2 9)
        ≡ Some (of_cell 2).1 }
    ensures of_no_command { watched_in (holding three_lists) (ticket 2 2) ≡ None }
    ensures ends { map
        (awaited_end (record {
          active = Some
              (record { command = DrainAll; mark = 5 });
          awaited = 3;
        })
        (Some (of_cell 2).1)) (Done 1 ∷ NotReady ∷ Gone ∷ [])
        ≡ 1 ∷ 0 ∷ 0 ∷ [] }
    ensures not_counted { map (λ entry. awaited_end
        (record { active = Some (record { command = DrainAll; mark = 5 }); awaited = 3 }) entry
        (Done 1))
        (Some (of_cell 7).1 ∷ None ∷ [])
        ≡ 0 ∷ 0 ∷ [] }
{}

/// A device whose history is a legal one within its capacity, and that is its replay.
pub fn replays()
    ensures new { IsReplay (running_at_first many_queues 1048576) }
    ensures one_step { IsReplay (device_after 1 (first_write ∷ [])) }
    ensures caps { ¬ IsReplay (running_at_first (record many_queues { queues = 0 }) 1) }
    ensures bounded { ¬ IsReplay (running_at_first many_queues 1048577) }
    ensures within { ¬ IsReplay (device_after 0 (first_write ∷ [])) }
    ensures not_kept { ¬ IsReplay (device_after 1 (polled Nothing ∷ [])) }
    ensures legal { ¬ IsReplay
        (device_after 1 (step_of_a_group_write 9 (of_these 64 1) Written ∷ [])) }
    ensures replayed { ¬ IsReplay
        (record (running_at_first many_queues 1) { state = opening many_engines }) }
{}

/// A device with the steps and fates that came before its history.
pub fn pasts()
    ensures new { HasPast (running_at_first many_queues 1048576) }
    ensures anew { HasPast (running_anew (device_after 5 (first_write ∷ [])) Forgotten) }
    ensures caps { ¬ HasPast (running_at_first (record many_queues { queues = 0 }) 1) }
    ensures bounded { ¬ HasPast (running_at_first many_queues 1048577) }
    ensures limited { ¬ HasPast (record (running_at_first many_queues 5) { room = 4 }) }
    ensures within { ¬ HasPast (device_after 0 (first_write ∷ [])) }
    ensures named { ¬ HasPast (with_next_name 4294967295) }
    ensures replayed { ¬ HasPast
        (record (running_at_first many_queues 1) { state = opening many_engines }) }
    ensures past { ¬ HasPast (record (device_after 5 (first_write ∷ [])) { history = [] }) }
    ensures full_room { ¬ HasPast (record (running_at_first many_queues 5) { capacity = 4 }) }
{}

/// What came before where entries ended, and where few names were left.
pub fn pasts_with_fates()
    ensures kept { HasPast (running_anew (device_after 30 one_ended) Kept) }
    ensures forgotten { HasPast (running_anew (device_after 30 one_ended) Forgotten) }
    ensures last_names { HasPast
        (record (running_at_first many_queues 5) { capacity = 4; anew = true }) }
    ensures room { ¬ HasPast
        (record (running_at_first many_queues 1048577) { capacity = 5; anew = true }) }
{}

/// A device by its parts: the rows of its book are no number of its own.
pub fn parts_of_devices()
    ensures { running_of many_queues (opening many_engines).work.setup
        (engines_at_first many_queues) three_lists None
        (record {
          history = first_write ∷ [];
          fates = completed 1 3 ∷ [];
          room = 9;
          capacity = 5;
          row_room = 7;
          anew = true;
        })
        ≡ record {
          caps = many_queues;
          room = 9;
          capacity = 5;
          history = first_write ∷ [];
          anew = true;
          state = record {
            work = record {
              setup = (opening many_engines).work.setup;
              content = three_lists;
              notes = (engines_at_first many_queues).notes;
              fates = completed 1 3 ∷ [];
            };
            active = None;
          };
        } }
{}

/// A row for each fate, for each entry that is held and for each step that may come.
#[tactic(auto, unfolding(dsa_store::specs::Content::held_count))]
pub fn rows_of_devices()
    ensures new { HasRows 5 (running_at_first many_queues 5) }
    ensures step { HasRows 4 (device_after 5 (first_write ∷ [])) }
    ensures no_row { ¬ HasRows 4 (running_at_first many_queues 5) }
    ensures ended_and_held { HasRows 9 in_use }
    ensures no_row_for_one { ¬ HasRows 8 in_use }
{}

/// What is added to a list of steps, where a device has answered these events.
pub fn runs()
    ensures no_events { IsRunOf (running_at_first many_queues 5) [] (first_write ∷ [])
        (first_write ∷ []) (running_at_first many_queues 5) }
    ensures two_events { IsRunOf (device_after 5 (first_write ∷ []))
        (event.Poll ∷ event.WriteGroup 1 (of_these 32 0) ∷ [])
        (first_write ∷ polled Nothing ∷ [])
        (first_write ∷ polled Nothing ∷ polled Nothing ∷ second_write ∷ [])
        (device_after 5 (first_write ∷ second_write ∷ [])) }
    ensures full { IsRunOf (device_after 1 (first_write ∷ [])) (event.Poll ∷ []) []
        (polled Full ∷ []) (device_after 1 (first_write ∷ [])) }
    ensures steps_lost { ¬ IsRunOf (running_at_first many_queues 5) [] (first_write ∷ []) []
        (running_at_first many_queues 5) }
    ensures no_step { ¬ IsRunOf (running_at_first many_queues 5) (event.Poll ∷ []) [] []
        (running_at_first many_queues 5) }
    ensures not_full { ¬ IsRunOf (running_at_first many_queues 5) (event.Poll ∷ []) []
        (polled Full ∷ []) (running_at_first many_queues 5) }
    ensures other_caps { ¬ IsRunOf (running_at_first many_queues 5) [] [] []
        (record (running_at_first many_queues 5) { caps = many_engines }) }
    ensures other_capacity { ¬ IsRunOf (running_at_first many_queues 5) [] [] []
        (running_at_first many_queues 6) }
    ensures other_history { ¬ IsRunOf (running_at_first many_queues 5) [] [] []
        (device_after 5 (first_write ∷ [])) }
    ensures other_state { ¬ IsRunOf (running_at_first many_queues 5) [] [] []
        (record (running_at_first many_queues 5) { state = opening many_engines }) }
{}

/// What is added to a list of steps, whatever came before the device's history.
pub fn answers()
    ensures no_events { IsAnswered (running_anew (device_after 5 (first_write ∷ [])) Kept) []
        (first_write ∷ []) (first_write ∷ [])
        (running_anew (device_after 5 (first_write ∷ [])) Kept) }
    ensures two_events { IsAnswered (device_after 5 (first_write ∷ []))
        (event.Poll ∷ event.WriteGroup 1 (of_these 32 0) ∷ [])
        (first_write ∷ polled Nothing ∷ [])
        (first_write ∷ polled Nothing ∷ polled Nothing ∷ second_write ∷ [])
        (device_after 5 (first_write ∷ second_write ∷ [])) }
    ensures steps_lost { ¬ IsAnswered (running_at_first many_queues 5) [] (first_write ∷ []) []
        (running_at_first many_queues 5) }
    ensures no_step { ¬ IsAnswered (running_at_first many_queues 5) (event.Poll ∷ []) [] []
        (running_at_first many_queues 5) }
    ensures not_full { ¬ IsAnswered (running_at_first many_queues 5) (event.Poll ∷ []) []
        (polled Full ∷ []) (running_at_first many_queues 5) }
    ensures other_device { ¬ IsAnswered (running_at_first many_queues 5) [] [] []
        (running_at_first many_queues 6) }
{}

/// A device whose parts are in step, with what is kept of its queues and of the active command.
pub fn whole_devices()
    ensures whole { IsWholeDevice 23 (engines_at_first many_queues)
        (running_at_first many_queues 5) }
    ensures no_replay { ¬ IsWholeDevice 23 (engines_at_first many_queues)
        (running_at_first many_queues 1048577) }
    ensures no_cell { ¬ IsWholeDevice 22 (engines_at_first many_queues)
        (running_at_first many_queues 5) }
    ensures running { IsRunning 23 5 none_counted (engines_at_first many_queues) none_awaited
        (running_at_first many_queues 5) }
    ensures no_row { ¬ IsRunning 23 4 none_counted (engines_at_first many_queues) none_awaited
        (running_at_first many_queues 5) }
    ensures not_whole { ¬ IsRunning 22 5 none_counted (engines_at_first many_queues) none_awaited
        (running_at_first many_queues 5) }
    ensures miscounted { ¬ IsRunning 23 5 (record none_counted { held = replicate 7 1 })
        (engines_at_first many_queues) none_awaited (running_at_first many_queues 5) }
    ensures mark { ¬ IsRunning 23 5 none_counted (engines_at_first many_queues)
        (record { active = Some (record { command = DrainAll; mark = 1 }); awaited = 0 })
        (running_at_first many_queues 5) }
{}
