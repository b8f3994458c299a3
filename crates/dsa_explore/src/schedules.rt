//! A law of steps that show a finding, and worked rows, each on a function with nothing to do.

ghost use Rattle.std.specs.Prelude.{◌≡◌, ◌+◌, ◌++◌, ℕ, List, [], ◌∷◌, Some, None, drop, length};
ghost use Rattle.std.specs.declared.alloc.Global.{Global};
ghost use Rattle.dsa_regs.specs.declared.Caps.{Caps};
ghost use Rattle.dsa_desc.specs.declared.Outcome.TheVariants.{Success};
ghost use Rattle.dsa_book.specs.declared.answer.PollAnswer.TheVariants as poll;
ghost use Rattle.dsa_book.specs.declared.answer.Reply.TheVariants as reply;
ghost use Rattle.dsa_book.specs.declared.event.Event.{Event};
ghost use Rattle.dsa_book.specs.declared.event.Event.TheVariants as event;
ghost use Rattle.dsa_book.specs.declared.event.Step.{Step};
ghost use Rattle.dsa_keys.specs.Parties.{World};
ghost use Rattle.dsa_parties.specs.declared.script.Script.{Script};
ghost use Rattle.dsa_parties.specs.Standing.{Standing};
ghost use Rattle.dsa_explore.specs.declared.found.Ask.TheVariants.{Act};
ghost use Rattle.dsa_explore.specs.declared.found.Finding.{Finding};
ghost use Rattle.dsa_explore.specs.declared.found.Finding.TheVariants.{Answer, Wait};
ghost use Rattle.dsa_explore.specs.Ends.{LeadsNowhere};
ghost use Rattle.dsa_explore.specs.Schedules.{event_of_move, schedule_events, steps_of_moves, IsSchedule, IsScheduleTo};
ghost use Rattle.dsa_explore.specs.Trying.{HasRoomBehind};
ghost use Rattle.dsa_explore.specs.Walked.{space_of};
ghost use Rattle.dsa_explore.specs.Ways.{IsRowTold, IsTellingStep};
ghost use Rattle.dsa_explore.specs.WorkedSearch.{idle_parties, quiet_world, uneven_caps};
ghost use Rattle.dsa_explore.specs.WorkedSetup.{opened_steps};
ghost use Rattle.dsa_explore.specs.WorkedSchedules.{asking_for, ending, made_so, polled, polled_steps, polling_script, running_world};
ghost use Rattle.dsa_explore.specs.WorkedSchedules.{poll_from, polled_row, polling_table, polling_world};

/// There are as many steps as events of the set-up, and as the number says.
pub fn schedules_have_a_length()
    ensures findings { (caps : Caps) (script : Script) (setup : List Event) (count : ℕ)
        (finding : Finding) (steps : List Step)
        → IsSchedule caps script setup count finding steps
        → length steps ≡ length setup + count }
    ensures worlds { (caps : Caps) (script : Script) (setup : List Event) (count : ℕ)
        (world : World Standing) (steps : List Step)
        → IsScheduleTo caps script setup count world steps
        → length steps ≡ length setup + count }
{}

/// The steps of moves. The end of an entry has its label when it is asked for, and its ticket when
/// it is made.
pub fn of_moves()
    ensures none { steps_of_moves idle_parties (quiet_world []) [] ≡ Some [] }
    ensures not_asked { steps_of_moves idle_parties (quiet_world [])
        (made_so (reply.Poll poll.Nothing) ∷ [])
        ≡ None }
    ensures two { steps_of_moves (asking_for event.Poll) (quiet_world [])
        (made_so (reply.Poll poll.Nothing) ∷ made_so (reply.Poll poll.Nothing) ∷ [])
        ≡ Some (polled ∷ polled ∷ []) }
    ensures other_answer { steps_of_moves (asking_for event.Poll) (quiet_world [])
        (made_so (reply.Poll poll.Finished) ∷ [])
        ≡ None }
    ensures ends { event_of_move (asking_for (ending 30)) running_world 5
        ≡ Some (event.Finish 1 (record { cell = record { 0 = 3 }; name = 3 }) Success) }
    ensures no_such_label { event_of_move (asking_for (ending 3)) running_world 5 ≡ None }
{}

/// The set-up and a poll show what the poll is answered. One step more or less does not, nor do
/// steps without the first one of the set-up.
pub fn of_polls()
    ensures shown { (memory : Global)
        → IsSchedule uneven_caps (polling_script memory) (schedule_events opened_steps) 1
        (Answer (Act 0) (reply.Poll poll.Nothing)) polled_steps }
    ensures too_long { (memory : Global)
        → ¬ IsSchedule uneven_caps (polling_script memory) (schedule_events opened_steps) 1
        (Answer (Act 0) (reply.Poll poll.Nothing)) (polled_steps ++ polled ∷ []) }
    ensures set_up_alone { (memory : Global)
        → ¬ IsSchedule uneven_caps (polling_script memory) (schedule_events opened_steps) 1
        (Answer (Act 0) (reply.Poll poll.Nothing)) opened_steps }
    ensures first_left_out { (memory : Global)
        → ¬ IsSchedule uneven_caps (polling_script memory) (schedule_events opened_steps) 1
        (Answer (Act 0) (reply.Poll poll.Nothing)) (drop 1 polled_steps) }
{}

/// The set-up leads to where the administrator begins, and with a poll to where it is through. The
/// set-up alone does not lead there. Steps without the first one of the set-up lead nowhere.
pub fn to_worlds()
    ensures set_up { (memory : Global)
        → IsScheduleTo uneven_caps (polling_script memory) (schedule_events opened_steps) 0
        (polling_world memory) opened_steps }
    ensures through { (memory : Global)
        → (world : World Standing)
        × (IsScheduleTo uneven_caps (polling_script memory) (schedule_events opened_steps) 1 world
        polled_steps × (world.places.administrators ≡ 1 ∷ [])) }
    ensures not_yet { (memory : Global) (world : World Standing)
        → IsScheduleTo uneven_caps (polling_script memory) (schedule_events opened_steps) 0 world
        opened_steps
        → world.places.administrators ≡ 1 ∷ []
        → ⊥ }
    ensures too_long { (memory : Global) (world : World Standing)
        → ¬ IsScheduleTo uneven_caps (polling_script memory) (schedule_events opened_steps) 1
        world (polled_steps ++ polled ∷ []) }
    ensures first_left_out { (memory : Global) (world : World Standing)
        → ¬ IsScheduleTo uneven_caps (polling_script memory) (schedule_events opened_steps) 1
        world (drop 1 polled_steps) }
{}

/// A poll tells its answer, and takes from no queue. The row with the answer has one step more than
/// the level of the world that is polled. A history has room for 1,048,576 steps.
pub fn told_by_polls()
    ensures told { (memory : Global)
        → IsTellingStep (space_of uneven_caps (polling_script memory)) (polling_world memory)
        (poll_from None) (Answer (Act 0) (reply.Poll poll.Nothing)) }
    ensures other_act { (memory : Global)
        → ¬ IsTellingStep (space_of uneven_caps (polling_script memory)) (polling_world memory)
        (poll_from None) (Wait 1 2) }
    ensures other_queue { (memory : Global)
        → LeadsNowhere (space_of uneven_caps (polling_script memory))
        (record { level = 0; world = polling_world memory }) (poll_from (Some 2)) }
    ensures somewhere { (memory : Global)
        → ¬ LeadsNowhere (space_of uneven_caps (polling_script memory))
        (record { level = 0; world = polling_world memory }) (poll_from None) }
    ensures row { (memory : Global)
        → IsRowTold (space_of uneven_caps (polling_script memory)) (polling_table memory)
        (polled_row 1) }
    ensures later { (memory : Global)
        → ¬ IsRowTold (space_of uneven_caps (polling_script memory)) (polling_table memory)
        (polled_row 2) }
    ensures nowhere { (memory : Global)
        → ¬ IsRowTold (space_of uneven_caps (polling_script memory)) [] (polled_row 1) }
    ensures room { (memory : Global) → HasRoomBehind 1048575 (polling_table memory) }
    ensures no_room { (memory : Global) → ¬ HasRoomBehind 1048576 (polling_table memory) }
{}
