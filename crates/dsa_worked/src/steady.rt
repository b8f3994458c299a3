//! What the parts of a device keep, clause by clause: values of which it is true, and some that
//! break each clause.

ghost use Rattle.std.specs.Prelude.{◌≡◌, ℕ, [], ◌∷◌, Some, None, true, false, map, replicate};
ghost use Rattle.std.specs.Vec.{vec_capacity};
ghost use Rattle.std.specs.declared.alloc.Global.{Global};
ghost use Rattle.std.specs.declared.vec.Vec.{Vec};
ghost use Rattle.dsa_base.specs.Lists.{In};
ghost use Rattle.dsa_base.specs.Numbers.{IsNext, NoneFrom};
ghost use Rattle.dsa_buffers.specs.Buffers.{IsCovered, IsRoom};
ghost use Rattle.dsa_regs.specs.declared.Command.TheVariants.{DrainAll};
ghost use Rattle.dsa_regs.specs.declared.Deed.TheVariants.{Enable, Drain};
ghost use Rattle.dsa_regs.specs.declared.Phase.TheVariants.{Off, On};
ghost use Rattle.dsa_regs.specs.declared.Scope.TheVariants.{Device, Queues};
ghost use Rattle.dsa_store.specs.Content.{HeldEntry, IsSound};
ghost use Rattle.dsa_store.specs.Plain.{AllRoomy, IsEachCellOnce};
ghost use Rattle.dsa_book.specs.State.{opening_setup};
ghost use Rattle.dsa_accounts.specs.FreeCells.{HasFreeCell};
ghost use Rattle.dsa_laws.specs.WellFormed.{QueuesInOrder};
ghost use Rattle.dsa_engines.specs.Engines.{engines_at_first, Holds, IsInPlace, IsInStep, IsOpen, NamesRise, WaitInOrder};
ghost use Rattle.dsa_admin.specs.Admin.{IsAwaiting, IsUnrefused};
ghost use Rattle.dsa_worked.specs.Setup.{no_op, held_entry, masked};
ghost use Rattle.dsa_worked.specs.Uneven.{many_engines, small_queue, of_these};
ghost use Rattle.dsa_worked.specs.Values.{cell, of_cell, three_lists};
ghost use Rattle.dsa_worked.specs.Lawful.{unlike, that_waits, that_runs, a_member_of_three, with_buffers, set_up_in, work_of};
ghost use Rattle.dsa_worked.specs.Steady.{three_in_progress, kept_by_engines, in_places, one_drain};

/// The first number of a set from one on: of 20 = 2^2 + 2^4.
pub fn numbers_of_a_set()
    ensures next { IsNext 20 1 2 }
    ensures here { IsNext 20 2 2 }
    ensures before { ¬ IsNext 20 3 2 }
    ensures not_there { ¬ IsNext 20 3 3 }
    ensures not_first { ¬ IsNext 20 1 4 }
    ensures not_the_first_there { ¬ IsNext 20 2 4 }
    ensures past_another { IsNext 20 3 4 }
    ensures one_from { ¬ NoneFrom 20 4 }
    ensures none_from { NoneFrom 20 5 }
{}

/// Read buffers: as many groups as numbers in use, none above what it may have, and all that is
/// kept is there.
pub fn read_buffers()
    ensures covered { IsCovered
        (record { total = 6; groups = with_buffers 9 1 3 ∷ []; used = 3 ∷ [] }) 3 }
    ensures all_kept { IsCovered
        (record { total = 3; groups = with_buffers 9 1 3 ∷ []; used = 3 ∷ [] }) 3 }
    ensures lengths { ¬ IsCovered
        (record { total = 6; groups = with_buffers 9 1 3 ∷ []; used = [] }) 0 }
    ensures allowed { ¬ IsCovered
        (record { total = 6; groups = with_buffers 9 1 3 ∷ []; used = 4 ∷ [] }) 4 }
    ensures total { ¬ IsCovered
        (record { total = 2; groups = with_buffers 9 1 3 ∷ []; used = 3 ∷ [] }) 3 }
    ensures sum { ¬ IsCovered
        (record { total = 6; groups = with_buffers 9 1 3 ∷ []; used = 3 ∷ [] }) 2 }
    ensures no_group { IsRoom (record { total = 6; groups = []; used = [] }) 0 9 }
    ensures room { IsRoom
        (record { total = 6; groups = with_buffers 9 1 3 ∷ []; used = 1 ∷ [] }) 0 2 }
    ensures too_much { ¬ IsRoom
        (record { total = 6; groups = with_buffers 9 1 3 ∷ []; used = 1 ∷ [] }) 0 3 }
    ensures too_little { ¬ IsRoom
        (record { total = 6; groups = with_buffers 9 1 3 ∷ []; used = 1 ∷ [] }) 0 1 }
{}

/// A store of so many cells: no cell twice, none beyond the last, and each in use or free. Each
/// list has room for all of them.
pub fn cells_of_a_store()
    ensures sound { IsSound 8 three_lists }
    ensures full { IsSound 2 ((of_cell 1 ∷ of_cell 0 ∷ []) ∷ []) }
    ensures each_once { IsEachCellOnce 3 ((of_cell 2 ∷ []) ∷ (of_cell 0 ∷ []) ∷ []) (cell 1 ∷ []) }
    ensures roomy { (l : Vec HeldEntry Global) → vec_capacity l ≡ 3 → AllRoomy 3 (l ∷ []) }
    ensures not_roomy { (l : Vec HeldEntry Global)
        → vec_capacity l ≡ 3
        → ¬ AllRoomy 4 (l ∷ []) }
    ensures twice { ¬ IsSound 9 ((of_cell 4 ∷ []) ∷ (of_cell 4 ∷ []) ∷ []) }
    ensures beyond { ¬ IsSound 4 ((of_cell 4 ∷ []) ∷ []) }
    ensures too_many { ¬ IsSound 2 three_lists }
    ensures lost { ¬ IsEachCellOnce 2 ((of_cell 0 ∷ []) ∷ []) [] }
    ensures in_use_and_free { ¬ IsEachCellOnce 2 ((of_cell 0 ∷ []) ∷ []) (cell 0 ∷ []) }
    ensures free_beyond { ¬ IsEachCellOnce 1 [] (cell 1 ∷ []) }
    ensures free_twice { ¬ IsEachCellOnce 1 [] (cell 0 ∷ cell 0 ∷ []) }
{}

/// A device has a free cell while one of its cells is in no list.
pub fn free_cells()
    ensures second { HasFreeCell (record unlike { total_size = 2; engines = 0 })
        (work_of (opening_setup unlike) ((of_cell 0 ∷ []) ∷ [])) }
    ensures none { ¬ HasFreeCell (record unlike { total_size = 1; engines = 0 })
        (work_of (opening_setup unlike) ((of_cell 0 ∷ []) ∷ [])) }
    ensures in_the_list { In {X = ℕ} 3 (5 ∷ 3 ∷ []) }
    ensures not_in_the_list { ¬ In {X = ℕ} 4 (5 ∷ 3 ∷ []) }
{}

/// An engine that the device has, of the group, with a slot left.
pub fn open_engines()
    ensures last { IsOpen three_in_progress.setup three_in_progress.content 1 0 }
    ensures beyond { ¬ IsOpen
        (record three_in_progress.setup {
          groups = of_these 1 4
              ∷ [];
        }) three_in_progress.content 2 0 }
    ensures other_group { ¬ IsOpen three_in_progress.setup three_in_progress.content 1 1 }
    ensures no_slot { ¬ IsOpen three_in_progress.setup
        ([] ∷ [] ∷ replicate 4 that_runs ∷ []) 1 0 }
    ensures without_a_group { Holds None 9 (record { total = 6; groups = []; used = [] }) }
    ensures holds { Holds (Some 0) 3
        (record { total = 6; groups = with_buffers 9 1 3 ∷ []; used = 3 ∷ [] }) }
    ensures no_such_group { ¬ Holds (Some 1) 0
        (record { total = 6; groups = with_buffers 9 1 3 ∷ []; used = 3 ∷ [] }) }
    ensures less { ¬ Holds (Some 0) 4
        (record { total = 6; groups = with_buffers 9 1 3 ∷ []; used = 3 ∷ [] }) }
    ensures all_wait { WaitInOrder (that_waits ∷ that_waits ∷ []) }
    ensures all_run { WaitInOrder (that_runs ∷ that_runs ∷ []) }
    ensures one_runs { WaitInOrder (that_runs ∷ that_waits ∷ that_waits ∷ []) }
    ensures runs_after { ¬ WaitInOrder (that_waits ∷ that_runs ∷ []) }
    ensures none_is_older { ¬ NamesRise (of_cell 1 ∷ of_cell 0 ∷ []) }
    ensures runs_later { ¬ WaitInOrder (that_runs ∷ that_waits ∷ that_runs ∷ []) }
    ensures none_twice { ¬ NamesRise (of_cell 1 ∷ of_cell 1 ∷ []) }
    ensures one { NamesRise (of_cell 1 ∷ []) }
{}

/// What is in a queue's list names it, in the order of names, and what is in a list of members is
/// one.
pub fn lists_in_place()
    ensures placed { IsInPlace (opening_setup unlike) in_places }
    ensures queued { ¬ IsInPlace (opening_setup unlike)
        ((held_entry 0 0 None no_op 8 false ∷ []) ∷ []) }
    ensures no_member { ¬ IsInPlace (opening_setup unlike)
        ([] ∷ [] ∷ [] ∷ [] ∷ (that_runs ∷ []) ∷ []) }
    ensures no_name_twice { ¬ QueuesInOrder unlike
        (work_of (opening_setup unlike) ((of_cell 1 ∷ of_cell 1 ∷ []) ∷ [])) }
{}

/// What queues, engines and store keep in step.
pub fn parts_in_step()
    ensures new { IsInStep (opening_setup unlike) (engines_at_first unlike) 30 (replicate 5 []) }
    ensures on { IsInStep (set_up_in On Off small_queue 64) kept_by_engines 23
        ((that_waits ∷ []) ∷ replicate 14 []) }
    ensures queues { ¬ IsInStep (record (opening_setup unlike) { phases = [] })
        (engines_at_first unlike) 30
        (replicate 5 []) }
    ensures store { ¬ IsInStep (opening_setup unlike) (engines_at_first unlike) 29
        (replicate 5 []) }
    ensures held { ¬ IsInStep (opening_setup unlike) (engines_at_first unlike) 30
        ((that_waits ∷ []) ∷ replicate 4 []) }
    ensures unchecked { ¬ IsInStep (set_up_in On Off small_queue 128) kept_by_engines 23
        (replicate 15 []) }
    ensures too_many_places { ¬ IsInStep
        (set_up_in On Off (record small_queue { size = 3 }) 64) kept_by_engines 23
        (replicate 15 []) }
    ensures too_many_while_off { IsInStep
        (set_up_in Off Off (record small_queue { size = 3 }) 64) kept_by_engines 23
        (replicate 15 []) }
    ensures notes { ¬ IsInStep (opening_setup unlike)
        (record (engines_at_first unlike) { notes = [] }) 30 (replicate 5 []) }
    ensures homes { ¬ IsInStep (set_up_in On Off small_queue 64)
        (record kept_by_engines { homes = [] }) 23 (replicate 15 []) }
    ensures buffers { ¬ IsInStep (set_up_in On Off small_queue 64)
        (record kept_by_engines { buffers = record { total = 4; groups = []; used = [] } }) 23
        (replicate 15 []) }
{}

/// The number that is kept of an active command, and its mark.
pub fn numbers_of_commands()
    ensures no_command { IsAwaiting (record { active = None; awaited = 9 }) 0 three_lists }
    ensures counted { IsAwaiting (one_drain 5 2) 5 three_lists }
    ensures miscounted { ¬ IsAwaiting (one_drain 5 3) 5 three_lists }
    ensures mark { ¬ IsAwaiting (one_drain 6 2) 5 three_lists }
    ensures unrefused { IsUnrefused (set_up_in Off Off small_queue 64) Enable Device }
    ensures no_queue { ¬ IsUnrefused (set_up_in On On small_queue 64) Drain (Queues (masked 0)) }
    ensures unknown { ¬ IsUnrefused (set_up_in On On small_queue 64) Drain (Queues (masked 2)) }
    ensures not_ready { ¬ IsUnrefused (set_up_in Off Off small_queue 64) Drain Device }
    ensures unlawful { ¬ IsUnrefused (set_up_in Off Off small_queue 128) Enable Device }
{}
