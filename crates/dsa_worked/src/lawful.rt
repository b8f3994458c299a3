//! What always holds, clause by clause: a state of which it is true, and one that breaks each
//! clause.

ghost use Rattle.std.specs.Prelude.{◌≡◌, [], ◌∷◌, Some, None, true, false, map, replicate};
ghost use Rattle.dsa_regs.specs.declared.Phase.TheVariants.{Off, On, Stopping};
ghost use Rattle.dsa_regs.specs.Worked.{shared_queue};
ghost use Rattle.dsa_book.specs.declared.fate.Fate.TheVariants.{Completed};
ghost use Rattle.dsa_book.specs.State.{opening_setup};
ghost use Rattle.dsa_laws.specs.Buffering.{HasBuffers};
ghost use Rattle.dsa_laws.specs.Engines.{IsNoteOf, IsAlike, IsWithoutBatch, IsOnBatch, HasLawfulEngines};
ghost use Rattle.dsa_laws.specs.WellFormed.{HasShape, CellsOnce, NamesOnce, HasLawfulSetup, IsPlaced, NoneOff, PasidsFit, HasLawfulEntries, IsWithinLimits, IsWithinBatch, MembersInOrder, IsWellFormed, QueuesInOrder, none_runs, runs_first};
ghost use Rattle.dsa_worked.specs.Setup.{no_op, batch, row, held_entry};
ghost use Rattle.dsa_worked.specs.Uneven.{many_engines, small_queue};
ghost use Rattle.dsa_worked.specs.Lawful.{unlike, that_waits, that_runs, a_member_of_three, batch_three, member_of_three, note_of_three, work_of, work_with_lists, four_buffers, work_with_buffers, set_up_in, new_work, state_of, work_on_batch, work_of_three, one_engine_on, state_in_use, in_queue, note_of_nought, state_of_two, long_transfers, one_engine_of_long};

/// The lists, configurations, phases, groups and notes are as many as the device has.
pub fn shapes()
    ensures new { HasShape unlike new_work }
    ensures caps { ¬ HasShape (record unlike { slots = 5 }) new_work }
    ensures lists { ¬ HasShape unlike (record new_work { content = [] }) }
    ensures configs { ¬ HasShape unlike
        (record new_work { setup = record (opening_setup unlike) { configs = [] } }) }
    ensures phases { ¬ HasShape unlike
        (record new_work { setup = record (opening_setup unlike) { phases = [] } }) }
    ensures groups { ¬ HasShape unlike
        (record new_work { setup = record (opening_setup unlike) { groups = [] } }) }
    ensures notes { ¬ HasShape unlike (record new_work { notes = [] }) }
{}

/// No cell and no name is there twice, none is missing, and none is beyond the last.
pub fn cells_and_names()
    ensures each_cell { CellsOnce unlike (work_of (opening_setup unlike)
        ((held_entry 1 5 None no_op 0 false ∷ []) ∷ [])) }
    ensures each_name { NamesOnce work_of_three }
    ensures one_twice { ¬ NamesOnce (work_of (record (opening_setup unlike) { next_name = 2 })
        ((in_queue 0 0 ∷ in_queue 1 0 ∷ []) ∷ [])) }
    ensures cell_twice { ¬ CellsOnce unlike (work_of (opening_setup unlike)
        ((that_waits ∷ []) ∷ (that_runs ∷ []) ∷ [])) }
    ensures beyond { ¬ CellsOnce unlike (work_of (opening_setup unlike)
        ((held_entry 30 5 None no_op 0 false ∷ []) ∷ [])) }
    ensures missing { ¬ NamesOnce (work_of (record (opening_setup unlike) { next_name = 1 }) []) }
    ensures not_given { ¬ NamesOnce (record {
      setup = opening_setup unlike;
      content = [];
      notes = [];
      fates = row 0 None (Completed 1) ∷ [];
    }) }
    ensures held_and_ended { ¬ NamesOnce (record {
      setup = record (opening_setup unlike) { next_name = 1 };
      content = (held_entry 0 0 None no_op 0 false ∷ []) ∷ [];
      notes = [];
      fates = row 0 None (Completed 1) ∷ [];
    }) }
{}

/// A queue is not Off only while the device is not, On only while it is, and what is not Off has no
/// fault.
pub fn lawful_setups()
    ensures on { HasLawfulSetup (set_up_in On On small_queue 64) }
    ensures stopping { HasLawfulSetup (set_up_in Stopping Stopping small_queue 64) }
    ensures off { HasLawfulSetup (set_up_in Off Off small_queue 128) }
    ensures only_the_queue { ¬ HasLawfulSetup (set_up_in Off Stopping small_queue 64) }
    ensures queue_on { ¬ HasLawfulSetup (set_up_in Stopping On small_queue 64) }
    ensures bad_groups { ¬ HasLawfulSetup (set_up_in On Off small_queue 128) }
    ensures bad_queue { ¬ HasLawfulSetup
        (set_up_in On On (record small_queue { priority = 0 }) 64) }
{}

/// What the list of an entry says of it: list 0 is the queue's, then two for what is in progress,
/// and two for members.
pub fn places()
    ensures queued { IsPlaced unlike 0 that_waits }
    ensures first_engine { IsPlaced unlike 1 that_runs }
    ensures last_engine { IsPlaced unlike 2 that_runs }
    ensures first_members { IsPlaced unlike 3 a_member_of_three }
    ensures another_queue { ¬ IsPlaced unlike 0 (held_entry 0 0 None no_op 8 false) }
    ensures runs_in_the_queue { ¬ IsPlaced unlike 0 (held_entry 0 5 None no_op 0 true) }
    ensures waits_on_the_first { ¬ IsPlaced unlike 1 that_waits }
    ensures waits_on_the_last { ¬ IsPlaced unlike 2 that_waits }
    ensures member_in_progress { ¬ IsPlaced unlike 2 (held_entry 0 5 (Some 3) no_op 8 true) }
    ensures no_member { ¬ IsPlaced unlike 3 that_runs }
{}

/// No entry names a queue that is Off, and PASIDs have 20 bits.
pub fn entries()
    ensures on { NoneOff (work_of (set_up_in On On small_queue 64) ((that_waits ∷ []) ∷ [])) }
    ensures off { ¬ NoneOff (work_of (set_up_in On Off small_queue 64) ((that_waits ∷ []) ∷ [])) }
    ensures pasid { PasidsFit (work_of (opening_setup unlike)
        ((held_entry 0 0 None (record no_op { pasid = 1048575 }) 0 false ∷ []) ∷ [])) }
    ensures long_pasid { ¬ PasidsFit (work_of (opening_setup unlike)
        ((held_entry 0 0 None (record no_op { pasid = 1048576 }) 0 false ∷ []) ∷ [])) }
    ensures lawful { HasLawfulEntries many_engines
        (work_of (set_up_in On On small_queue 64) ((that_waits ∷ []) ∷ [])) }
    ensures not_placed { ¬ HasLawfulEntries many_engines
        (work_of (set_up_in On On small_queue 64) ((held_entry 0 5 None no_op 0 true ∷ []) ∷ [])) }
    ensures one_off { ¬ HasLawfulEntries many_engines
        (work_of (set_up_in On Off small_queue 64) ((that_waits ∷ []) ∷ [])) }
    ensures one_too_long { ¬ HasLawfulEntries many_engines
        (work_of (set_up_in On On small_queue 64)
        ((held_entry 0 0 None (record no_op { pasid = 1048576 }) 0 false ∷ []) ∷ [])) }
{}

/// Two places in the queue, four slots and eight members are all used, and no more may be.
pub fn limits()
    ensures full { IsWithinLimits unlike (work_with_lists 2 4 8) }
    ensures no_more { (¬ IsWithinLimits unlike (work_with_lists 3 4 8))
        × (¬ IsWithinLimits unlike (work_with_lists 2 5 8))
        × (¬ IsWithinLimits unlike (work_with_lists 2 4 9)) }
    ensures note { IsWithinBatch unlike
        (record { batch = 7; count = 8; fetched = 8; failed = false; closed = false }) }
    ensures note_of_none { IsWithinBatch unlike
        (record { batch = 9; count = 2; fetched = 1; failed = false; closed = false }) }
    ensures fetched { ¬ IsWithinBatch unlike
        (record { batch = 0; count = 7; fetched = 8; failed = false; closed = false }) }
    ensures count { ¬ IsWithinBatch unlike
        (record { batch = 0; count = 9; fetched = 1; failed = false; closed = false }) }
{}

/// Two read buffers are used in each of two groups, of which one is looked at.
pub fn buffers()
    ensures all { HasBuffers four_buffers (work_with_buffers On 1 2) }
    ensures off { HasBuffers four_buffers (work_with_buffers Off 3 1) }
    ensures allowed { ¬ HasBuffers four_buffers (work_with_buffers On 1 1) }
    ensures kept { ¬ HasBuffers four_buffers (work_with_buffers On 3 2) }
{}

/// An engine has a note where it works on a batch, which the note is of; its members are of the
/// batch, and no more than were fetched.
pub fn engines()
    ensures note { IsNoteOf note_of_three batch_three }
    ensures other_name { ¬ IsNoteOf note_of_three (held_entry 1 4 None (batch 2) 0 true) }
    ensures other_count { ¬ IsNoteOf note_of_three (held_entry 1 3 None (batch 4) 0 true) }
    ensures alike { IsAlike (held_entry 2 5 (Some 3) (record no_op { pasid = 6 }) 7 false)
        (held_entry 1 3 None (record (batch 2) { pasid = 6 }) 7 true) }
    ensures other_queue { ¬ IsAlike (held_entry 2 5 (Some 3) no_op 7 false) batch_three }
    ensures other_pasid { ¬ IsAlike (held_entry 2 5 (Some 3) (record no_op { pasid = 6 }) 0 false)
        batch_three }
    ensures without { IsWithoutBatch (set_up_in On On shared_queue 1) (that_waits ∷ []) [] }
    ensures a_batch { ¬ IsWithoutBatch (set_up_in On On shared_queue 1) (batch_three ∷ []) [] }
    ensures a_member { ¬ IsWithoutBatch (set_up_in On On shared_queue 1) []
        (member_of_three true ∷ []) }
    ensures on_batch { IsOnBatch (set_up_in On On shared_queue 1) (that_runs ∷ batch_three ∷ [])
        (member_of_three true ∷ []) note_of_three }
    ensures on_none { ¬ IsOnBatch (set_up_in On On shared_queue 1) (that_waits ∷ []) []
        note_of_three }
    ensures another_note { ¬ IsOnBatch (set_up_in On On shared_queue 1)
        (held_entry 1 4 None (batch 2) 0 true ∷ []) [] note_of_three }
    ensures another_parent { ¬ IsOnBatch (set_up_in On On shared_queue 1) (batch_three ∷ [])
        (held_entry 2 5 (Some 4) no_op 0 true ∷ []) note_of_three }
    ensures unlike_its_batch { ¬ IsOnBatch (set_up_in On On shared_queue 1) (batch_three ∷ [])
        (a_member_of_three ∷ []) note_of_three }
    ensures too_many { ¬ IsOnBatch (set_up_in On On shared_queue 1) (batch_three ∷ [])
        (member_of_three true ∷ member_of_three false ∷ []) note_of_three }
    ensures lost { ¬ HasLawfulEngines (work_on_batch None [] (member_of_three true ∷ [])) }
{}

/// Members that run are before those that wait.
pub fn members_in_order()
    ensures none { map none_runs ([] ∷ (that_waits ∷ []) ∷ (that_waits ∷ that_runs ∷ []) ∷ [])
        ≡ true ∷ true ∷ false ∷ [] }
    ensures first { map runs_first
        ([] ∷ (that_runs ∷ that_runs ∷ []) ∷ (that_runs ∷ that_waits ∷ []) ∷
        (that_waits ∷ that_runs ∷ []) ∷ [])
        ≡ true ∷ true ∷ true ∷ false ∷ [] }
    ensures in_order { MembersInOrder
        (work_on_batch None [] (member_of_three true ∷ member_of_three false ∷ [])) }
    ensures not_in_order { ¬ MembersInOrder
        (work_on_batch None [] (member_of_three false ∷ member_of_three true ∷ [])) }
{}

/// Names rise along a queue, whatever comes in other lists.
pub fn queues_in_order()
    ensures none { QueuesInOrder unlike (work_of (opening_setup unlike) []) }
    ensures rising { QueuesInOrder unlike (work_of (opening_setup unlike)
        ((in_queue 0 4 ∷ in_queue 1 7 ∷ []) ∷ (in_queue 2 3 ∷ in_queue 3 1 ∷ []) ∷ [])) }
    ensures falling { ¬ QueuesInOrder unlike (work_of (opening_setup unlike)
        ((in_queue 0 4 ∷ in_queue 1 7 ∷ in_queue 2 5 ∷ []) ∷ [])) }
    ensures twice { ¬ QueuesInOrder unlike (work_of (opening_setup unlike)
        ((in_queue 0 4 ∷ in_queue 1 4 ∷ []) ∷ [])) }
{}

/// A state that breaks one of these alone is not well formed: it has no notes, a cell twice, a name
/// that nothing has, a queue that is On while the device is not, an entry that runs in the queue, a
/// younger entry before an older one in the queue, a queue with more than it has places, members
/// that take more read buffers than their group may have, a note of no batch, more fetched than the
/// batch has, and a member that runs after one that waits.
pub fn states_not_well_formed()
    ensures shape { ¬ IsWellFormed unlike (state_of (record new_work { notes = [] })) }
    ensures cells { ¬ IsWellFormed many_engines
        (state_in_use one_engine_on 2 None (in_queue 0 0 ∷ in_queue 0 1 ∷ []) [] []) }
    ensures names { ¬ IsWellFormed unlike (state_of
        (record new_work { setup = record (opening_setup unlike) { next_name = 1 } })) }
    ensures set_up { ¬ IsWellFormed many_engines
        (state_in_use (set_up_in Off On small_queue 1) 0 None [] [] []) }
    ensures entries { ¬ IsWellFormed many_engines
        (state_in_use one_engine_on 1 None (held_entry 0 0 None no_op 0 true ∷ []) [] []) }
    ensures rising { ¬ IsWellFormed many_engines
        (state_in_use one_engine_on 2 None (in_queue 0 1 ∷ in_queue 1 0 ∷ []) [] []) }
    ensures limits { ¬ IsWellFormed many_engines
        (state_in_use one_engine_on 3 None (in_queue 0 0 ∷ in_queue 1 1 ∷ in_queue 2 2 ∷ [])
        [] []) }
    ensures buffers { ¬ IsWellFormed long_transfers
        (state_of_two one_engine_of_long 12288 true true) }
    ensures engines { ¬ IsWellFormed many_engines
        (state_in_use one_engine_on 0 (Some (note_of_nought 1)) [] [] []) }
    ensures notes { ¬ IsWellFormed many_engines
        (state_in_use one_engine_on 1 (Some (note_of_nought 3)) []
        (held_entry 0 0 None (batch 2) 0 true ∷ []) []) }
    ensures order { ¬ IsWellFormed many_engines (state_of_two one_engine_on 8 false true) }
{}
