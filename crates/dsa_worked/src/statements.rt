//! Statements of the laws, each with a state of which it is true, and one that breaks each of its
//! clauses.

ghost use Rattle.std.specs.Prelude.{◌≡◌, [], ◌∷◌, None, true, false, replicate, take};
ghost use Rattle.dsa_regs.specs.Caps.{HasList};
ghost use Rattle.dsa_regs.specs.declared.layout.ListUse.TheVariants.{Queue, Progress, Members};
ghost use Rattle.dsa_store.specs.Content.{StandsAt};
ghost use Rattle.dsa_book.specs.State.{opening_setup};
ghost use Rattle.dsa_queues.specs.Queues.{IsWholeSetup, IsStoreFor, IsKept, IsCounted};
ghost use Rattle.dsa_accounts.specs.BatchCounts.{AddsUp, HasEnded};
ghost use Rattle.dsa_worked.specs.Setup.{no_op, held_entry};
ghost use Rattle.dsa_worked.specs.Uneven.{many_queues, many_engines, many_groups};
ghost use Rattle.dsa_worked.specs.Values.{cell, of_cell, three_lists};
ghost use Rattle.dsa_worked.specs.Statements.{work_with, two_done, two_abandoned, one_aborted, third_held, note_of};

/// A device has the lists of its own queues and engines.
pub fn lists_of_a_device()
    ensures last_queue { HasList many_queues (Queue 6) }
    ensures only_engine { HasList many_queues (Progress 0) }
    ensures its_members { HasList many_queues (Members 0) }
    ensures only_queue { HasList many_engines (Queue 0) }
    ensures last_engine { HasList many_engines (Progress 6) }
    ensures members_of_the_last { HasList many_engines (Members 6) }
    ensures no_queue_beyond { ¬ HasList many_queues (Queue 7) }
    ensures no_engine_beyond { ¬ HasList many_queues (Progress 1) }
    ensures no_members_beyond { ¬ HasList many_queues (Members 1) }
    ensures no_second_queue { ¬ HasList many_engines (Queue 1) }
    ensures no_eighth_engine { ¬ HasList many_engines (Progress 7) }
    ensures no_members_of_it { ¬ HasList many_engines (Members 7) }
{}

/// A set-up has lawful capabilities, a configuration and a phase for each queue, and a
/// configuration for each group.
pub fn whole_setups()
    ensures of_many_queues { IsWholeSetup (opening_setup many_queues) }
    ensures of_many_groups { IsWholeSetup (opening_setup many_groups) }
    ensures no_places { ¬ IsWholeSetup (opening_setup (record many_queues { total_size = 0 })) }
    ensures no_configs { ¬ IsWholeSetup (record (opening_setup many_queues) { configs = [] }) }
    ensures no_phases { ¬ IsWholeSetup (record (opening_setup many_queues) { phases = [] }) }
    ensures no_groups { ¬ IsWholeSetup (record (opening_setup many_queues) { groups = [] }) }
{}

/// A store has the lists and the cells of its device.
pub fn stores_of_devices()
    ensures of_many_queues { IsStoreFor many_queues 23 (replicate 9 []) }
    ensures one_list_less { ¬ IsStoreFor many_queues 23 (replicate 8 []) }
    ensures one_cell_less { ¬ IsStoreFor many_queues 22 (replicate 9 []) }
{}

/// What is kept of the queues is a whole set-up and a number for each queue, which counts the
/// entries that name the queue.
pub fn kept_of_queues()
    ensures kept { IsKept (record { setup = opening_setup many_queues; held = replicate 7 0 }) }
    ensures no_number { ¬ IsKept (record { setup = opening_setup many_queues; held = [] }) }
    ensures not_whole { ¬ IsKept
        (record
        { setup = record (opening_setup many_queues) { phases = [] }; held = replicate 7 0 }) }
    ensures counted { IsCounted
        (record { setup = opening_setup many_queues; held = 3 ∷ replicate 6 0 }) three_lists }
    ensures three_are_not_counted { ¬ IsCounted
        (record { setup = opening_setup many_queues; held = replicate 7 0 }) three_lists }
    ensures one_is_named_by_none { ¬ IsCounted
        (record { setup = opening_setup many_queues; held = replicate 7 0 })
        ((held_entry 0 0 None no_op 7 false ∷ []) ∷ []) }
{}

/// An entry is at a place of a list, in its cell.
pub fn places_in_lists()
    ensures second { StandsAt three_lists 0 1 (cell 2) (of_cell 2).1 }
    ensures beyond_the_last { ¬ StandsAt three_lists 0 2 (cell 2) (of_cell 2).1 }
    ensures another_cell { ¬ StandsAt three_lists 0 0 (cell 2) (of_cell 2).1 }
    ensures in_no_list { ¬ StandsAt three_lists 2 0 (cell 2) (of_cell 2).1 }
{}

/// The members of an open batch that were fetched are done, abandoned or held.
pub fn members_of_an_open_batch()
    ensures of_an_open_batch { AddsUp (work_with two_done third_held) (note_of 3 false) }
    ensures of_a_closed_batch { AddsUp (work_with two_abandoned []) (note_of 3 true) }
    ensures one_is_abandoned { AddsUp (work_with (take 2 two_abandoned) []) (note_of 2 true) }
    ensures one_is_lost { ¬ AddsUp (work_with two_done third_held) (note_of 4 false) }
    ensures one_is_too_many { ¬ AddsUp (work_with two_done third_held) (note_of 2 false) }
    ensures abandoned_but_not_closed { ¬ AddsUp (work_with two_abandoned []) (note_of 3 false) }
    ensures closed_with_none_abandoned { ¬ AddsUp (work_with two_done third_held) (note_of 3 true) }
    ensures aborted { ¬ AddsUp (work_with one_aborted third_held) (note_of 3 false) }
{}

/// Of a batch that has ended all members are done, or some are abandoned, and none is left.
pub fn members_of_an_ended_batch()
    ensures done { HasEnded (work_with two_done []) 0 2 }
    ensures abandoned { HasEnded (work_with two_abandoned []) 0 3 }
    ensures some_not_fetched { HasEnded (work_with two_abandoned []) 0 5 }
    ensures one_is_lost { ¬ HasEnded (work_with two_done []) 0 3 }
    ensures more_than_there_are { ¬ HasEnded (work_with two_abandoned []) 0 2 }
    ensures one_is_held { ¬ HasEnded (work_with two_done third_held) 0 2 }
    ensures one_is_aborted { ¬ HasEnded (work_with one_aborted []) 0 2 }
{}
