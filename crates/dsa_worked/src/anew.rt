//! Books whose history begins anew, the memory of books, and states whose fates of long ago were
//! forgotten.

ghost use Rattle.std.specs.Prelude.{◌≡◌, [], ◌∷◌, Some, None};
ghost use Rattle.dsa_book.specs.Machine.{replay};
ghost use Rattle.dsa_book.specs.Records.{begun_anew, kept_fates};
ghost use Rattle.dsa_book.specs.Room.{HasRoom};
ghost use Rattle.dsa_book.specs.State.{State, opening};
ghost use Rattle.dsa_book.specs.declared.book.Book.TheInside.{Inside};
ghost use Rattle.dsa_book.specs.declared.fate.Fate.TheVariants.{Abandoned};
ghost use Rattle.dsa_book.specs.declared.fate.PastFates.TheVariants.{Kept, Forgotten};
ghost use Rattle.dsa_laws.specs.Forgotten.{with_past_fates, IsLawful};
ghost use Rattle.dsa_worked.specs.Anew.{HasSizes, uneven_sizes, three_rows};
ghost use Rattle.dsa_worked.specs.Anew.{book_in_use, book_anew, with_fates_alone, fates_after_past};
ghost use Rattle.dsa_worked.specs.Lawful.{unlike, state_of, new_work, one_engine_on};
ghost use Rattle.dsa_worked.specs.Lawful.{in_queue, state_in_use};
ghost use Rattle.dsa_worked.specs.Setup.{row, completed, completed_in};
ghost use Rattle.dsa_worked.specs.Uneven.{many_queues, many_engines, many_groups};
ghost use Rattle.dsa_worked.specs.Uneven.{batch_of_the_last_engine};

/// A book has room: no more steps and rows than it may have, and memory for so many of each.
pub fn room_of_books()
    ensures full { (b : Inside) → HasSizes b (record {
      steps = 5;
      rows = 5;
      capacity = 5;
      row_room = 5;
      room = 5;
      steps_memory = 5;
      rows_memory = 5;
    }) → HasRoom b }
    ensures room_for_more { (b : Inside) → HasSizes b uneven_sizes → HasRoom b }
    ensures too_many_steps { (b : Inside)
        → HasSizes b (record uneven_sizes { steps = 6 }) → ¬ HasRoom b }
    ensures too_many_rows { (b : Inside)
        → HasSizes b (record uneven_sizes { rows = 9 }) → ¬ HasRoom b }
    ensures more_than_at_first { (b : Inside)
        → HasSizes b (record uneven_sizes { capacity = 7 }) → ¬ HasRoom b }
    ensures no_memory_for_a_step { (b : Inside)
        → HasSizes b (record uneven_sizes { steps_memory = 5 }) → ¬ HasRoom b }
    ensures no_memory_for_a_row { (b : Inside)
        → HasSizes b (record uneven_sizes { rows_memory = 7 }) → ¬ HasRoom b }
{}

/// A book that begins anew has no step, and room for as many as at first or as names are left; for
/// rows there is room beside those that are kept.
pub fn books_that_begin_anew()
    ensures kept_rows { kept_fates Kept three_rows ≡ three_rows }
    ensures forgotten_rows { kept_fates Forgotten three_rows ≡ [] }
    ensures kept { begun_anew book_in_use Kept 4294967295 2 ≡ book_anew three_rows 9 14 }
    ensures forgotten { begun_anew book_in_use Forgotten 4294967295 2 ≡ book_anew [] 9 11 }
    ensures few_names { begun_anew book_in_use Kept 7 4 ≡ book_anew three_rows 7 14 }
    ensures no_name { begun_anew book_in_use Forgotten 0 4 ≡ book_anew [] 0 4 }
    ensures twice { begun_anew (begun_anew book_in_use Kept 1 0) Kept 8 5
        ≡ book_anew three_rows 8 16 }
{}

/// Fates of long ago stand before those of the state, and nothing else changes; no step looks at
/// them.
pub fn fates_of_long_ago()
    ensures before { with_past_fates (completed 1 0x03 ∷ row 0 None Abandoned ∷ [])
        (with_fates_alone (completed 2 0x01 ∷ []) (opening many_queues))
        ≡ with_fates_alone (completed 1 0x03 ∷ row 0 None Abandoned ∷ completed 2 0x01 ∷ [])
        (opening many_queues) }
    ensures none { (s : State) → with_past_fates [] s ≡ s }
    ensures alone { with_past_fates three_rows (opening many_groups)
        ≡ with_fates_alone three_rows (opening many_groups) }
    ensures after_steps { fates_after_past three_rows
        ≡ Some (completed 2 0x01 ∷ row 0 None Abandoned ∷ completed 1 0x03
        ∷ completed_in 0 1 0x01 ∷ []) }
{}

/// A state is lawful where fates can be found with which it is well formed: each name that has no
/// row and is not held was forgotten.
pub fn lawful_states()
    ensures with_its_fates { (s : State) → replay many_engines batch_of_the_last_engine ≡ Some s
        → IsLawful many_engines s }
    ensures without_them { (s : State) → replay many_engines batch_of_the_last_engine ≡ Some s
        → IsLawful many_engines (with_fates_alone [] s) }
    ensures one_not_given { ¬ IsLawful many_engines
        (with_fates_alone (completed 0 0x01 ∷ []) (opening many_engines)) }
    ensures held_and_ended { ¬ IsLawful many_engines (with_fates_alone (completed 0 0x01 ∷ [])
        (state_in_use one_engine_on 1 None (in_queue 0 0 ∷ []) [] [])) }
    ensures no_notes { ¬ IsLawful unlike (state_of (record new_work { notes = [] })) }
{}
